// Laws of the definitions. Nothing is run.
ghost use Rattle.lq_sound_readiness.specs.NormalReading.Laws.{NormalFormsCanBeRead};

/// The normal form of a program that suits is names bound to operations over pure expressions, as the typing rules read it.
pub fn normal_forms_can_be_read()
    ensures { NormalFormsCanBeRead }
{}
