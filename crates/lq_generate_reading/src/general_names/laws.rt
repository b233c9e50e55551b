// Laws of the definitions. Nothing is run.
ghost use Rattle.lq_generate_reading.specs.GeneralNames.Laws.{GeneralUsesAreDefined, GeneralUsesHaveTexts};

/// A generalised definition that a program uses is defined by one of its items.
pub fn general_uses_are_defined()
    ensures { GeneralUsesAreDefined }
{}

/// A generalised definition that a program uses has a source name, where what the program defines has source names.
pub fn general_uses_have_texts()
    ensures { GeneralUsesHaveTexts }
{}
