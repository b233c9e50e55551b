// Laws of the definitions. Nothing is run.
ghost use Rattle.lq_sound_adequacy.specs.Demands.Laws.{DemandsAreBound};

/// What is demanded in a program in scope speaks of names that its environment binds.
pub fn demands_are_bound()
    ensures { DemandsAreBound }
{}
