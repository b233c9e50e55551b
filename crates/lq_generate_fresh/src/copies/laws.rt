// Laws of the definitions. Nothing is run.
ghost use Rattle.lq_generate_fresh.specs.Copies.Laws.{TemplatesComplete, TemplatesRenumber};

/// The fresh template of a type from the unknown n on, in a scope, is the one from 0 on where the mark alone is visible, with each number greater by n.
pub fn templates_renumber()
    ensures { TemplatesRenumber }
{}

/// The unknowns of the fresh template of a type in a scope are those where the mark alone is visible, with that scope in the place of the mark.
pub fn templates_complete()
    ensures { TemplatesComplete }
{}
