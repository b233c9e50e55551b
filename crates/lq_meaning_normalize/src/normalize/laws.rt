// Laws of normal forms. Nothing is run.
ghost use Rattle.lq_meaning_normalize.specs.Normalize.Laws.{ProgramsAreOnePass};

use lq_meaning_normal_form::outcomes::one_pass;

/// The normal form of a program, naming and then flattening, is what the one pass over its expressions makes.
pub fn programs_are_one_pass()
    ensures { ProgramsAreOnePass }
{
    one_pass();
}
