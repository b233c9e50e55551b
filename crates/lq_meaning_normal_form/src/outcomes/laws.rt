// Laws of the definitions. Nothing is run.
ghost use Rattle.lq_meaning_normal_form.specs.Outcomes.Named.{NamingKeeps, NamingKeepsPrograms};
ghost use Rattle.lq_meaning_normal_form.specs.Outcomes.Apart.{NamedAreClear, NormalFormKeeps, TypedNormalFormKeeps};
ghost use Rattle.lq_meaning_normal_form.specs.Outcomes.Examples.{RightFirstExample, ReadsExample, NestedExample, ListExample, LogicExample, OtherExample};
ghost use Rattle.lq_meaning_normal_form.specs.Outcomes.Flattened.{FlatteningKeeps, FlatteningKeepsPrograms, NormalFormKeepsOutcomes};
ghost use Rattle.lq_meaning_normal_form.specs.Outcomes.OnePass.{OnePassIsBoth};

use lq_meaning_steps::model::{
    adequacy_of_programs, closing, environments, over_stays, same_outcomes,
};
use lq_meaning_steps::progress::typed_programs;

/// Where no use in an expression has a made name, the expression and the named one mean alike, with every bound on
/// nested calls: values that are alike, the same fault at the same place, an input that ends at the same place, and
/// the same output. Nothing is said where the expression gets stuck.
pub fn naming_keeps()
    ensures { NamingKeeps }
{
    environments();
    closing();
}

/// A program that never gets stuck, and the named one, mean the same on each input, with every bound on nested calls.
pub fn naming_keeps_programs()
    ensures { NamingKeepsPrograms }
{
    environments();
    closing();
}

/// An expression in which no name is used behind a let that flattening brings out around it, and the flattened one,
/// mean alike, with every bound on nested calls. Nothing is said where the expression gets stuck.
pub fn flattening_keeps()
    ensures { FlatteningKeeps }
{
    environments();
    closing();
}

/// The same for programs that never get stuck.
pub fn flattening_keeps_programs()
    ensures { FlatteningKeepsPrograms }
{
    environments();
    closing();
}

/// So the normal form keeps every outcome of a program that never gets stuck, where the named items are clear.
pub fn clear_normal_form_keeps_outcomes()
    ensures { NormalFormKeepsOutcomes }
{
    naming_keeps_programs();
    flattening_keeps_programs();
    same_outcomes();
}

/// Where no part of an expression uses a name that comes out of another part, the named items are clear.
pub fn named_are_clear()
    ensures { NamedAreClear }
{}

/// The normal form keeps every outcome, in both directions, of a program that never gets stuck, whose parts are apart,
/// and which has no made name.
pub fn normal_form_keeps_outcomes()
    ensures { NormalFormKeeps }
{
    adequacy_of_programs();
    named_are_clear();
    clear_normal_form_keeps_outcomes();
}

/// So it does of a program whose types obey the ML rules, since that never gets stuck.
pub fn typed_normal_form_keeps_outcomes()
    ensures { TypedNormalFormKeeps }
{
    typed_programs();
    normal_form_keeps_outcomes();
}

/// The normal forms of some expressions.
pub fn examples()
    ensures reads { ReadsExample }
    ensures nested { NestedExample }
    ensures list { ListExample }
    ensures logic { LogicExample }
    ensures other { OtherExample }
{}

/// One pass, in the order in which code makes it, makes exactly what naming and then flattening make.
pub fn one_pass()
    ensures { OnePassIsBoth }
{}

/// Naming that binds the right operand first does not keep outcomes.
pub fn right_first()
    ensures { RightFirstExample }
{
    over_stays();
}
