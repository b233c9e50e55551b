// Laws of the definitions. Nothing is run.
ghost use Rattle.lq_meaning_steps.specs.Progress.Laws.{ClosingKeepsTypes, IsKept, IsKeptBySteps, GoesOn, HasLook};
ghost use Rattle.lq_meaning_steps.specs.Progress.Programs.{TypedIsNeverStuck, AnnotatedIsNeverStuck};
ghost use Rattle.lq_meaning_steps.specs.Progress.Examples.{IdentityExample, ArrayExample, StuckExample, BoxExample, SumExample, TableExample, CalculationExample, FunctionExample, ChoiceExample, MatchExample, ElementExample, EffectExample};

use crate::model::{one_step, parts_step};

/// Values in the place of variables of their types keep the type, and so does a step, under a table that has all
/// that the earlier one has. A typed expression is a value of its type, or has a step. What a value of a type looks
/// like.
pub fn typed_expressions()
    ensures closing { ClosingKeepsTypes }
    ensures kept { IsKept }
    ensures steps { IsKeptBySteps }
    ensures goes_on { GoesOn }
    ensures look { HasLook }
{
    one_step();
    parts_step();
}

/// A typed program never gets stuck; nor does one whose scoped trees have an annotation that obeys the rules.
pub fn typed_programs()
    ensures items { TypedIsNeverStuck }
    ensures never_stuck { AnnotatedIsNeverStuck }
{}

/// Small programs with their types, and such as have none.
pub fn examples()
    ensures identity { IdentityExample }
    ensures array { ArrayExample }
    ensures stuck { StuckExample }
    ensures boxes { BoxExample }
    ensures sums { SumExample }
    ensures table { TableExample }
    ensures calculations { CalculationExample }
    ensures functions { FunctionExample }
    ensures choices { ChoiceExample }
    ensures matches { MatchExample }
    ensures elements { ElementExample }
    ensures effects { EffectExample }
{}
