// The values that a state gives to a case.
ghost use Rattle.std.specs.Prelude.{◌≡◌, IfOk, length, map};
ghost use Rattle.lq_prover_decide.specs.Case.{fact_of};
ghost use Rattle.lq_prover_decide.specs.CaseView.{case_of};
ghost use Rattle.lq_prover_decide.specs.Deciding.{Fits};
ghost use Rattle.lq_prover_decide.specs.Settled.{AgreeOnFlags, AreValuesOf, HasFlags, IsSettled};
ghost use Rattle.lq_prover_case.specs.Equations.Naming.{objects_of};

use crate::fact::Fact;
use crate::literals::Literals;
use indexmap::IndexMap;
use lq_logic_points::PointValues;
use lq_logic_predicates::Symbol;
use lq_prover_case::equations::{ObjectTable, object_classes, term_values};
use lq_prover_case::state::PathState;
use std::alloc::{AllocError, Global};

/// The truth values that literals give to flags.
fn flag_values(alloc: Global, facts: &[Fact]) -> Result<IndexMap<Symbol, bool>, AllocError>
    requires { AgreeOnFlags (map fact_of facts.now) }
    ensures { IfOk result (λ flags. HasFlags (map fact_of facts.now) flags.entries) }
{
    let mut flags = IndexMap::new(alloc);
    for fact in facts {
        if let Fact::Flag(flag, value) = fact {
            flags.insert(*flag, *value)?;
        }
    }
    Ok(flags)
}

/// The values of the terms, flags and objects of a case, by a state that took its literals.
pub(crate) fn case_values(
    alloc: Global,
    literals: &Literals,
    objects: &ObjectTable,
    state: &PathState,
) -> Result<PointValues, AllocError>
    requires fits { Fits (case_of literals.now) }
    requires settled { IsSettled (objects_of objects.now) (case_of literals.now) state.now }
    requires count { state.now.objects.count ≡ length (objects_of objects.now) }
    ensures { IfOk result (AreValuesOf (objects_of objects.now) (case_of literals.now) state.now) }
{
    let table = literals.implication().terms(alloc)?;
    let numbers = term_values(alloc, &table, state)?;
    let flags = flag_values(alloc, literals.facts().as_slice())?;
    let classes = object_classes(alloc, objects, state.classes())?;
    Ok(PointValues::new(numbers, flags, classes, table))
}
