// The most general types of a program, or the place where it has none.
ghost use Rattle.std.specs.Prelude.{◌≡◌, ◌≤◌, IfOk, IfErr};
ghost use Rattle.lq_base_names.specs.declared.place.Place.{Place};
ghost use Rattle.lq_text_walk.specs.Scoped.Whole.{scoped_view};
ghost use Rattle.lq_types_unify.specs.Solved.{HasOrder};
ghost use Rattle.lq_types_rules.specs.Visits.Laws.{slot_count};
ghost use Rattle.lq_types_rules.specs.Equations.Adding.{IsSystem, count_of};
ghost use Rattle.lq_types_rules.specs.Equations.Solved.{types_in};
ghost use Rattle.lq_types_infer.specs.Inference.Inferring.{IsSolved};
ghost use Rattle.lq_types_infer.specs.declared.inference.solving.SolveError.TheVariants.{IllTyped, Memory};
ghost use Rattle.lq_types_rules.specs.Typings.Inference.{IsIllTyped};
ghost use Rattle.lq_types_rules.specs.Typings.Principal.{node_count};

use crate::inference::equations::Inferred;
use crate::inference::program::{Attempt, Program, counts_of};
use lq_base_names::Place;
use lq_text_walk::scoped::Scoped;
use lq_types_rules::constructors::constructors_of;
use lq_types_rules::visits::{scoped_slots_are_apart, scoped_visits_are_in};
use std::alloc::{AllocError, Global};
use thiserror::Error;

/// Why a program has no most general types.
#[derive(Clone, Copy, Debug, PartialEq, Eq, Error)]
pub enum SolveError {
    /// The rules up to this place can't hold together, and those before it can.
    #[error("an ill typed program")]
    IllTyped(Place),
    #[error("out of memory")]
    Memory,
}

impl From<AllocError> for SolveError {
    ghost from_gives = { λ _ e. e ≡ Memory };

    fn from(_: AllocError) -> Self {
        SolveError::Memory
    }
}

/// How many nodes a program has. Past 2^32 it answers that there is no memory.
pub fn count_nodes(alloc: Global, program: &Scoped) -> Result<u32, AllocError>
    ensures { IfOk result (λ n. n ≡ node_count (scoped_view program.now)) }
{
    let counts = counts_of(alloc, program.items())?;
    Ok(counts.nodes)
}

/// The equations of a program's types with their most general solution, or the first place at which the rules up to it can't hold
/// together. Where nodes and binders reach 2^32, or the equations have too many nodes for their arena, it answers that there is no
/// memory.
pub fn solve_program(alloc: Global, program: &Scoped) -> Result<Inferred, SolveError>
    ensures system { IfOk result (λ i. IsSystem i.system) }
    ensures solved { IfOk result (λ i. IsSolved (scoped_view program.now) i.system
        (types_in i.system i.solution)) }
    ensures ordered { IfOk result (λ i. HasOrder i.system.arena i.solution) }
    ensures slots { IfOk result (λ i. slot_count (scoped_view program.now) ≤ count_of i.system) }
    ensures ill_typed { IfErr result (λ e. (place : Place) → e ≡ IllTyped place
        → IsIllTyped (scoped_view program.now) place) }
{
    scoped_slots_are_apart();
    scoped_visits_are_in();
    let items = program.items();
    let counts = counts_of(alloc, items)?;
    let constructors = constructors_of(alloc, program.datatypes())?;
    let slots = counts.nodes as usize + program.binders();
    let task = Program {
        items,
        constructors,
        nodes: counts.nodes,
        slots,
    };
    match task.attempt(alloc, counts.visits)? {
        Attempt::Solved(inferred) => Ok(inferred),
        Attempt::Failed(failed) => {
            let at = task.first_failing(alloc, failed)?;
            let found = task.place_of(alloc, at)?;
            let place = found.unwrap();
            Err(SolveError::IllTyped(place))
        }
    }
}
