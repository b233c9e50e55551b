// What a reading adds to a path.
ghost use Rattle.std.specs.Prelude.{◌≡◌, OnOk};
ghost use Rattle.lq_prover_proof_tree.specs.Trees.Path.{each_taken, taken};
ghost use Rattle.lq_logic_predicates.specs.NnfView.{nnf_view, nnfs_view};
ghost use Rattle.lq_prover_search.specs.Search.Parts.{AddsChoice, AddsOpen, path_by};

use crate::path::Choice;
use lq_logic_predicates::{Nnf, Nnfs};
use lq_prover_case::equations::Literal;
use std::alloc::AllocError;

/// What never holds, or a literal.
#[derive(Clone, Copy)]
pub(crate) enum Part<'a> {
    Never,
    Known(Literal<'a>),
}

/// Adds the literals of a reading, and readings of which one is to hold as a choice.
#[cycle(add_parts)]
pub(crate) fn add_parts<'a>(
    reading: &'a Nnf,
    parts: &mut Vec<Part<'a>>,
    choices: &mut Vec<Choice<'a>>,
) -> Result<(), AllocError>
    ensures taken { OnOk result (path_by parts.new.items choices.new.items
        ≡ taken (path_by parts.old.items choices.old.items) (nnf_view reading.now)) }
    ensures adds { OnOk result (AddsOpen choices.old.items choices.new.items) }
{
    let part = match reading {
        Nnf::Yes => return Ok(()),
        Nnf::All(readings) => return add_all_parts(readings, parts, choices),
        Nnf::Any(members) => return add_choice(members, choices),
        Nnf::No => Part::Never,
        Nnf::Row(row) => Part::Known(Literal::Row(row)),
        Nnf::Flag(flag, value) => Part::Known(Literal::Flag(*flag, *value)),
        Nnf::Same(left, right, one) => Part::Known(Literal::Same(left, right, *one)),
    };
    parts.push(part)?;
    Ok(())
}

/// Adds the literals and choices of readings in order.
#[cycle(add_parts)]
fn add_all_parts<'a>(
    readings: &'a Nnfs,
    parts: &mut Vec<Part<'a>>,
    choices: &mut Vec<Choice<'a>>,
) -> Result<(), AllocError>
    ensures taken { OnOk result (path_by parts.new.items choices.new.items
        ≡ each_taken (path_by parts.old.items choices.old.items) (nnfs_view readings.now)) }
    ensures adds { OnOk result (AddsOpen choices.old.items choices.new.items) }
{
    for reading in readings.as_slice() {
        add_parts(reading, parts, choices)?;
    }
    Ok(())
}

/// Lets readings be the next choice.
fn add_choice<'a>(members: &'a Nnfs, choices: &mut Vec<Choice<'a>>) -> Result<(), AllocError>
    ensures choice { OnOk result (AddsChoice choices.old.items (nnfs_view members.now) choices.new.items) }
{
    let choice = Choice {
        members,
        is_done: false,
    };
    choices.push(choice)?;
    Ok(())
}
