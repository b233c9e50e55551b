// The line on a demand or a flow.
ghost use Rattle.std.specs.Prelude.{◌≡◌, ◌<◌, ◌++◌, length, OnOk};
ghost use Rattle.lq_refined_substitution.specs.Implications.Views.{implications_of, origin_view, reason_view};
ghost use Rattle.lq_top_answers.specs.Failure.Heads.{kind_word, line_at, origin_line, reason_text};

use crate::failure::counting::{count, is_known};
use crate::failure::numbers::push_count;
use lq_base_names::Place;
use lq_refined_substitution::implications::{Implications, Reason};
use lq_text_refusal::push_place;
use std::alloc::AllocError;

// The word of a reason.
fn reason_word(reason: Reason) -> &'static [u8]
    ensures { result.now ≡ reason_text (reason_view reason) }
{
    match reason {
        Reason::Assertion => b"assertion",
        Reason::Index => b"index",
        Reason::Divisor => b"divisor",
        Reason::Length => b"length",
        Reason::Case => b"case",
        Reason::Argument => b"argument",
        Reason::Flow => b"flow",
    }
}

fn kind_word(demand: bool) -> &'static [u8]
    ensures { result.now ≡ kind_word demand }
{
    if demand { b"demand " } else { b"flow " }
}

// Writes the line on a demand or a flow of this number.
fn push_origin(
    line: &mut Vec<u8>,
    demand: bool,
    number: usize,
    origin: (Place, Reason),
) -> Result<(), AllocError>
    ensures { OnOk result (line.new.items ≡ line.old.items
        ++ origin_line demand number (origin_view origin.0 origin.1)) }
{
    line.extend_from_slice(kind_word(demand))?;
    push_count(line, number as u64)?;
    line.extend_from_slice(b" at ")?;
    push_place(line, origin.0)?;
    line.extend_from_slice(b": ")?;
    line.extend_from_slice(reason_word(origin.1))?;
    line.extend_from_slice(b"\n")
}

/// Writes the line on the implication at this place of the list behind the bytes.
pub(crate) fn push_head(
    line: &mut Vec<u8>,
    implications: &Implications,
    at: usize,
) -> Result<(), AllocError>
    requires { at < length (implications_of implications.now) }
    ensures { OnOk result (line.new.items ≡ line.old.items ++ line_at (implications_of implications.now) at) }
{
    let Some(implication) = implications.get(at) else {
        unreachable!()
    };
    let demand = is_known(&implication.goal);
    let number = count(implications, at, demand);
    push_origin(
        line,
        demand,
        number,
        (implication.place, implication.reason),
    )
}
