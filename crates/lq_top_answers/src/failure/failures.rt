// The texts of implications that fail and of those that aren't decided.
ghost use Rattle.std.specs.Prelude.{◌≡◌, ◌<◌, ◌++◌, codes, length, map, IfOk, OnOk};
ghost use Rattle.lq_logic_predicates.specs.PredView.{formula_of, implication_of};
ghost use Rattle.lq_logic_predicates.specs.declared.pred.Stop.TheVariants.{Memory};
ghost use Rattle.lq_logic_text.specs.Views.{calling_view, IsTold};
ghost use Rattle.lq_logic_points.specs.Values.{as_point};
ghost use Rattle.lq_logic_text.specs.Predicates.{formula_text};
ghost use Rattle.lq_refined_substitution.specs.Implications.Views.{implications_of};
ghost use Rattle.lq_top_answers.specs.Failure.Failures.{IsFailure, IsExplained, given_lines, sides_text, stop_text, undecided_lines};

use crate::failure::heads::push_head;
use crate::failure::numbers::{push_count, push_past};
use crate::failure::point_lines::push_point;
use lq_base_names::TextBuf;
use lq_logic_points::Point;
use lq_logic_predicates::{Closed, Pred, Stop};
use lq_logic_text::{Calling, push_pred};
use lq_refined_substitution::implications::Implications;
use std::alloc::{AllocError, Global};

// Writes a word and a predicate as a line behind the bytes.
fn push_pred_line(
    line: &mut Vec<u8>,
    calling: &Calling<'_>,
    word: &[u8],
    pred: &Pred,
) -> Result<(), AllocError>
    requires { IsTold calling.now }
    ensures { OnOk result (line.new.items ≡ line.old.items
        ++ (word.now ++ formula_text (calling_view calling.now) (formula_of pred.now) ++ codes "\n")) }
{
    line.extend_from_slice(word)?;
    push_pred(line, calling, pred)?;
    line.extend_from_slice(b"\n")
}

// Writes each of the hypotheses behind the bytes.
fn push_given(
    line: &mut Vec<u8>,
    calling: &Calling<'_>,
    hypotheses: &[Pred],
) -> Result<(), AllocError>
    requires { IsTold calling.now }
    ensures { OnOk result (line.new.items ≡ line.old.items
        ++ given_lines (calling_view calling.now) (map formula_of hypotheses.now)) }
{
    for pred in hypotheses {
        push_pred_line(line, calling, b"given ", pred)?;
    }
    Ok(())
}

// Writes the hypotheses and the goal behind the bytes.
fn push_sides(line: &mut Vec<u8>, calling: &Calling<'_>, closed: &Closed) -> Result<(), AllocError>
    requires { IsTold calling.now }
    ensures { OnOk result (line.new.items ≡ line.old.items
        ++ sides_text (calling_view calling.now) (implication_of closed.now)) }
{
    push_given(line, calling, closed.hypotheses.as_slice())?;
    push_pred_line(line, calling, b"goal ", &closed.goal)
}

// A failure's text.
fn failure(
    alloc: Global,
    calling: &Calling<'_>,
    implications: &Implications,
    at: u64,
    closed: &Closed,
    point: &Point,
) -> Result<Vec<u8>, AllocError>
    requires told { IsTold calling.now }
    requires there { at < length (implications_of implications.now) }
    ensures { IfOk result (λ text. IsFailure (calling_view calling.now) (implications_of implications.now) at
        (implication_of closed.now) (as_point point.now) text.items) }
{
    let mut text = Vec::from_slice(alloc, b"rejected\n")?;
    push_head(&mut text, implications, at as usize)?;
    push_point(alloc, &mut text, calling, closed, point)?;
    Ok(text)
}

/// The text of an implication that fails at the point: which demand or flow it is, and a line for each term, truth value and object of the
/// closed implication, with its value.
pub fn failure_text(
    alloc: Global,
    calling: &Calling<'_>,
    implications: &Implications,
    at: u64,
    closed: &Closed,
    point: &Point,
) -> Result<TextBuf, AllocError>
    requires told { IsTold calling.now }
    requires there { at < length (implications_of implications.now) }
    ensures { IfOk result (λ text. IsFailure (calling_view calling.now) (implications_of implications.now) at
        (implication_of closed.now) (as_point point.now) text) }
{
    let text = failure(alloc, calling, implications, at, closed, point)?;
    Ok(TextBuf::from_bytes(text))
}

/// The same, and behind it the hypotheses and the goal, a line each.
pub fn explain_text(
    alloc: Global,
    calling: &Calling<'_>,
    implications: &Implications,
    at: u64,
    closed: &Closed,
    point: &Point,
) -> Result<TextBuf, AllocError>
    requires told { IsTold calling.now }
    requires there { at < length (implications_of implications.now) }
    ensures { IfOk result (λ text. IsExplained (calling_view calling.now) (implications_of implications.now) at
        (implication_of closed.now) (as_point point.now) text) }
{
    let mut text = failure(alloc, calling, implications, at, closed, point)?;
    push_sides(&mut text, calling, closed)?;
    Ok(TextBuf::from_bytes(text))
}

// Writes why there is no verdict behind the bytes.
fn push_stop(line: &mut Vec<u8>, calling: &Calling<'_>, stop: &Stop) -> Result<(), AllocError>
    requires told { IsTold calling.now }
    requires cause { stop.now ≡ Memory → ⊥ }
    ensures { OnOk result (line.new.items ≡ line.old.items ++ stop_text (calling_view calling.now) stop.now) }
{
    match stop {
        Stop::Number(past) => {
            line.extend_from_slice(b"number past ")?;
            push_past(line, past)?;
            line.extend_from_slice(b"\n")
        }
        Stop::Gather(pred) => push_pred_line(line, calling, b"number past in ", pred),
        Stop::Pivots(pivots) => {
            line.extend_from_slice(b"pivots ")?;
            push_count(line, *pivots)?;
            line.extend_from_slice(b"\n")
        }
        Stop::Memory => unreachable!(),
    }
}

/// The text of an implication that isn't decided: which demand or flow it is, and the number past 128 bits or the pivots that were spent.
pub fn undecided_text(
    alloc: Global,
    calling: &Calling<'_>,
    implications: &Implications,
    at: u64,
    stop: &Stop,
) -> Result<TextBuf, AllocError>
    requires told { IsTold calling.now }
    requires there { at < length (implications_of implications.now) }
    requires cause { stop.now ≡ Memory → ⊥ }
    ensures { IfOk result (λ text. text ≡ undecided_lines (calling_view calling.now)
        (implications_of implications.now) at stop.now) }
{
    let mut text = Vec::from_slice(alloc, b"undecided\n")?;
    push_head(&mut text, implications, at as usize)?;
    push_stop(&mut text, calling, stop)?;
    Ok(TextBuf::from_bytes(text))
}
