// Predicates in types.
ghost use Rattle.std.specs.Prelude.{◌≡◌, ◌++◌, ◌==◌, [], OnOk, codes, map, if◌then◌else◌};
ghost use Rattle.lq_logic_predicates.specs.PredView.{formula_of};
ghost use Rattle.lq_logic_text.specs.Continued.{Continues};
ghost use Rattle.lq_logic_text.specs.Views.{calling_view, IsTold};
ghost use Rattle.lq_top_answers.specs.TypeText.Types.{conjunct_text, formulas_text, in_row};

use lq_logic_predicates::Pred;
use lq_logic_text::{Calling, push_pred};
use std::alloc::AllocError;

// Writes what stands before an element of a row: nothing before the first one.
#[tactic(auto, using(lq_logic_text::specs::Continued::continuing))]
pub(crate) fn push_separator(
    line: &mut Vec<u8>,
    separator: &[u8],
    at: usize,
) -> Result<(), AllocError>
    ensures written { OnOk result (line.new.items ≡ line.old.items ++ (if at == 0 then [] else separator.now)) }
    ensures begins { Continues line.old.items line.new.items }
{
    if at == 0 {
        Ok(())
    } else {
        line.extend_from_slice(separator)
    }
}

// Writes one of several predicates.
#[tactic(auto, using(lq_logic_text::specs::Continued::continuing))]
fn push_conjunct(line: &mut Vec<u8>, calling: &Calling<'_>, pred: &Pred) -> Result<(), AllocError>
    requires { IsTold calling.now }
    ensures written { OnOk result (line.new.items ≡ line.old.items
        ++ conjunct_text (calling_view calling.now) (formula_of pred.now)) }
    ensures begins { Continues line.old.items line.new.items }
{
    match pred {
        Pred::Or(_, _) | Pred::Iff(_, _) => {
            line.extend_from_slice(b"(")?;
            push_pred(line, calling, pred)?;
            line.extend_from_slice(b")")
        }
        Pred::True
        | Pred::False
        | Pred::Flag(_)
        | Pred::Compare(_, _, _)
        | Pred::Same(_, _)
        | Pred::Not(_)
        | Pred::And(_, _) => push_pred(line, calling, pred),
    }
}

// Writes several predicates.
#[tactic(auto, using(lq_logic_text::specs::Continued::continuing))]
fn push_conjuncts(
    line: &mut Vec<u8>,
    calling: &Calling<'_>,
    preds: &[Pred],
) -> Result<(), AllocError>
    requires { IsTold calling.now }
    ensures written { OnOk result (line.new.items ≡ line.old.items
        ++ in_row (codes " && ") (map (conjunct_text (calling_view calling.now)) (map formula_of preds.now))) }
    ensures begins { Continues line.old.items line.new.items }
{
    for (at, pred) in preds.iter().enumerate() {
        push_separator(line, b" && ", at)?;
        push_conjunct(line, calling, pred)?;
    }
    Ok(())
}

// Writes the predicates of a place.
#[tactic(auto, using(lq_logic_text::specs::Continued::continuing))]
pub(crate) fn push_predicates(
    line: &mut Vec<u8>,
    calling: &Calling<'_>,
    preds: &[Pred],
) -> Result<(), AllocError>
    requires { IsTold calling.now }
    ensures written { OnOk result (line.new.items ≡ line.old.items
        ++ formulas_text (calling_view calling.now) (map formula_of preds.now)) }
    ensures begins { Continues line.old.items line.new.items }
{
    match preds {
        [pred] => push_pred(line, calling, pred),
        _ => push_conjuncts(line, calling, preds),
    }
}

// Writes what stands behind a type that has predicates at its top.
#[tactic(auto, using(lq_logic_text::specs::Continued::continuing))]
pub(crate) fn push_top(
    line: &mut Vec<u8>,
    calling: &Calling<'_>,
    preds: &[Pred],
) -> Result<(), AllocError>
    requires { IsTold calling.now }
    ensures written { OnOk result (line.new.items ≡ line.old.items
        ++ (codes " | " ++ formulas_text (calling_view calling.now) (map formula_of preds.now) ++ codes "}")) }
    ensures begins { Continues line.old.items line.new.items }
{
    line.extend_from_slice(b" | ")?;
    push_predicates(line, calling, preds)?;
    line.extend_from_slice(b"}")
}
