// How predicates are written.
ghost use Rattle.std.specs.Prelude.{◌≡◌, ◌++◌, codes, OnOk};
ghost use Rattle.lq_logic_predicates.specs.PredView.{formula_of};
ghost use Rattle.lq_logic_text.specs.Continued.{Continues};
ghost use Rattle.lq_logic_text.specs.Predicates.{compare_text, formula_level, formula_text};
ghost use Rattle.lq_logic_text.specs.Terms.{placed};
ghost use Rattle.lq_logic_text.specs.Views.{calling_view, IsTold};

use crate::calling::{Calling, push_symbol};
use crate::terms::push_at;
use lq_base_names::CompareOp;
use lq_logic_predicates::Pred;
use std::alloc::AllocError;

fn sign_of(op: CompareOp) -> &'static [u8]
    ensures { result.now ≡ compare_text op }
{
    match op {
        CompareOp::Eq => b" = ",
        CompareOp::Ne => b" <> ",
        CompareOp::Lt => b" < ",
        CompareOp::Le => b" <= ",
        CompareOp::Gt => b" > ",
        CompareOp::Ge => b" >= ",
    }
}

// How tightly a predicate's form binds.
fn level_of(pred: &Pred) -> u8
    ensures { result ≡ formula_level (formula_of pred.now) }
{
    match pred {
        Pred::Iff(_, _) => 0,
        Pred::Or(_, _) => 1,
        Pred::And(_, _) => 2,
        Pred::Not(_) => 3,
        Pred::Compare(_, _, _) | Pred::Same(_, _) => 4,
        Pred::True | Pred::False | Pred::Flag(_) => 8,
    }
}

// A predicate at a place that asks for a level.
#[cycle(predicates)]
#[tactic(auto, using(crate::specs::Continued::continuing))]
fn push_placed(
    line: &mut Vec<u8>,
    calling: &Calling<'_>,
    asked: u8,
    pred: &Pred,
) -> Result<(), AllocError>
    requires { IsTold calling.now }
    ensures written { OnOk result (line.new.items ≡ line.old.items ++ placed asked (formula_level (formula_of pred.now))
        (formula_text (calling_view calling.now) (formula_of pred.now))) }
    ensures begins { Continues line.old.items line.new.items }
{
    if level_of(pred) < asked {
        line.extend_from_slice(b"(")?;
        push_pred(line, calling, pred)?;
        line.extend_from_slice(b")")
    } else {
        push_pred(line, calling, pred)
    }
}

/// Writes a predicate behind the bytes: a blank on each side of an operator, and parentheses where an operator binds less tightly than its
/// place asks for.
#[cycle(predicates)]
#[tactic(auto, using(crate::specs::Continued::continuing))]
pub fn push_pred(line: &mut Vec<u8>, calling: &Calling<'_>, pred: &Pred) -> Result<(), AllocError>
    requires { IsTold calling.now }
    ensures written { OnOk result (line.new.items ≡ line.old.items
        ++ formula_text (calling_view calling.now) (formula_of pred.now)) }
    ensures begins { Continues line.old.items line.new.items }
{
    match pred {
        Pred::True => line.extend_from_slice(b"true"),
        Pred::False => line.extend_from_slice(b"false"),
        Pred::Flag(symbol) => push_symbol(line, calling, *symbol),
        Pred::Compare(op, a, b) => {
            push_at(line, calling, 5, a)?;
            line.extend_from_slice(sign_of(*op))?;
            push_at(line, calling, 5, b)
        }
        Pred::Same(a, b) => {
            push_at(line, calling, 5, a)?;
            line.extend_from_slice(b" = ")?;
            push_at(line, calling, 5, b)
        }
        Pred::Not(p) => {
            line.extend_from_slice(b"not ")?;
            push_placed(line, calling, 3, p)
        }
        Pred::And(p, q) => {
            push_placed(line, calling, 2, p)?;
            line.extend_from_slice(b" && ")?;
            push_placed(line, calling, 2, q)
        }
        Pred::Or(p, q) => {
            push_placed(line, calling, 1, p)?;
            line.extend_from_slice(b" || ")?;
            push_placed(line, calling, 1, q)
        }
        Pred::Iff(p, q) => {
            push_placed(line, calling, 1, p)?;
            line.extend_from_slice(b" <=> ")?;
            push_placed(line, calling, 1, q)
        }
    }
}
