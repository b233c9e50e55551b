// The leaves of an implication.
ghost use Rattle.std.specs.Prelude.{◌≡◌, ◌<◌, ◌+◌, ◌++◌, ◌∷◌, [], IfOk, OnOk};
ghost use Rattle.lq_logic_predicates.specs.Literals.{opposite};
ghost use Rattle.lq_logic_predicates.specs.PredView.{formula_of, implication_of};
ghost use Rattle.lq_prover_proof_tree.specs.Literals.Leaves.{leaves_of, leaves_in};
ghost use Rattle.lq_prover_proof_tree.specs.Literals.LeafView.{signs_of, leaf_views, waiting_leaves, waiting_size, size_of};

use lq_logic_predicates::{Closed, Pred};
use std::alloc::{AllocError, Global};

/// With which signs a predicate is read.
#[derive(Clone, Copy)]
pub(crate) enum Polarity {
    Positive,
    Negative,
    Both,
}

/// A predicate that is read with these signs.
#[derive(Clone, Copy)]
pub(crate) struct Leaf<'a> {
    pub(crate) polarity: Polarity,
    pub(crate) pred: &'a Pred,
}

fn turned(polarity: Polarity) -> Polarity
    ensures { signs_of result ≡ opposite (signs_of polarity) }
{
    match polarity {
        Polarity::Positive => Polarity::Negative,
        Polarity::Negative => Polarity::Positive,
        Polarity::Both => Polarity::Both,
    }
}

// Lets two predicates wait, the first one last.
fn push_two<'a>(
    polarity: Polarity,
    first: &'a Pred,
    second: &'a Pred,
    waiting: &mut Vec<Leaf<'a>>,
) -> Result<(), AllocError>
    ensures leaves { OnOk result (waiting_leaves waiting.new.items
        ≡ (leaves_of (signs_of polarity) (formula_of first.now)
        ++ leaves_of (signs_of polarity) (formula_of second.now)) ++ waiting_leaves waiting.old.items) }
    ensures size { OnOk result (waiting_size waiting.new.items ≡ waiting_size waiting.old.items
        + (size_of (formula_of first.now) + size_of (formula_of second.now))) }
{
    waiting.push(Leaf {
        polarity,
        pred: second,
    })?;
    waiting.push(Leaf {
        polarity,
        pred: first,
    })?;
    Ok(())
}

// Takes a predicate apart: it is a leaf, or its parts wait, the first one last.
fn take_apart<'a>(
    polarity: Polarity,
    pred: &'a Pred,
    waiting: &mut Vec<Leaf<'a>>,
    leaves: &mut Vec<Leaf<'a>>,
) -> Result<(), AllocError>
    ensures leaves { OnOk result (leaf_views leaves.new.items ++ waiting_leaves waiting.new.items
        ≡ leaf_views leaves.old.items ++ (leaves_of (signs_of polarity) (formula_of pred.now)
        ++ waiting_leaves waiting.old.items)) }
    ensures smaller { OnOk result (waiting_size waiting.new.items
        < waiting_size waiting.old.items + size_of (formula_of pred.now)) }
{
    match pred {
        Pred::True | Pred::False => {}
        Pred::Flag(_) | Pred::Compare(_, _, _) | Pred::Same(_, _) => {
            leaves.push(Leaf { polarity, pred })?;
        }
        Pred::Not(p) => waiting.push(Leaf {
            polarity: turned(polarity),
            pred: p,
        })?,
        Pred::And(p, q) => push_two(polarity, p, q, waiting)?,
        Pred::Or(p, q) => push_two(polarity, p, q, waiting)?,
        Pred::Iff(p, q) => push_two(Polarity::Both, p, q, waiting)?,
    }
    Ok(())
}

// Adds the leaves of a predicate.
fn add_leaves<'a>(
    alloc: Global,
    polarity: Polarity,
    pred: &'a Pred,
    leaves: &mut Vec<Leaf<'a>>,
) -> Result<(), AllocError>
    ensures { OnOk result (leaf_views leaves.new.items ≡ leaf_views leaves.old.items
        ++ leaves_of (signs_of polarity) (formula_of pred.now)) }
{
    let mut waiting = Vec::new(alloc);
    waiting.push(Leaf { polarity, pred })?;
    while let Some(next) = waiting.pop() {
        take_apart(next.polarity, next.pred, &mut waiting, leaves)?;
    }
    Ok(())
}

/// The leaves of an implication in order.
pub(crate) fn leaves_of<'a>(
    alloc: Global,
    implication: &'a Closed,
) -> Result<Vec<Leaf<'a>>, AllocError>
    ensures { IfOk result (λ leaves. leaf_views leaves.items
        ≡ leaves_in (implication_of implication.now)) }
{
    let mut leaves = Vec::new(alloc);
    for pred in implication.hypotheses.as_slice() {
        add_leaves(alloc, Polarity::Positive, pred, &mut leaves)?;
    }
    add_leaves(alloc, Polarity::Negative, &implication.goal, &mut leaves)?;
    Ok(leaves)
}
