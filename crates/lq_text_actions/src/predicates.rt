// Actions on predicates and terms.
ghost use Rattle.std.specs.Prelude.{◌≡◌, ◌∷◌, Some, OnOk, IfOk, Err, IsSome, IfErr};
ghost use Rattle.lq_base_names.specs.declared.place.Place.{Place};
ghost use Rattle.lq_text_tree.specs.PredTree.{pred_tree, use_of, placeholder, negated, not_of};
ghost use Rattle.lq_text_tree.specs.PredView.{pred_view};
ghost use Rattle.lq_text_actions.specs.Making.{join_form};
ghost use Rattle.lq_text_actions.specs.Predicates.{pred_made, pred_literal, pred_negative, pred_of_name, pred_apply, pred_qualified, pred_of_one, pred_of_two, pred_inside};
ghost use Rattle.lq_text_actions.specs.Value.{mark, predicate};
ghost use Rattle.lq_text_actions.specs.Tops.{NoPredicateBehindMark, NoTwoPredicates};
ghost use Rattle.lq_text_actions.specs.Views.{views, lexeme_view};
ghost use Rattle.lq_text_actions.specs.declared.values.MakeError.TheVariants.{Misfit};

use crate::numbers::{below_limit, up_to_limit};
use crate::values::{Lexeme, MakeError, Value, pop_mark, pop_named, pop_predicate, push};
use lq_base_names::{ArithOp, CompareOp, Place};
use lq_text_grammar::PredAction;
use lq_text_tree::{PredExpr, PredNode};
use std::alloc::Global;

/// What stands between two predicates or terms.
#[derive(Clone, Copy)]
pub(crate) enum Join {
    And,
    Or,
    Iff,
    Arith(ArithOp),
    Compare(CompareOp),
}

fn put(
    alloc: Global,
    values: &mut Vec<Value>,
    place: Place,
    node: PredNode,
) -> Result<(), MakeError>
    ensures ok { OnOk result (views values.new.items
        ≡ predicate (pred_view (record { place = place; node = node })) place ∷ views values.old.items) }
    ensures never { result ≡ Err Misfit → ⊥ }
{
    let read = Box::new(alloc, PredExpr { place, node })?;
    push(values, Value::Predicate(read, place))
}

// A predicate behind a kept place, with that place.
fn pop_one(values: &mut Vec<Value>) -> Result<(Box<PredExpr>, Place), MakeError>
    ensures ok { IfOk result (λ e. (q : Place) × (views values.old.items ≡ predicate (pred_view e.0.value) q
        ∷ mark e.1 ∷ views values.new.items)) }
    ensures misfit { IfErr result (λ _. NoPredicateBehindMark (views values.old.items)) }
{
    let (inner, _) = pop_predicate(values)?;
    let place = pop_mark(values)?;
    Ok((inner, place))
}

// Two predicates, with the place of the first.
fn pop_two(values: &mut Vec<Value>) -> Result<(Box<PredExpr>, Box<PredExpr>, Place), MakeError>
    ensures ok { IfOk result (λ e. (q : Place) × (views values.old.items ≡ predicate (pred_view e.1.value) q
        ∷ predicate (pred_view e.0.value) e.2 ∷ views values.new.items)) }
    ensures misfit { IfErr result (λ _. NoTwoPredicates (views values.old.items)) }
{
    let (second, _) = pop_predicate(values)?;
    let (first, place) = pop_predicate(values)?;
    Ok((first, second, place))
}

// A number below the limit of literals.
#[tactic(auto, using(crate::proofs::Shapes::pred_literal_below))]
fn literal(
    alloc: Global,
    value: u128,
    place: Place,
    values: &mut Vec<Value>,
) -> Result<(), MakeError>
    ensures ok { OnOk result (pred_literal value place (views values.old.items)
        ≡ Some (views values.new.items)) }
    ensures fits { IsSome (pred_literal value place (views values.old.items)) → result ≡ Err Misfit → ⊥ }
{
    let value = below_limit(value)?;
    put(alloc, values, place, PredNode::Whole(value))
}

// A number that is at most the limit, behind a minus.
#[tactic(auto, using(crate::proofs::Shapes::pred_negative_shape))]
fn negative(alloc: Global, value: u128, values: &mut Vec<Value>) -> Result<(), MakeError>
    ensures ok { OnOk result (pred_negative value (views values.old.items) ≡ Some (views values.new.items)) }
    ensures fits { IsSome (pred_negative value (views values.old.items)) → result ≡ Err Misfit → ⊥ }
{
    let place = pop_mark(values)?;
    let value = up_to_limit(value)?;
    put(alloc, values, place, PredNode::Whole(value))
}

#[tactic(auto, using(crate::proofs::Shapes::pred_of_name_shape))]
fn variable(alloc: Global, values: &mut Vec<Value>) -> Result<(), MakeError>
    ensures ok { OnOk result (pred_of_name use_of (views values.old.items) ≡ Some (views values.new.items)) }
    ensures fits { IsSome (pred_of_name use_of (views values.old.items)) → result ≡ Err Misfit → ⊥ }
{
    let (name, place) = pop_named(values)?;
    put(alloc, values, place, PredNode::Use(name))
}

#[tactic(auto, using(crate::proofs::Shapes::pred_of_name_shape))]
fn placeholder(alloc: Global, values: &mut Vec<Value>) -> Result<(), MakeError>
    ensures ok { OnOk result (pred_of_name placeholder (views values.old.items)
        ≡ Some (views values.new.items)) }
    ensures fits { IsSome (pred_of_name placeholder (views values.old.items)) → result ≡ Err Misfit → ⊥ }
{
    let (name, place) = pop_named(values)?;
    put(alloc, values, place, PredNode::Placeholder(name))
}

#[tactic(auto, using(crate::proofs::Shapes::pred_apply_shape))]
fn apply(alloc: Global, values: &mut Vec<Value>) -> Result<(), MakeError>
    ensures ok { OnOk result (pred_apply (views values.old.items) ≡ Some (views values.new.items)) }
    ensures fits { IsSome (pred_apply (views values.old.items)) → result ≡ Err Misfit → ⊥ }
{
    let (argument, _) = pop_predicate(values)?;
    let (measure, place) = pop_named(values)?;
    put(alloc, values, place, PredNode::Apply(measure, argument))
}

#[tactic(auto, using(crate::proofs::Shapes::pred_qualified_shape))]
fn qualified(alloc: Global, values: &mut Vec<Value>) -> Result<(), MakeError>
    ensures ok { OnOk result (pred_qualified (views values.old.items) ≡ Some (views values.new.items)) }
    ensures fits { IsSome (pred_qualified (views values.old.items)) → result ≡ Err Misfit → ⊥ }
{
    let (argument, _) = pop_predicate(values)?;
    let (name, _) = pop_named(values)?;
    let (module, place) = pop_named(values)?;
    let node = PredNode::Qualified(module, name, argument);
    put(alloc, values, place, node)
}

#[tactic(auto, using(crate::proofs::Shapes::pred_of_one_shape))]
fn negate(alloc: Global, values: &mut Vec<Value>) -> Result<(), MakeError>
    ensures ok { OnOk result (pred_of_one negated (views values.old.items) ≡ Some (views values.new.items)) }
    ensures fits { IsSome (pred_of_one negated (views values.old.items)) → result ≡ Err Misfit → ⊥ }
{
    let (inner, place) = pop_one(values)?;
    put(alloc, values, place, PredNode::Neg(inner))
}

#[tactic(auto, using(crate::proofs::Shapes::pred_of_one_shape))]
fn deny(alloc: Global, values: &mut Vec<Value>) -> Result<(), MakeError>
    ensures ok { OnOk result (pred_of_one not_of (views values.old.items) ≡ Some (views values.new.items)) }
    ensures fits { IsSome (pred_of_one not_of (views values.old.items)) → result ≡ Err Misfit → ⊥ }
{
    let (inner, place) = pop_one(values)?;
    put(alloc, values, place, PredNode::Not(inner))
}

#[tactic(auto, using(crate::proofs::Shapes::pred_inside_shape))]
fn inside(values: &mut Vec<Value>) -> Result<(), MakeError>
    ensures ok { OnOk result (pred_inside (views values.old.items) ≡ Some (views values.new.items)) }
    ensures fits { IsSome (pred_inside (views values.old.items)) → result ≡ Err Misfit → ⊥ }
{
    let (inner, place) = pop_one(values)?;
    push(values, Value::Predicate(inner, place))
}

fn joined(join: Join, first: Box<PredExpr>, second: Box<PredExpr>) -> PredNode
    ensures { (p : Place) → pred_view (record { place = p; node = result })
        ≡ pred_tree p (join_form join (pred_view first.value) (pred_view second.value)) }
{
    match join {
        Join::And => PredNode::And(first, second),
        Join::Or => PredNode::Or(first, second),
        Join::Iff => PredNode::Iff(first, second),
        Join::Arith(operation) => PredNode::Arith(operation, first, second),
        Join::Compare(operation) => PredNode::Compare(operation, first, second),
    }
}

#[tactic(auto, using(crate::proofs::Shapes::pred_of_two_shape))]
fn put_joined(alloc: Global, join: Join, values: &mut Vec<Value>) -> Result<(), MakeError>
    ensures ok { OnOk result (pred_of_two (join_form join) (views values.old.items)
        ≡ Some (views values.new.items)) }
    ensures fits { IsSome (pred_of_two (join_form join) (views values.old.items)) → result ≡ Err Misfit → ⊥ }
{
    let (first, second, place) = pop_two(values)?;
    put(alloc, values, place, joined(join, first, second))
}

// Does an action on the values on top.
#[tactic(auto, using(crate::proofs::Shapes::by_number_some))]
pub(crate) fn pred(
    alloc: Global,
    action: PredAction,
    token: &Lexeme,
    values: &mut Vec<Value>,
) -> Result<(), MakeError>
    ensures ok { OnOk result (pred_made action (lexeme_view token.now) (views values.old.items)
        ≡ Some (views values.new.items)) }
    ensures fits { IsSome (pred_made action (lexeme_view token.now) (views values.old.items))
        → result ≡ Err Misfit → ⊥ }
{
    match action {
        PredAction::PredLiteral => literal(alloc, token.number()?, token.place, values),
        PredAction::PredNegative => negative(alloc, token.number()?, values),
        PredAction::PredTruth => put(alloc, values, token.place, PredNode::Flag(true)),
        PredAction::PredUntruth => put(alloc, values, token.place, PredNode::Flag(false)),
        PredAction::PredUse => variable(alloc, values),
        PredAction::PredPlaceholder => placeholder(alloc, values),
        PredAction::PredApply => apply(alloc, values),
        PredAction::PredQualified => qualified(alloc, values),
        PredAction::PredNegate => negate(alloc, values),
        PredAction::PredNot => deny(alloc, values),
        PredAction::PredAnd => put_joined(alloc, Join::And, values),
        PredAction::PredOr => put_joined(alloc, Join::Or, values),
        PredAction::IffOf => put_joined(alloc, Join::Iff, values),
        PredAction::PredInside => inside(values),
        PredAction::PredArith(operation) => put_joined(alloc, Join::Arith(operation), values),
        PredAction::PredCompare(operation) => put_joined(alloc, Join::Compare(operation), values),
    }
}
