// Actions on patterns and parameters.
ghost use Rattle.std.specs.Prelude.{◌≡◌, ◌∷◌, Some, OnOk, Err, IsSome};
ghost use Rattle.lq_text_actions.specs.Patterns.{pattern_made, unit_pattern, nil_pattern, cons_pattern, two_patterns, append_pattern, tuple_pattern, tuple_here, build_pattern, pattern_inside};
ghost use Rattle.lq_text_actions.specs.Value.{pattern_read};
ghost use Rattle.lq_text_actions.specs.Views.{views, lexeme_view, parsed_pattern};
ghost use Rattle.lq_text_actions.specs.declared.values.MakeError.TheVariants.{Misfit};

use crate::values::{
    Lexeme, MakeError, Value, pop_mark, pop_named, pop_pattern, pop_patterns, push,
};
use lq_base_names::{Name, Place};
use lq_text_grammar::PatternAction;
use lq_text_tree::{Pat, PatNode, Pats};
use std::alloc::Global;

fn put(values: &mut Vec<Value>, place: Place, node: PatNode<Name>) -> Result<(), MakeError>
    ensures ok { OnOk result (views values.new.items
        ≡ pattern_read (parsed_pattern (record { place = place; node = node })) ∷ views values.old.items) }
    ensures never { result ≡ Err Misfit → ⊥ }
{
    push(values, Value::Pattern(Pat { place, node }))
}

#[tactic(auto, using(crate::proofs::Shapes::unit_pattern_shape))]
fn unit_pattern(values: &mut Vec<Value>) -> Result<(), MakeError>
    ensures ok { OnOk result (unit_pattern (views values.old.items) ≡ Some (views values.new.items)) }
    ensures fits { IsSome (unit_pattern (views values.old.items)) → result ≡ Err Misfit → ⊥ }
{
    let place = pop_mark(values)?;
    put(values, place, PatNode::Unit)
}

#[tactic(auto, using(crate::proofs::Shapes::nil_pattern_shape))]
fn nil_pattern(alloc: Global, values: &mut Vec<Value>) -> Result<(), MakeError>
    ensures ok { OnOk result (nil_pattern (views values.old.items) ≡ Some (views values.new.items)) }
    ensures fits { IsSome (nil_pattern (views values.old.items)) → result ≡ Err Misfit → ⊥ }
{
    let place = pop_mark(values)?;
    let none = Pats::new(alloc)?;
    put(values, place, PatNode::Build(Name::NIL, place, none))
}

#[tactic(auto, using(crate::proofs::Shapes::cons_pattern_shape))]
fn cons_pattern(alloc: Global, values: &mut Vec<Value>) -> Result<(), MakeError>
    ensures ok { OnOk result (cons_pattern (views values.old.items) ≡ Some (views values.new.items)) }
    ensures fits { IsSome (cons_pattern (views values.old.items)) → result ≡ Err Misfit → ⊥ }
{
    let second = pop_pattern(values)?;
    let sign = pop_mark(values)?;
    let first = pop_pattern(values)?;
    let place = first.place;
    let mut row = Pats::new(alloc)?;
    row.push(first)?;
    row.push(second)?;
    put(values, place, PatNode::Build(Name::CONS, sign, row))
}

#[tactic(auto, using(crate::proofs::Shapes::two_patterns_shape))]
fn two_patterns(alloc: Global, values: &mut Vec<Value>) -> Result<(), MakeError>
    ensures ok { OnOk result (two_patterns (views values.old.items) ≡ Some (views values.new.items)) }
    ensures fits { IsSome (two_patterns (views values.old.items)) → result ≡ Err Misfit → ⊥ }
{
    let second = pop_pattern(values)?;
    let first = pop_pattern(values)?;
    let place = first.place;
    let mut row = Pats::new(alloc)?;
    row.push(first)?;
    row.push(second)?;
    push(values, Value::Patterns(row, place))
}

#[tactic(auto, using(crate::proofs::Shapes::append_pattern_shape))]
fn append_pattern(values: &mut Vec<Value>) -> Result<(), MakeError>
    ensures ok { OnOk result (append_pattern (views values.old.items) ≡ Some (views values.new.items)) }
    ensures fits { IsSome (append_pattern (views values.old.items)) → result ≡ Err Misfit → ⊥ }
{
    let last = pop_pattern(values)?;
    let (mut row, place) = pop_patterns(values)?;
    row.push(last)?;
    push(values, Value::Patterns(row, place))
}

#[tactic(auto, using(crate::proofs::Shapes::tuple_pattern_shape))]
fn tuple_pattern(values: &mut Vec<Value>) -> Result<(), MakeError>
    ensures ok { OnOk result (tuple_pattern (views values.old.items) ≡ Some (views values.new.items)) }
    ensures fits { IsSome (tuple_pattern (views values.old.items)) → result ≡ Err Misfit → ⊥ }
{
    let (row, place) = pop_patterns(values)?;
    put(values, place, PatNode::Tuple(row))
}

#[tactic(auto, using(crate::proofs::Shapes::tuple_here_shape))]
fn tuple_here(values: &mut Vec<Value>) -> Result<(), MakeError>
    ensures ok { OnOk result (tuple_here (views values.old.items) ≡ Some (views values.new.items)) }
    ensures fits { IsSome (tuple_here (views values.old.items)) → result ≡ Err Misfit → ⊥ }
{
    let (row, _) = pop_patterns(values)?;
    let place = pop_mark(values)?;
    put(values, place, PatNode::Tuple(row))
}

#[tactic(auto, using(crate::proofs::Shapes::build_pattern_shape))]
fn build_pattern(values: &mut Vec<Value>) -> Result<(), MakeError>
    ensures ok { OnOk result (build_pattern (views values.old.items) ≡ Some (views values.new.items)) }
    ensures fits { IsSome (build_pattern (views values.old.items)) → result ≡ Err Misfit → ⊥ }
{
    let (row, _) = pop_patterns(values)?;
    let (name, place) = pop_named(values)?;
    put(values, place, PatNode::Build(name, place, row))
}

#[tactic(auto, using(crate::proofs::Shapes::pattern_inside_shape))]
fn pattern_inside(values: &mut Vec<Value>) -> Result<(), MakeError>
    ensures ok { OnOk result (pattern_inside (views values.old.items) ≡ Some (views values.new.items)) }
    ensures fits { IsSome (pattern_inside (views values.old.items)) → result ≡ Err Misfit → ⊥ }
{
    let inner = pop_pattern(values)?;
    pop_mark(values)?;
    push(values, Value::Pattern(inner))
}

// Does an action on the values on top.
#[tactic(auto, using(crate::proofs::Shapes::by_name_some))]
pub(crate) fn pattern(
    alloc: Global,
    action: PatternAction,
    token: &Lexeme,
    values: &mut Vec<Value>,
) -> Result<(), MakeError>
    ensures ok { OnOk result (pattern_made action (lexeme_view token.now) (views values.old.items)
        ≡ Some (views values.new.items)) }
    ensures fits { IsSome (pattern_made action (lexeme_view token.now) (views values.old.items))
        → result ≡ Err Misfit → ⊥ }
{
    match action {
        PatternAction::Bind => put(values, token.place, PatNode::Bind(token.name()?)),
        PatternAction::Any => put(values, token.place, PatNode::Any),
        PatternAction::UnitPattern => unit_pattern(values),
        PatternAction::NilPattern => nil_pattern(alloc, values),
        PatternAction::ConsPattern => cons_pattern(alloc, values),
        PatternAction::NoPatterns => {
            let row = Pats::new(alloc)?;
            push(values, Value::Patterns(row, token.place))
        }
        PatternAction::TwoPatterns => two_patterns(alloc, values),
        PatternAction::AppendPattern => append_pattern(values),
        PatternAction::TuplePattern => tuple_pattern(values),
        PatternAction::TupleHere => tuple_here(values),
        PatternAction::BuildPattern => build_pattern(values),
        PatternAction::PatternInside => pattern_inside(values),
    }
}
