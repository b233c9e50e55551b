// Actions on types as they are written.
ghost use Rattle.std.specs.Prelude.{◌≡◌, ◌∷◌, Some, OnOk, Err, IsSome};
ghost use Rattle.lq_text_tree.specs.TypeView.{type_view};
ghost use Rattle.lq_text_actions.specs.Types.{typing_made, two_types, append_type, apply_type, apply_types, product_type, arrow_type, type_inside};
ghost use Rattle.lq_text_actions.specs.Value.{type_read};
ghost use Rattle.lq_text_actions.specs.Views.{views, lexeme_view};
ghost use Rattle.lq_text_actions.specs.declared.values.MakeError.TheVariants.{Misfit};

use crate::values::{Lexeme, MakeError, Value, pop_mark, pop_type, pop_types, push};
use lq_base_names::{Name, Place};
use lq_text_grammar::TypingAction;
use lq_text_tree::{TypeExpr, TypeExprs, TypeNode};
use std::alloc::Global;

// Puts a type that begins at its own place on top.
fn put(values: &mut Vec<Value>, place: Place, node: TypeNode) -> Result<(), MakeError>
    ensures ok { OnOk result (views values.new.items
        ≡ type_read (type_view (record { place = place; node = node })) place ∷ views values.old.items) }
    ensures never { result ≡ Err Misfit → ⊥ }
{
    push(values, Value::Type(TypeExpr { place, node }, place))
}

#[tactic(auto, using(crate::proofs::Shapes::two_types_shape))]
fn two_types(alloc: Global, values: &mut Vec<Value>) -> Result<(), MakeError>
    ensures ok { OnOk result (two_types (views values.old.items) ≡ Some (views values.new.items)) }
    ensures fits { IsSome (two_types (views values.old.items)) → result ≡ Err Misfit → ⊥ }
{
    let (second, _) = pop_type(values)?;
    let (first, place) = pop_type(values)?;
    let mut row = TypeExprs::new(alloc)?;
    row.push(first)?;
    row.push(second)?;
    push(values, Value::Types(row, place))
}

#[tactic(auto, using(crate::proofs::Shapes::append_type_shape))]
fn append_type(values: &mut Vec<Value>) -> Result<(), MakeError>
    ensures ok { OnOk result (append_type (views values.old.items) ≡ Some (views values.new.items)) }
    ensures fits { IsSome (append_type (views values.old.items)) → result ≡ Err Misfit → ⊥ }
{
    let (last, _) = pop_type(values)?;
    let (mut row, place) = pop_types(values)?;
    row.push(last)?;
    push(values, Value::Types(row, place))
}

#[tactic(auto, using(crate::proofs::Shapes::apply_type_shape))]
fn apply_type(
    alloc: Global,
    name: Name,
    name_place: Place,
    values: &mut Vec<Value>,
) -> Result<(), MakeError>
    ensures ok { OnOk result (apply_type name.0 name_place (views values.old.items)
        ≡ Some (views values.new.items)) }
    ensures fits { IsSome (apply_type name.0 name_place (views values.old.items))
        → result ≡ Err Misfit → ⊥ }
{
    let (argument, place) = pop_type(values)?;
    let mut row = TypeExprs::new(alloc)?;
    row.push(argument)?;
    put(values, place, TypeNode::Apply(row, name, name_place))
}

#[tactic(auto, using(crate::proofs::Shapes::apply_types_shape))]
fn apply_types(name: Name, name_place: Place, values: &mut Vec<Value>) -> Result<(), MakeError>
    ensures ok { OnOk result (apply_types name.0 name_place (views values.old.items)
        ≡ Some (views values.new.items)) }
    ensures fits { IsSome (apply_types name.0 name_place (views values.old.items))
        → result ≡ Err Misfit → ⊥ }
{
    let (row, _) = pop_types(values)?;
    let place = pop_mark(values)?;
    put(values, place, TypeNode::Apply(row, name, name_place))
}

#[tactic(auto, using(crate::proofs::Shapes::product_type_shape))]
fn product_type(values: &mut Vec<Value>) -> Result<(), MakeError>
    ensures ok { OnOk result (product_type (views values.old.items) ≡ Some (views values.new.items)) }
    ensures fits { IsSome (product_type (views values.old.items)) → result ≡ Err Misfit → ⊥ }
{
    let (row, place) = pop_types(values)?;
    put(values, place, TypeNode::Tuple(row))
}

#[tactic(auto, using(crate::proofs::Shapes::arrow_type_shape))]
fn arrow_type(alloc: Global, values: &mut Vec<Value>) -> Result<(), MakeError>
    ensures ok { OnOk result (arrow_type (views values.old.items) ≡ Some (views values.new.items)) }
    ensures fits { IsSome (arrow_type (views values.old.items)) → result ≡ Err Misfit → ⊥ }
{
    let (to, _) = pop_type(values)?;
    let (from, place) = pop_type(values)?;
    let from = Box::new(alloc, from)?;
    let to = Box::new(alloc, to)?;
    put(values, place, TypeNode::Arrow(from, to))
}

#[tactic(auto, using(crate::proofs::Shapes::type_inside_shape))]
fn type_inside(values: &mut Vec<Value>) -> Result<(), MakeError>
    ensures ok { OnOk result (type_inside (views values.old.items) ≡ Some (views values.new.items)) }
    ensures fits { IsSome (type_inside (views values.old.items)) → result ≡ Err Misfit → ⊥ }
{
    let (read, _) = pop_type(values)?;
    let place = pop_mark(values)?;
    push(values, Value::Type(read, place))
}

// Does an action on the values on top.
#[tactic(auto, using(crate::proofs::Shapes::by_name_some))]
pub(crate) fn typing(
    alloc: Global,
    action: TypingAction,
    token: &Lexeme,
    values: &mut Vec<Value>,
) -> Result<(), MakeError>
    ensures ok { OnOk result (typing_made action (lexeme_view token.now) (views values.old.items)
        ≡ Some (views values.new.items)) }
    ensures fits { IsSome (typing_made action (lexeme_view token.now) (views values.old.items))
        → result ≡ Err Misfit → ⊥ }
{
    match action {
        TypingAction::NoTypes => {
            let row = TypeExprs::new(alloc)?;
            push(values, Value::Types(row, token.place))
        }
        TypingAction::TwoTypes => two_types(alloc, values),
        TypingAction::AppendType => append_type(values),
        TypingAction::VariableType => put(values, token.place, TypeNode::Var(token.name()?)),
        TypingAction::NamedType => {
            let name = token.name()?;
            let none = TypeExprs::new(alloc)?;
            let node = TypeNode::Apply(none, name, token.place);
            put(values, token.place, node)
        }
        TypingAction::ApplyType => apply_type(alloc, token.name()?, token.place, values),
        TypingAction::ApplyTypes => apply_types(token.name()?, token.place, values),
        TypingAction::ProductType => product_type(values),
        TypingAction::ArrowType => arrow_type(alloc, values),
        TypingAction::TypeInside => type_inside(values),
    }
}
