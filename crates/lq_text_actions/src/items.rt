// Actions on the items of a program.
ghost use Rattle.std.specs.Prelude.{◌≡◌, ◌-◌, ◌∷◌, ℕ, length, map, take, Some, OnOk, IfOk, Err, IsSome, IfErr};
ghost use Rattle.lq_text_tree.specs.Items.{parsed_items, parameter_view, constructor_view};
ghost use Rattle.lq_text_actions.specs.Items.{item_made, parameter_at, add_let, add_rec, add_type, add_parameter, add_constructor};
ghost use Rattle.lq_text_actions.specs.Value.{by_name, some_name, items, parameters, constructors};
ghost use Rattle.lq_text_actions.specs.Tops.{NoConstructors, NoItems, NoParameters};
ghost use Rattle.lq_text_actions.specs.Views.{views, lexeme_view};
ghost use Rattle.lq_text_actions.specs.declared.values.MakeError.TheVariants.{Misfit};

use crate::values::{
    Lexeme, MakeError, Value, pop_expression, pop_mark, pop_named, pop_pattern, pop_recursive,
    pop_types, push,
};
use lq_base_names::Name;
use lq_text_grammar::ItemAction;
use lq_text_tree::{Constructor, Item, ItemNode, TypeDefinition, TypeParameter};
use std::alloc::Global;

/// The items on top.
pub fn pop_items(values: &mut Vec<Value>) -> Result<Vec<Item<Name>>, MakeError>
    ensures ok { IfOk result (λ is. views values.old.items ≡ items (parsed_items is.items)
        ∷ views values.new.items) }
    ensures misfit { IfErr result (λ _. NoItems (views values.old.items)) }
    ensures rest { IfErr result (λ _. values.new.items ≡ take (length values.old.items - 1) values.old.items) }
{
    match values.pop() {
        Some(Value::Items(row)) => Ok(row),
        _ => Err(MakeError::Misfit),
    }
}

fn pop_parameters(values: &mut Vec<Value>) -> Result<Vec<TypeParameter>, MakeError>
    ensures ok { IfOk result (λ ps. views values.old.items ≡ parameters (map parameter_view ps.items)
        ∷ views values.new.items) }
    ensures misfit { IfErr result (λ _. NoParameters (views values.old.items)) }
{
    match values.pop() {
        Some(Value::Parameters(row)) => Ok(row),
        _ => Err(MakeError::Misfit),
    }
}

fn pop_constructors(values: &mut Vec<Value>) -> Result<Vec<Constructor>, MakeError>
    ensures ok { IfOk result (λ cs. views values.old.items ≡ constructors (map constructor_view cs.items)
        ∷ views values.new.items) }
    ensures misfit { IfErr result (λ _. NoConstructors (views values.old.items)) }
{
    match values.pop() {
        Some(Value::Constructors(row)) => Ok(row),
        _ => Err(MakeError::Misfit),
    }
}

#[tactic(auto, using(crate::proofs::Shapes::add_let_shape))]
fn add_let(values: &mut Vec<Value>) -> Result<(), MakeError>
    ensures ok { OnOk result (add_let (views values.old.items) ≡ Some (views values.new.items)) }
    ensures fits { IsSome (add_let (views values.old.items)) → result ≡ Err Misfit → ⊥ }
{
    let bound = pop_expression(values)?;
    let pattern = pop_pattern(values)?;
    let place = pop_mark(values)?;
    let mut row = pop_items(values)?;
    let node = ItemNode::Let(pattern, Box::into_inner(bound.tree));
    row.push(Item { place, node })?;
    push(values, Value::Items(row))
}

#[tactic(auto, using(crate::proofs::Shapes::add_rec_shape))]
fn add_rec(values: &mut Vec<Value>) -> Result<(), MakeError>
    ensures ok { OnOk result (add_rec (views values.old.items) ≡ Some (views values.new.items)) }
    ensures fits { IsSome (add_rec (views values.old.items)) → result ≡ Err Misfit → ⊥ }
{
    let (name, function) = pop_recursive(values)?;
    let place = pop_mark(values)?;
    let mut row = pop_items(values)?;
    let node = ItemNode::LetRec(name, function);
    row.push(Item { place, node })?;
    push(values, Value::Items(row))
}

#[tactic(auto, using(crate::proofs::Shapes::add_type_shape))]
fn add_type(values: &mut Vec<Value>) -> Result<(), MakeError>
    ensures ok { OnOk result (add_type (views values.old.items) ≡ Some (views values.new.items)) }
    ensures fits { IsSome (add_type (views values.old.items)) → result ≡ Err Misfit → ⊥ }
{
    let constructors = pop_constructors(values)?;
    let (name, name_place) = pop_named(values)?;
    let parameters = pop_parameters(values)?;
    let place = pop_mark(values)?;
    let mut row = pop_items(values)?;
    let node = ItemNode::Type(TypeDefinition {
        name,
        place: name_place,
        parameters,
        constructors,
    });
    row.push(Item { place, node })?;
    push(values, Value::Items(row))
}

#[tactic(auto, using(crate::proofs::Shapes::add_constructor_shape))]
fn add_constructor(values: &mut Vec<Value>) -> Result<(), MakeError>
    ensures ok { OnOk result (add_constructor (views values.old.items) ≡ Some (views values.new.items)) }
    ensures fits { IsSome (add_constructor (views values.old.items)) → result ≡ Err Misfit → ⊥ }
{
    let (fields, _) = pop_types(values)?;
    let (name, place) = pop_named(values)?;
    let mut row = pop_constructors(values)?;
    row.push(Constructor {
        name,
        place,
        fields,
    })?;
    push(values, Value::Constructors(row))
}

// The parameter that the token is.
fn parameter_at(token: &Lexeme) -> Result<TypeParameter, MakeError>
    ensures ok { IfOk result (λ p. by_name (lexeme_view token.now).content
        (λ x. Some (parameter_at token.now.place x)) ≡ Some (parameter_view p)) }
    ensures misfit { IfErr result (λ _. (x : ℕ) → (lexeme_view token.now).content ≡ some_name x → ⊥) }
{
    let name = token.name()?;
    Ok(TypeParameter {
        name,
        place: token.place,
    })
}

#[tactic(auto, using(crate::proofs::Shapes::add_parameter_shape))]
fn add_parameter(parameter: TypeParameter, values: &mut Vec<Value>) -> Result<(), MakeError>
    ensures ok { OnOk result (add_parameter (parameter_view parameter) (views values.old.items)
        ≡ Some (views values.new.items)) }
    ensures fits { IsSome (add_parameter (parameter_view parameter) (views values.old.items))
        → result ≡ Err Misfit → ⊥ }
{
    let mut row = pop_parameters(values)?;
    row.push(parameter)?;
    push(values, Value::Parameters(row))
}

// Does an action on the values on top.
#[tactic(auto, using(crate::proofs::Shapes::by_name_some))]
pub(crate) fn item(
    alloc: Global,
    action: ItemAction,
    token: &Lexeme,
    values: &mut Vec<Value>,
) -> Result<(), MakeError>
    ensures ok { OnOk result (item_made action (lexeme_view token.now) (views values.old.items)
        ≡ Some (views values.new.items)) }
    ensures fits { IsSome (item_made action (lexeme_view token.now) (views values.old.items))
        → result ≡ Err Misfit → ⊥ }
{
    match action {
        ItemAction::NoItems => push(values, Value::Items(Vec::new(alloc))),
        ItemAction::AddLet => add_let(values),
        ItemAction::AddRec => add_rec(values),
        ItemAction::AddType => add_type(values),
        ItemAction::NoParameters => push(values, Value::Parameters(Vec::new(alloc))),
        ItemAction::FirstParameter => {
            let parameter = parameter_at(token)?;
            let mut row = Vec::new(alloc);
            row.push(parameter)?;
            push(values, Value::Parameters(row))
        }
        ItemAction::AddParameter => add_parameter(parameter_at(token)?, values),
        ItemAction::NoConstructors => push(values, Value::Constructors(Vec::new(alloc))),
        ItemAction::AddConstructor => add_constructor(values),
    }
}
