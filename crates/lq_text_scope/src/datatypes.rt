// The names of the definitions of datatypes.
ghost use Rattle.std.specs.Prelude.{◌≡◌, ◌++◌, ◌∷◌, [], ℕ, List, false, map, IfOk, OnOk};
ghost use Rattle.lq_text_tree.specs.Items.{constructor_view, definition_view, parameter_view};
ghost use Rattle.lq_text_tree.specs.TypeView.{type_view, types_view};
ghost use Rattle.lq_text_scope.specs.Complaints.{least_with};
ghost use Rattle.lq_text_scope.specs.Datatypes.{of_name, of_variable, of_types, of_constructors, of_datatype, with_constructors, type_arity, misplaced};
ghost use Rattle.lq_text_scope.specs.Growing.{StaysUnder};
ghost use Rattle.lq_text_scope.specs.Spots.{frame_view, spots_in, own_of, parts_in, pending};
ghost use Rattle.lq_text_scope.specs.Views.{binding_view, found_view};

use crate::binders::{Binding, note_again, note_repeated};
use crate::complaint::{Cause, Least};
use crate::scope::Scope;
use lq_base_names::{Name, Place};
use lq_text_tree::{Constructor, TypeDefinition, TypeExpr, TypeExprs, TypeNode, TypeParameter};
use std::alloc::{AllocError, Global};

/// What the types of fields may name: the types, the parameters and the datatype itself.
#[derive(Clone, Copy)]
pub(crate) struct Frame<'a> {
    types: &'a Scope,
    parameters: &'a Scope,
    itself: Name,
}

/// A type that is still to be looked at, and whether it stands left of an arrow or under `array`.
#[derive(Clone, Copy)]
pub(crate) struct Spot<'a> {
    wrongly: bool,
    written: &'a TypeExpr,
}

fn note_wrongly(least: &mut Least, wrongly: bool, place: Place)
    ensures { found_view least.new.found ≡ least_with (found_view least.old.found) (misplaced wrongly place) }
{
    if wrongly {
        least.note(place, Cause::NotPositive);
    }
}

fn note_variable(frame: &Frame<'_>, least: &mut Least, wrongly: bool, place: Place, name: Name)
    ensures { found_view least.new.found ≡ least_with (found_view least.old.found)
        (of_variable (frame_view frame.now) wrongly place name.0) }
{
    if frame.parameters.has(name) {
        note_wrongly(least, wrongly, place);
    } else {
        least.note(place, Cause::Unknown(name));
    }
}

// The name of a type behind so many arguments.
fn note_name(
    frame: &Frame<'_>,
    least: &mut Least,
    wrongly: bool,
    place: Place,
    name: Name,
    found: usize,
)
    ensures { found_view least.new.found ≡ least_with (found_view least.old.found)
        (of_name (frame_view frame.now) wrongly place name.0 found) }
{
    least.note_count(place, frame.types.find(name), Cause::Unknown(name), found);
    note_wrongly(least, wrongly && name == frame.itself, place);
}

// The types of a row before those that are left, the first next.
fn push_types<'a>(
    left: &mut Vec<Spot<'a>>,
    wrongly: bool,
    row: &'a TypeExprs,
) -> Result<(), AllocError>
    ensures { OnOk result (pending left.new.items
        ≡ spots_in wrongly (types_view row.now) ++ pending left.old.items) }
{
    let count = row.len();
    for at in 0..count {
        if let Some(written) = row.get(count - 1 - at) {
            left.push(Spot { wrongly, written })?;
        }
    }
    Ok(())
}

// What there is to say of a type itself.
fn note_itself(frame: &Frame<'_>, least: &mut Least, wrongly: bool, written: &TypeExpr)
    ensures { found_view least.new.found ≡ least_with (found_view least.old.found)
        (own_of (frame_view frame.now) wrongly (type_view written.now)) }
{
    match &written.node {
        TypeNode::Var(name) => note_variable(frame, least, wrongly, written.place, *name),
        TypeNode::Apply(row, name, place) => {
            note_name(frame, least, wrongly, *place, *name, row.len())
        }
        TypeNode::Tuple(_) | TypeNode::Arrow(_, _) => {}
    }
}

// The parts of a type before those that are left.
fn push_parts<'a>(
    left: &mut Vec<Spot<'a>>,
    wrongly: bool,
    written: &'a TypeExpr,
) -> Result<(), AllocError>
    ensures { OnOk result (pending left.new.items
        ≡ parts_in wrongly (type_view written.now) ++ pending left.old.items) }
{
    match &written.node {
        TypeNode::Var(_) => {}
        TypeNode::Apply(row, name, _) => push_types(left, wrongly || *name == Name::ARRAY, row)?,
        TypeNode::Tuple(row) => push_types(left, wrongly, row)?,
        TypeNode::Arrow(taken, given) => {
            left.push(Spot {
                wrongly,
                written: given,
            })?;
            left.push(Spot {
                wrongly: true,
                written: taken,
            })?;
        }
    }
    Ok(())
}

// The types of the fields of a constructor.
fn note_fields(
    alloc: Global,
    frame: &Frame<'_>,
    least: &mut Least,
    fields: &TypeExprs,
) -> Result<(), AllocError>
    ensures { OnOk result (found_view least.new.found ≡ least_with (found_view least.old.found)
        (of_types (frame_view frame.now) false (types_view fields.now))) }
{
    let mut left = Vec::new(alloc);
    push_types(&mut left, false, fields)?;
    while let Some(spot) = left.pop() {
        note_itself(frame, least, spot.wrongly, spot.written);
        push_parts(&mut left, spot.wrongly, spot.written)?;
    }
    Ok(())
}

/// The constructors of a datatype become known, each with the number of its fields.
#[tactic(auto, using(crate::specs::Growing::growing))]
pub fn show_constructors(known: &mut Scope, constructors: &[Constructor]) -> Result<(), AllocError>
    ensures shown { OnOk result (known.new ≡ with_constructors known.old (map constructor_view constructors.now)) }
    ensures stays { StaysUnder known.old known.new }
{
    for constructor in constructors {
        known.show(constructor.name, constructor.fields.len())?;
    }
    Ok(())
}

// The constructors of a datatype.
fn note_constructors(
    alloc: Global,
    frame: &Frame<'_>,
    known: &mut Scope,
    least: &mut Least,
    constructors: &[Constructor],
) -> Result<(), AllocError>
    ensures known { OnOk result (known.new
        ≡ with_constructors known.old (map constructor_view constructors.now)) }
    ensures found { OnOk result (found_view least.new.found ≡ least_with (found_view least.old.found)
        (of_constructors (frame_view frame.now) known.old (map constructor_view constructors.now))) }
{
    for constructor in constructors {
        let binding = Binding {
            name: constructor.name,
            place: constructor.place,
        };
        note_again(known, least, binding);
        note_fields(alloc, frame, least, &constructor.fields)?;
        known.show(constructor.name, constructor.fields.len())?;
    }
    Ok(())
}

// The parameters of a datatype, where they are defined.
fn bindings_of(alloc: Global, parameters: &[TypeParameter]) -> Result<Vec<Binding>, AllocError>
    ensures { IfOk result (λ bindings. map binding_view bindings.items ≡ map parameter_view parameters.now) }
{
    let mut bindings = Vec::new(alloc);
    for parameter in parameters {
        bindings.push(Binding {
            name: parameter.name,
            place: parameter.place,
        })?;
    }
    Ok(bindings)
}

/// What there is to say of a definition of a datatype, whose constructors and type are known behind it.
pub(crate) fn note_datatype(
    alloc: Global,
    definition: &TypeDefinition,
    constructors: &mut Scope,
    types: &mut Scope,
    parameters: &mut Scope,
    least: &mut Least,
) -> Result<(), AllocError>
    requires { parameters.old ≡ [] }
    ensures constructors { OnOk result (constructors.new ≡ with_constructors constructors.old
        (definition_view definition.now).constructors) }
    ensures types { OnOk result (types.new ≡ type_arity (definition_view definition.now) ∷ types.old) }
    ensures parameters { OnOk result (parameters.new ≡ []) }
    ensures found { OnOk result ((variables : List ℕ) → found_view least.new.found
        ≡ least_with (found_view least.old.found) (of_datatype
        (record { variables = variables; constructors = constructors.old; types = types.old })
        (definition_view definition.now))) }
{
    let itself = Binding {
        name: definition.name,
        place: definition.place,
    };
    note_again(types, least, itself);
    let bindings = bindings_of(alloc, &definition.parameters)?;
    note_repeated(parameters, least, &bindings)?;
    types.show(definition.name, definition.parameters.len())?;
    let frame = Frame {
        types,
        parameters,
        itself: definition.name,
    };
    note_constructors(alloc, &frame, constructors, least, &definition.constructors)?;
    parameters.hide(bindings.len());
    Ok(())
}
