// What is wrong with a predicate or a term.
ghost use Rattle.std.specs.Prelude.{◌≡◌, ◌∷◌, ◌++◌, ℕ, Some, OnOk};
ghost use Rattle.lq_text_tree.specs.PredView.{pred_view};
ghost use Rattle.lq_text_qualifiers.specs.Faults.Complaints.{least_with};
ghost use Rattle.lq_text_qualifiers.specs.Faults.Lookups.{first_in, or_else};
ghost use Rattle.lq_text_qualifiers.specs.Faults.Predicates.{form_of, is_field, is_length, length_takes, of_applied, of_argument, of_form, of_measure, of_placeholder, of_predicate, of_qualified, of_variable, place_of, spot, taken, used_as, used_in};
ghost use Rattle.lq_text_qualifiers.specs.Faults.Views.{asked_view, found_view, held, measured_view, seen, setting_view, shape_view};
ghost use Rattle.lq_text_qualifiers.specs.Faults.Work.{parts_in, pending};

use crate::faults::complaint::{Cause, Least};
use crate::faults::shape::Shape;
use crate::faults::table::Table;
use lq_base_names::{Name, NameTable, Place};
use lq_text_scope::text_of;
use lq_text_tree::{PredExpr, PredNode};
use std::alloc::{AllocError, Global};

/// A measure: how many are defined before it, and the datatype that it takes.
#[derive(Clone, Copy)]
pub(crate) struct Measured {
    pub(crate) number: usize,
    pub(crate) datatype: Name,
}

/// What is known where a predicate or a term stands.
#[derive(Drop)]
pub(crate) struct Setting<'a> {
    pub(crate) names: &'a NameTable,
    pub(crate) variables: Table<Shape>,
    pub(crate) measures: &'a Table<Measured>,
    /// The number of the measure whose equation it is.
    pub(crate) own: Option<usize>,
}

/// A subtree that is still to be looked at, and the shape that its place asks for, if it does.
#[derive(Clone, Copy)]
pub(crate) struct Spot<'a> {
    asked: Option<Shape>,
    tree: &'a PredExpr,
}

// Whether this is `Array.length`.
fn is_length(names: &NameTable, front: Name, name: Name) -> bool
    ensures { result ≡ is_length names.now front.0 name.0 }
{
    text_of(names, front) == b"Array".as_slice() && text_of(names, name) == b"length".as_slice()
}

// What it asks of its argument; another name asks for nothing.
fn length_takes(names: &NameTable, front: Name, name: Name) -> Option<Shape>
    ensures { asked_view result ≡ length_takes (is_length names.now front.0 name.0) }
{
    if is_length(names, front, name) {
        Some(Shape::Array)
    } else {
        None
    }
}

// What a measure asks of its argument; a name that is none asks for nothing.
fn taken(measures: &Table<Measured>, name: Name) -> Option<Shape>
    ensures { asked_view result ≡ taken (seen measured_view measures.now name.0) }
{
    match measures.get(name) {
        Some(measured) => Some(Shape::Data(measured.datatype)),
        None => None,
    }
}

fn note_variable(setting: &Setting<'_>, least: &mut Least, spot: &Spot<'_>, name: Name)
    ensures { found_view least.new.found ≡ least_with (found_view least.old.found) (of_variable
        (place_of (pred_view spot.now.tree.now)) (asked_view spot.now.asked) name.0
        ((setting_view setting.now).variables name.0)) }
{
    match setting.variables.get(name) {
        Some(given) => least.note_shape(spot.tree.place, spot.asked, given),
        None => least.note(spot.tree.place, Cause::Unknown(name)),
    }
}

// A use of a placeholder, among those before it.
fn add_use(used: &mut Table<Shape>, asked: Option<Shape>, name: Name) -> Result<(), AllocError>
    ensures { OnOk result ((x : ℕ) → seen shape_view used.new x
        ≡ or_else (seen shape_view used.old x) (first_in (used_as name.0 (asked_view asked)) x)) }
{
    if let Some(shape) = asked {
        used.add(name, shape)?;
    }
    Ok(())
}

fn note_placeholder(
    own: Option<usize>,
    used: &Table<Shape>,
    least: &mut Least,
    spot: &Spot<'_>,
    name: Name,
)
    ensures { found_view least.new.found ≡ least_with (found_view least.old.found) (of_placeholder own
        (place_of (pred_view spot.now.tree.now)) (asked_view spot.now.asked) name.0
        (seen shape_view used.now name.0)) }
{
    match own {
        Some(_) => least.note(spot.tree.place, Cause::Unknown(name)),
        None => {
            if let Some(given) = used.get(name) {
                least.note_shape(spot.tree.place, spot.asked, given);
            }
        }
    }
}

// Whether a term is a variable of the equation.
fn is_field(fields: &Table<Shape>, term: &PredExpr) -> bool
    ensures { result ≡ is_field (seen shape_view fields.now) (form_of (pred_view term.now)) }
{
    match &term.node {
        PredNode::Use(name) => fields.has(*name),
        PredNode::Flag(_)
        | PredNode::Whole(_)
        | PredNode::Placeholder(_)
        | PredNode::Apply(_, _)
        | PredNode::Qualified(_, _, _)
        | PredNode::Arith(_, _, _)
        | PredNode::Neg(_)
        | PredNode::Compare(_, _, _)
        | PredNode::Not(_)
        | PredNode::And(_, _)
        | PredNode::Or(_, _)
        | PredNode::Iff(_, _) => false,
    }
}

fn note_argument(fields: &Table<Shape>, least: &mut Least, argument: &PredExpr)
    ensures { found_view least.new.found ≡ least_with (found_view least.old.found)
        (of_argument (seen shape_view fields.now) (pred_view argument.now)) }
{
    if !is_field(fields, argument) {
        least.note(argument.place, Cause::NotStructural);
    }
}

// A measure with its argument.
fn note_applied(
    setting: &Setting<'_>,
    least: &mut Least,
    place: Place,
    argument: &PredExpr,
    measured: Measured,
)
    ensures { found_view least.new.found ≡ least_with (found_view least.old.found) (of_applied
        (setting_view setting.now).own (setting_view setting.now).variables place
        (pred_view argument.now) (measured_view measured)) }
{
    if let Some(own) = setting.own {
        if measured.number > own {
            least.note(place, Cause::NotStructural);
        }
        note_argument(&setting.variables, least, argument);
    }
}

// A name with its argument.
fn note_measure(
    setting: &Setting<'_>,
    least: &mut Least,
    place: Place,
    name: Name,
    argument: &PredExpr,
)
    ensures { found_view least.new.found ≡ least_with (found_view least.old.found) (of_measure
        (setting_view setting.now) place name.0 (pred_view argument.now)
        ((setting_view setting.now).measures name.0)) }
{
    match setting.measures.get(name) {
        Some(measured) => note_applied(setting, least, place, argument, measured),
        None => least.note(place, Cause::Unknown(name)),
    }
}

// A name with a dot.
fn note_qualified(names: &NameTable, least: &mut Least, spot: &Spot<'_>, front: Name, name: Name)
    ensures { found_view least.new.found ≡ least_with (found_view least.old.found) (of_qualified
        (place_of (pred_view spot.now.tree.now)) (asked_view spot.now.asked) front.0 name.0
        (is_length names.now front.0 name.0)) }
{
    if is_length(names, front, name) {
        least.note_shape(spot.tree.place, spot.asked, Shape::Int);
    } else {
        least.note(spot.tree.place, Cause::UnknownIn(front, name));
    }
}

// A subtree itself, behind the uses of placeholders before it.
fn note_spot(
    setting: &Setting<'_>,
    used: &mut Table<Shape>,
    least: &mut Least,
    spot: &Spot<'_>,
) -> Result<(), AllocError>
    ensures used { OnOk result ((x : ℕ) → seen shape_view used.new x ≡ or_else (seen shape_view used.old x)
        (first_in (used_in (asked_view spot.now.asked) (form_of (pred_view spot.now.tree.now))) x)) }
    ensures found { OnOk result (found_view least.new.found ≡ least_with (found_view least.old.found)
        (of_form (setting_view setting.now) (seen shape_view used.new)
        (place_of (pred_view spot.now.tree.now))
        (asked_view spot.now.asked) (form_of (pred_view spot.now.tree.now)))) }
{
    let place = spot.tree.place;
    match &spot.tree.node {
        PredNode::Use(name) => note_variable(setting, least, spot, *name),
        PredNode::Placeholder(name) => {
            add_use(used, spot.asked, *name)?;
            note_placeholder(setting.own, used, least, spot, *name);
        }
        PredNode::Apply(name, argument) => {
            note_measure(setting, least, place, *name, argument);
            least.note_shape(place, spot.asked, Shape::Int);
        }
        PredNode::Qualified(front, name, _) => {
            note_qualified(setting.names, least, spot, *front, *name);
        }
        PredNode::Whole(_) | PredNode::Arith(_, _, _) | PredNode::Neg(_) => {
            least.note_shape(place, spot.asked, Shape::Int);
        }
        PredNode::Flag(_)
        | PredNode::Compare(_, _, _)
        | PredNode::Not(_)
        | PredNode::And(_, _)
        | PredNode::Or(_, _)
        | PredNode::Iff(_, _) => least.note_shape(place, spot.asked, Shape::Bool),
    }
    Ok(())
}

// One subtree before those that are left.
fn push_one<'a>(
    left: &mut Vec<Spot<'a>>,
    asked: Option<Shape>,
    tree: &'a PredExpr,
) -> Result<(), AllocError>
    ensures { OnOk result (pending left.new.items
        ≡ spot (asked_view asked) (pred_view tree.now) ∷ pending left.old.items) }
{
    left.push(Spot { asked, tree })?;
    Ok(())
}

// The parts of a subtree before those that are left.
fn push_parts<'a>(
    setting: &Setting<'_>,
    left: &mut Vec<Spot<'a>>,
    tree: &'a PredExpr,
) -> Result<(), AllocError>
    ensures { OnOk result (pending left.new.items ≡ parts_in (setting_view setting.now)
        (form_of (pred_view tree.now)) ++ pending left.old.items) }
{
    match &tree.node {
        PredNode::Flag(_) | PredNode::Whole(_) | PredNode::Use(_) | PredNode::Placeholder(_) => {}
        PredNode::Apply(name, argument) => {
            push_one(left, taken(setting.measures, *name), argument)?;
        }
        PredNode::Qualified(front, name, argument) => {
            push_one(left, length_takes(setting.names, *front, *name), argument)?;
        }
        PredNode::Arith(_, first, second) | PredNode::Compare(_, first, second) => {
            push_one(left, Some(Shape::Int), second)?;
            push_one(left, Some(Shape::Int), first)?;
        }
        PredNode::Neg(part) => push_one(left, Some(Shape::Int), part)?,
        PredNode::Not(part) => push_one(left, Some(Shape::Bool), part)?,
        PredNode::And(first, second) | PredNode::Or(first, second) | PredNode::Iff(first, second) =>
            {
                push_one(left, Some(Shape::Bool), second)?;
                push_one(left, Some(Shape::Bool), first)?;
            }
    }
    Ok(())
}

/// What there is to say of a predicate or a term whose place asks for this shape. Its subtrees are kept on a list of work, since a row
/// of sums can be as deep as a text is long.
pub(crate) fn note_predicate(
    alloc: Global,
    setting: &Setting<'_>,
    least: &mut Least,
    asked: Shape,
    predicate: &PredExpr,
) -> Result<(), AllocError>
    ensures { OnOk result (found_view least.new.found ≡ least_with (found_view least.old.found)
        (of_predicate (setting_view setting.now) (Some (shape_view asked)) (pred_view predicate.now))) }
{
    let mut used = Table::new(alloc);
    let mut left = Vec::new(alloc);
    push_one(&mut left, Some(asked), predicate)?;
    while let Some(spot) = left.pop() {
        note_spot(setting, &mut used, least, &spot)?;
        push_parts(setting, &mut left, spot.tree)?;
    }
    Ok(())
}
