// The placeholders of predicates.
ghost use Rattle.std.specs.Prelude.{◌≡◌, ◌∷◌, ◌++◌, ℕ, List, [], false, map, IfOk, OnOk};
ghost use Rattle.lq_text_tree.specs.PredView.{pred_view};
ghost use Rattle.lq_text_qualifiers.specs.Faults.Lookups.{first_in};
ghost use Rattle.lq_text_qualifiers.specs.Faults.Predicates.{form_of, is_length, length_takes, spot, spots, taken, used_in, uses};
ghost use Rattle.lq_text_qualifiers.specs.Faults.Shapes.{bool, Shape as Plain};
ghost use Rattle.lq_text_qualifiers.specs.Faults.Work.{parts_in};
ghost use Rattle.lq_text_qualifiers.specs.Sorting.Making.{asking};
ghost use Rattle.lq_text_qualifiers.specs.Sorting.Placeholders.{firsts, numbered, placeholders_in, shapes_of};
ghost use Rattle.lq_text_qualifiers.specs.Sorting.Views.{asked_view, held, measured_view, names_in, seen, shape_view};
ghost use Rattle.lq_text_qualifiers.specs.Sorting.Walking.{AreNumbered, found_uses, pending, use_view};

use crate::sorting::setting::Measured;
use crate::sorting::shape::Shape;
use crate::sorting::table::Table;
use lq_base_names::{Name, NameTable};
use lq_text_scope::text_of;
use lq_text_tree::{PredExpr, PredNode};
use std::alloc::{AllocError, Global};

/// A placeholder with the shape that its first use asks for.
#[derive(Clone, Copy)]
pub(crate) struct UsedAs {
    name: Name,
    shape: Shape,
}

/// The placeholders that were found, in their order, and the number of each.
#[derive(Drop)]
pub(crate) struct Found {
    uses: Vec<UsedAs>,
    numbers: Table<usize>,
}

/// A subtree that is still to be looked at, and the shape that its place asks for, if it does.
#[derive(Clone, Copy)]
pub(crate) struct Spot<'a> {
    asked: Option<Shape>,
    tree: &'a PredExpr,
}

impl Found {
    fn new(alloc: Global) -> Found
        ensures uses { found_uses result ≡ [] }
        ensures numbered { AreNumbered result }
        ensures none { (x : ℕ) → names_in result.numbers x ≡ false }
    {
        Found {
            uses: Vec::new(alloc),
            numbers: Table::new(alloc),
        }
    }

    // One use more, unless its placeholder is there.
    fn add(&mut self, name: Name, shape: Shape) -> Result<(), AllocError>
        requires { AreNumbered self.now }
        ensures uses { OnOk result ((us : List (ℕ × Plain)) →
            found_uses self.new ++ firsts (names_in self.new.numbers) us
            ≡ found_uses self.old ++ firsts (names_in self.old.numbers) ((name.0, shape_view shape) ∷ us)) }
        ensures numbered { OnOk result (AreNumbered self.new) }
    {
        if !self.numbers.has(name) {
            let number = self.uses.len();
            self.uses.push(UsedAs { name, shape })?;
            self.numbers.add(name, number)?;
        }
        Ok(())
    }

    /// The shapes of the placeholders, and the number of each.
    pub(crate) fn into_parts(self, alloc: Global) -> Result<(Vec<Shape>, Table<usize>), AllocError>
        requires { AreNumbered self }
        ensures { IfOk result (λ r. (map shape_view r.0.items ≡ shapes_of (found_uses self))
            × ((x : ℕ) → held r.1 x ≡ first_in (numbered 0 (found_uses self)) x)) }
    {
        let Found { uses, numbers } = self;
        let shapes = shapes_of(alloc, &uses)?;
        Ok((shapes, numbers))
    }
}

fn shapes_of(alloc: Global, uses: &[UsedAs]) -> Result<Vec<Shape>, AllocError>
    ensures { IfOk result (λ ss. map shape_view ss.items ≡ shapes_of (map use_view uses.now)) }
{
    let mut shapes = Vec::new(alloc);
    for found in uses {
        shapes.push(found.shape)?;
    }
    Ok(shapes)
}

// What a name with a dot asks of its argument; another one than `Array.length` asks for nothing.
fn length_takes(names: &NameTable, front: Name, name: Name) -> Option<Shape>
    ensures { asked_view result ≡ length_takes (is_length names.now front.0 name.0) }
{
    if text_of(names, front) == b"Array".as_slice()
        && text_of(names, name) == b"length".as_slice()
    {
        Some(Shape::Array)
    } else {
        None
    }
}

// What a measure asks of its argument; a name that is none asks for nothing.
fn taken(measures: &Table<Measured>, name: Name) -> Option<Shape>
    ensures { asked_view result ≡ taken (seen measured_view measures.now name.0) }
{
    match measures.get(name) {
        Some(measured) => Some(Shape::Data(measured.datatype)),
        None => None,
    }
}

// One subtree before those that are left.
fn push_one<'a>(
    left: &mut Vec<Spot<'a>>,
    asked: Option<Shape>,
    tree: &'a PredExpr,
) -> Result<(), AllocError>
    ensures { OnOk result (pending left.new.items
        ≡ spot (asked_view asked) (pred_view tree.now) ∷ pending left.old.items) }
{
    left.push(Spot { asked, tree })?;
    Ok(())
}

// The parts of a subtree before those that are left.
fn push_parts<'a>(
    names: &NameTable,
    measures: &Table<Measured>,
    left: &mut Vec<Spot<'a>>,
    tree: &'a PredExpr,
) -> Result<(), AllocError>
    ensures { OnOk result ((v : ℕ) → (a : Plain) → pending left.new.items
        ≡ parts_in (asking names.now (seen measured_view measures.now) v a) (form_of (pred_view tree.now))
        ++ pending left.old.items) }
{
    match &tree.node {
        PredNode::Flag(_) | PredNode::Whole(_) | PredNode::Use(_) | PredNode::Placeholder(_) => {}
        PredNode::Apply(name, argument) => push_one(left, taken(measures, *name), argument)?,
        PredNode::Qualified(front, name, argument) => {
            push_one(left, length_takes(names, *front, *name), argument)?;
        }
        PredNode::Arith(_, first, second) | PredNode::Compare(_, first, second) => {
            push_one(left, Some(Shape::Int), second)?;
            push_one(left, Some(Shape::Int), first)?;
        }
        PredNode::Neg(part) => push_one(left, Some(Shape::Int), part)?,
        PredNode::Not(part) => push_one(left, Some(Shape::Bool), part)?,
        PredNode::And(first, second) | PredNode::Or(first, second) | PredNode::Iff(first, second) =>
            {
                push_one(left, Some(Shape::Bool), second)?;
                push_one(left, Some(Shape::Bool), first)?;
            }
    }
    Ok(())
}

// A subtree, behind those before it.
fn note_use(found: &mut Found, spot: &Spot<'_>) -> Result<(), AllocError>
    requires { AreNumbered found.now }
    ensures uses { OnOk result ((us : List (ℕ × Plain)) →
        found_uses found.new ++ firsts (names_in found.new.numbers) us
        ≡ found_uses found.old ++ firsts (names_in found.old.numbers)
        (used_in (asked_view spot.now.asked) (form_of (pred_view spot.now.tree.now)) ++ us)) }
    ensures numbered { OnOk result (AreNumbered found.new) }
{
    match &spot.tree.node {
        PredNode::Placeholder(name) => {
            if let Some(shape) = spot.asked {
                found.add(*name, shape)?;
            }
        }
        PredNode::Flag(_)
        | PredNode::Whole(_)
        | PredNode::Use(_)
        | PredNode::Apply(_, _)
        | PredNode::Qualified(_, _, _)
        | PredNode::Arith(_, _, _)
        | PredNode::Neg(_)
        | PredNode::Compare(_, _, _)
        | PredNode::Not(_)
        | PredNode::And(_, _)
        | PredNode::Or(_, _)
        | PredNode::Iff(_, _) => {}
    }
    Ok(())
}

/// The placeholders of a qualifier's predicate. Its subtrees are kept on a list of work, since a row of sums can be as deep as a text is
/// long.
pub(crate) fn placeholders_in(
    alloc: Global,
    names: &NameTable,
    measures: &Table<Measured>,
    predicate: &PredExpr,
) -> Result<Found, AllocError>
    ensures uses { IfOk result (λ found. (v : ℕ) → (a : Plain) → found_uses found ≡ placeholders_in
        (asking names.now (seen measured_view measures.now) v a) (pred_view predicate.now)) }
    ensures numbered { IfOk result (λ found. AreNumbered found) }
{
    let mut found = Found::new(alloc);
    let mut left = Vec::new(alloc);
    push_one(&mut left, Some(Shape::Bool), predicate)?;
    while let Some(spot) = left.pop() {
        note_use(&mut found, &spot)?;
        push_parts(names, measures, &mut left, spot.tree)?;
    }
    Ok(found)
}
