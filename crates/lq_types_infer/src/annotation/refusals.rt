// The first definition that is weak, and the first type that is too large.
ghost use Rattle.std.specs.Prelude.{◌≡◌, ℕ, ◌<◌, List, [], ◌∷◌, length, map, All, IfOk};
ghost use Rattle.std.specs.Option.{option_map};
ghost use Rattle.lq_types_rules.specs.Visits.Laws.{slot_count};
ghost use Rattle.lq_base_names.specs.declared.name.Binder.{Binder};
ghost use Rattle.lq_types_rules.specs.Equations.Gathered.{VisitIn};
ghost use Rattle.lq_types_rules.specs.Equations.Within.{ItemIn};
ghost use Rattle.lq_text_walk.specs.Scoped.Whole.{scoped_view};
ghost use Rattle.lq_text_tree.specs.Items.{item_form_view};
ghost use Rattle.lq_text_tree.specs.MlType.{MlType};
ghost use Rattle.lq_types_table.specs.Whole.{types_of};
ghost use Rattle.lq_types_rules.specs.Typings.Principal.{counted, is_open, is_weak, first_weak, first_past, placed_at, placed_in};
ghost use Rattle.lq_text_walk.specs.Walk.Pending.{visit_view};
ghost use Rattle.lq_text_walk.specs.Walk.Visits.{visits_of_items};
ghost use Rattle.lq_types_infer.specs.Annotation.Refusing.{place_of, large_view};
ghost use Rattle.lq_types_infer.specs.Annotation.Slots.{slot_types, AreRows};

use crate::annotation::measures::Measures;
use crate::inference::is_value;
use lq_base_names::Place;
use lq_text_tree::{Binder, Item, ItemNode};
use lq_text_walk::scoped::Scoped;
use lq_text_walk::walk::{Visit, Walk};
use lq_types_rules::visits::scoped_visits_are_in;
use lq_types_table::TypeTable;
use std::alloc::{AllocError, Global};

/// A node whose type is too large, by its place, and how many types stand in that, up to 2^64 - 1.
#[derive(Clone, Copy)]
pub(crate) struct Large {
    pub(crate) place: Place,
    pub(crate) size: u64,
}

// Whether a variable stands in the type of a slot.
fn is_open_at(rows: &[u32], with_variables: &[bool], slot: u32) -> bool
    requires slot { slot < length rows.now }
    requires rows { All (λ r. r < length with_variables.now) rows.now }
    ensures { (all : List MlType) → with_variables.now ≡ map is_open all
        → result ≡ is_open (slot_types all rows.now slot) }
{
    with_variables[rows[slot as usize] as usize]
}

// Whether a definition is no value and has a variable in its type.
fn is_weak(
    alloc: Global,
    rows: &[u32],
    with_variables: &[bool],
    item: &ItemNode<Binder>,
) -> Result<bool, AllocError>
    requires item { (nodes : ℕ) × ItemIn nodes (length rows.now) (item_form_view Binder (λ b. b.0) item.now) }
    requires rows { All (λ r. r < length with_variables.now) rows.now }
    ensures { IfOk result (λ w. (all : List MlType) → with_variables.now ≡ map is_open all
        → w ≡ is_weak (slot_types all rows.now) (item_form_view Binder (λ b. b.0) item.now)) }
{
    match item {
        ItemNode::Let(_, bound) => {
            let value = is_value(alloc, bound)?;
            Ok(!value && is_open_at(rows, with_variables, bound.id))
        }
        ItemNode::Type(_) => Ok(false),
        ItemNode::LetRec(_, _) => Ok(false),
    }
}

// The place of a definition's name, or of its `_`.
fn place_of(item: &Item<Binder>) -> Place
    ensures { result ≡ place_of item.now }
{
    match &item.node {
        ItemNode::Let(pattern, _) => pattern.place,
        ItemNode::Type(_) => item.place,
        ItemNode::LetRec(_, _) => item.place,
    }
}

/// The place of the first definition that is no value and whose type has a variable.
pub(crate) fn first_weak(
    alloc: Global,
    program: &Scoped,
    table: &TypeTable,
    rows: &[u32],
    measures: &Measures,
) -> Result<Option<Place>, AllocError>
    requires rows { AreRows (types_of table.now) rows.now (slot_count (scoped_view program.now)) }
    requires measured { measures.now.open.items ≡ map is_open (types_of table.now) }
    ensures { IfOk result (λ p. p ≡ first_weak (slot_types (types_of table.now) rows.now)
        (scoped_view program.now).items) }
{
    scoped_visits_are_in();
    for item in program.items() {
        if is_weak(alloc, rows, &measures.open, &item.node)? {
            return Ok(Some(place_of(item)));
        }
    }
    Ok(None)
}

// The size of the type of a slot, where it is more than 2,000.
fn large_at(rows: &[u32], sizes: &[u64], slot: u32, place: Place) -> Option<Large>
    requires slot { slot < length rows.now }
    requires rows { All (λ r. r < length sizes.now) rows.now }
    ensures { (all : List MlType) → sizes.now ≡ map counted all
        → option_map large_view result ≡ first_past (slot_types all rows.now) ((slot, place) ∷ []) }
{
    let size = sizes[rows[slot as usize] as usize];
    if size > 2000 {
        Some(Large { place, size })
    } else {
        None
    }
}

// The node that is left here, if its type is too large.
fn large_left(rows: &[u32], sizes: &[u64], visit: Visit<'_, Binder>) -> Option<Large>
    requires visit { (nodes : ℕ) × VisitIn nodes (length rows.now) (visit_view Binder (λ b. b.0) visit) }
    requires rows { All (λ r. r < length sizes.now) rows.now }
    ensures { (all : List MlType) → sizes.now ≡ map counted all → option_map large_view result
        ≡ first_past (slot_types all rows.now) (placed_at (visit_view Binder (λ b. b.0) visit.entry)) }
{
    match visit {
        Visit::Leave(node) => large_at(rows, sizes, node.id, node.place),
        Visit::LeaveFunction(function) => large_at(rows, sizes, function.id, function.place),
        _ => None,
    }
}

/// The first node whose type has more than 2,000 types in it.
pub(crate) fn first_large(
    alloc: Global,
    program: &Scoped,
    table: &TypeTable,
    rows: &[u32],
    measures: &Measures,
) -> Result<Option<Large>, AllocError>
    requires rows { AreRows (types_of table.now) rows.now (slot_count (scoped_view program.now)) }
    requires measured { measures.now.sizes.items ≡ map counted (types_of table.now) }
    ensures { IfOk result (λ p. option_map large_view p ≡ first_past (slot_types (types_of table.now) rows.now)
        (placed_in (visits_of_items (scoped_view program.now).items))) }
{
    scoped_visits_are_in();
    let mut walk = Walk::of_items(alloc, program.items())?;
    while let Some(visit) = walk.next()? {
        let large = large_left(rows, &measures.sizes, visit);
        if large.is_some() {
            return Ok(large);
        }
    }
    Ok(None)
}
