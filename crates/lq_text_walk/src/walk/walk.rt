// Walks over trees and programs.
ghost use Rattle.std.specs.Prelude.{◌≡◌, ◌<◌, [], ◌∷◌, ◌++◌, length, option_copied, Ok, Some, None, IfOk, OnOk, OnErr};
ghost use Rattle.std.specs.Option.{option_map};
ghost use Rattle.lq_text_tree.specs.Items.{items_view, item_form_view};
ghost use Rattle.lq_text_tree.specs.PatternView.{pat_view};
ghost use Rattle.lq_text_tree.specs.TreeView.{tree_view, trees_view, case_view, cases_view, form_view, function_view};
ghost use Rattle.lq_text_walk.specs.Walk.Pending.{visit_view, seen, left};
ghost use Rattle.lq_text_walk.specs.Walk.Shape.{listed, listed_cases, shape_of};
ghost use Rattle.lq_text_walk.specs.Walk.Parts.{under_parts, row_parts, arm_parts, arms_parts, let_parts, let_case, match_parts, function_parts, parts_of, item_parts, inside, with_behind};
ghost use Rattle.lq_text_walk.specs.Walk.Visits.{visits_of_items, is_before};

use crate::walk::shape::{Shape, shape_of};
use lq_base_names::{Ident, Place};
use lq_text_tree::{Arm, Arms, Expr, Exprs, Function, Item, ItemNode, Node, Pat};
use std::alloc::{AllocError, Global};

/// What a walk meets.
#[derive(Clone, Copy)]
pub enum Visit<'a, B> {
    /// An item, before its parts.
    EnterItem(&'a Item<B>),
    /// An item, behind its parts.
    LeaveItem(&'a Item<B>),
    /// A node, before its parts.
    Enter(&'a Expr<B>),
    /// A node, behind its parts.
    Leave(&'a Expr<B>),
    /// The function of a recursive definition, behind its body.
    LeaveFunction(&'a Function<B>),
    /// A pattern, where it stands in the text.
    Declare(&'a Pat<B>),
    /// From here the names of the pattern are visible.
    Show(&'a Pat<B>),
    /// From here they are no longer.
    Hide(&'a Pat<B>),
    /// The name of a recursive definition stands here, and is visible from here.
    ShowName(&'a B),
    /// From here it is no longer.
    HideName(&'a B),
}

/// A walk over trees, in the order of their text, with a list of what is left in place of a stack of calls: so trees may be
/// as deep as memory allows.
#[derive(Drop)]
pub struct Walk<'a, B> {
    // what is left, the next last; a node or an item that is entered stands for all that is inside
    stack: Vec<Visit<'a, B>>,
    // room for the parts of what is entered
    parts: Vec<Visit<'a, B>>,
}

// Whether a place lies before another one of the same text.
fn is_before(place: Place, other: Place) -> bool
    ensures { result ≡ is_before place other }
{
    place.line < other.line || (place.line == other.line && place.column < other.column)
}

// A body in which the names of a pattern are visible.
fn push_under<'a, B: Ident>(
    parts: &mut Vec<Visit<'a, B>>,
    pattern: &'a Pat<B>,
    body: &'a Expr<B>,
) -> Result<(), AllocError>
    ensures { OnOk result (seen B B.number parts.new.items ≡ seen B B.number parts.old.items
        ++ under_parts (pat_view B B.number pattern.now) (tree_view B B.number body.now)) }
{
    parts.push(Visit::Show(pattern))?;
    parts.push(Visit::Enter(body))?;
    parts.push(Visit::Hide(pattern))?;
    Ok(())
}

fn push_row<'a, B: Ident>(
    parts: &mut Vec<Visit<'a, B>>,
    exprs: &'a Exprs<B>,
) -> Result<(), AllocError>
    ensures { OnOk result (seen B B.number parts.new.items ≡ seen B B.number parts.old.items
        ++ row_parts (listed (trees_view B B.number exprs.now))) }
{
    for at in 0..exprs.len() {
        if let Some(part) = exprs.get(at) {
            parts.push(Visit::Enter(part))?;
        }
    }
    Ok(())
}

// The arm of a match.
fn push_arm<'a, B: Ident>(parts: &mut Vec<Visit<'a, B>>, arm: &'a Arm<B>) -> Result<(), AllocError>
    ensures { OnOk result (seen B B.number parts.new.items ≡ seen B B.number parts.old.items
        ++ arm_parts (case_view B B.number arm.now)) }
{
    parts.push(Visit::Declare(&arm.pattern))?;
    push_under(parts, &arm.pattern, &arm.body)
}

fn push_arms<'a, B: Ident>(
    parts: &mut Vec<Visit<'a, B>>,
    arms: &'a Arms<B>,
) -> Result<(), AllocError>
    ensures { OnOk result (seen B B.number parts.new.items ≡ seen B B.number parts.old.items
        ++ arms_parts (listed_cases (cases_view B B.number arms.now))) }
{
    for at in 0..arms.len() {
        if let Some(arm) = arms.get(at) {
            push_arm(parts, arm)?;
        }
    }
    Ok(())
}

// The one arm of a match that was written as a `let`: its pattern stands before what is matched.
fn push_let<'a, B: Ident>(
    parts: &mut Vec<Visit<'a, B>>,
    scrutinee: &'a Expr<B>,
    arm: &'a Arm<B>,
) -> Result<(), AllocError>
    ensures { OnOk result (seen B B.number parts.new.items ≡ seen B B.number parts.old.items
        ++ let_parts (tree_view B B.number scrutinee.now) (case_view B B.number arm.now)) }
{
    parts.push(Visit::Declare(&arm.pattern))?;
    parts.push(Visit::Enter(scrutinee))?;
    push_under(parts, &arm.pattern, &arm.body)
}

// The arm of a match that was written as a `let`.
fn let_arm<'a, B: Ident>(scrutinee: &Expr<B>, arms: &'a Arms<B>) -> Option<&'a Arm<B>>
    ensures { option_map (case_view B B.number) (option_copied result)
        ≡ let_case (tree_view B B.number scrutinee.now) (listed_cases (cases_view B B.number arms.now)) }
{
    if arms.len() != 1 {
        return None;
    }
    match arms.get(0) {
        Some(arm) => {
            if is_before(arm.pattern.place, scrutinee.place) {
                Some(arm)
            } else {
                None
            }
        }
        None => None,
    }
}

fn push_match<'a, B: Ident>(
    parts: &mut Vec<Visit<'a, B>>,
    scrutinee: &'a Expr<B>,
    arms: &'a Arms<B>,
) -> Result<(), AllocError>
    ensures { OnOk result (seen B B.number parts.new.items ≡ seen B B.number parts.old.items
        ++ match_parts (tree_view B B.number scrutinee.now) (listed_cases (cases_view B B.number arms.now))) }
{
    match let_arm(scrutinee, arms) {
        Some(arm) => push_let(parts, scrutinee, arm),
        None => {
            parts.push(Visit::Enter(scrutinee))?;
            push_arms(parts, arms)
        }
    }
}

// The function of a recursive definition, behind its name.
fn push_function<'a, B: Ident>(
    parts: &mut Vec<Visit<'a, B>>,
    function: &'a Function<B>,
) -> Result<(), AllocError>
    ensures { OnOk result (seen B B.number parts.new.items ≡ seen B B.number parts.old.items
        ++ function_parts (function_view B B.number function.now)) }
{
    parts.push(Visit::Declare(&function.parameter))?;
    push_under(parts, &function.parameter, &function.body)?;
    parts.push(Visit::LeaveFunction(function))?;
    Ok(())
}

// The parts of a node.
fn push_parts<'a, B: Ident>(
    parts: &mut Vec<Visit<'a, B>>,
    node: &'a Node<B>,
) -> Result<(), AllocError>
    ensures { OnOk result (seen B B.number parts.new.items ≡ seen B B.number parts.old.items
        ++ parts_of (shape_of (form_view B B.number node.now))) }
{
    match shape_of(node) {
        Shape::Leaf(_) => Ok(()),
        Shape::One(_, a) => {
            parts.push(Visit::Enter(a))?;
            Ok(())
        }
        Shape::Two(_, a, b) => {
            parts.push(Visit::Enter(a))?;
            parts.push(Visit::Enter(b))?;
            Ok(())
        }
        Shape::Three(_, a, b, c) => {
            parts.push(Visit::Enter(a))?;
            parts.push(Visit::Enter(b))?;
            parts.push(Visit::Enter(c))?;
            Ok(())
        }
        Shape::Row(_, exprs) => push_row(parts, exprs),
        Shape::Fun(p, b) => {
            parts.push(Visit::Declare(p))?;
            push_under(parts, p, b)
        }
        Shape::Let(p, e, b) => {
            parts.push(Visit::Declare(p))?;
            parts.push(Visit::Enter(e))?;
            push_under(parts, p, b)
        }
        Shape::LetRec(f, r, b) => {
            parts.push(Visit::ShowName(f))?;
            push_function(parts, r)?;
            parts.push(Visit::Enter(b))?;
            parts.push(Visit::HideName(f))?;
            Ok(())
        }
        Shape::Match(e, arms) => push_match(parts, e, arms),
    }
}

// The parts of an item.
fn push_item<'a, B: Ident>(
    parts: &mut Vec<Visit<'a, B>>,
    item: &'a ItemNode<B>,
) -> Result<(), AllocError>
    ensures { OnOk result (seen B B.number parts.new.items ≡ seen B B.number parts.old.items
        ++ item_parts (item_form_view B B.number item.now)) }
{
    match item {
        ItemNode::Type(_) => Ok(()),
        ItemNode::Let(p, e) => {
            parts.push(Visit::Declare(p))?;
            parts.push(Visit::Enter(e))?;
            parts.push(Visit::Show(p))?;
            Ok(())
        }
        ItemNode::LetRec(f, r) => {
            parts.push(Visit::ShowName(f))?;
            push_function(parts, r)
        }
    }
}

impl<'a, B: Ident> Walk<'a, B> {
    /// A walk over the items of a program.
    pub fn of_items(alloc: Global, items: &'a [Item<B>]) -> Result<Walk<'a, B>, AllocError>
        ensures { IfOk result (λ w. left B B.number w ≡ visits_of_items (items_view B B.number items.now)) }
    {
        let mut stack = Vec::new(alloc);
        for item in items {
            stack.push(Visit::EnterItem(item))?;
        }
        stack.reverse();
        Ok(Walk {
            stack,
            parts: Vec::new(alloc),
        })
    }

    /// What comes next, or none where all has come. Where memory runs out, the walk stands where it stood.
    pub fn next(&mut self) -> Result<Option<Visit<'a, B>>, AllocError>
        ensures next { (v : Visit B) → result ≡ Ok (Some v)
            → left B B.number self.old ≡ visit_view B B.number v ∷ left B B.number self.new }
        ensures over { result ≡ Ok None → left B B.number self.old ≡ [] }
        ensures err { OnErr result (left B B.number self.new ≡ left B B.number self.old) }
    {
        let height = self.stack.len();
        if height == 0 {
            return Ok(None);
        }
        let visit = self.stack[height - 1];
        self.parts.clear();
        push_inside(&mut self.parts, visit)?;
        self.parts.reverse();
        self.stack.extend_from_slice(&self.parts)?;
        put_behind(&mut self.stack, height - 1, visit);
        Ok(Some(visit))
    }
}

// What is inside of what is entered.
fn push_inside<'a, B: Ident>(
    parts: &mut Vec<Visit<'a, B>>,
    visit: Visit<'a, B>,
) -> Result<(), AllocError>
    ensures { OnOk result (seen B B.number parts.new.items ≡ seen B B.number parts.old.items
        ++ inside (visit_view B B.number visit.entry)) }
{
    match visit {
        Visit::EnterItem(item) => push_item(parts, &item.node),
        Visit::Enter(node) => push_parts(parts, &node.node),
        _ => Ok(()),
    }
}

// Puts what comes behind the inside of a visit in the visit's place, at this height. A visit without an inside is the last, and goes.
fn put_behind<'a, B: Ident>(stack: &mut Vec<Visit<'a, B>>, at: usize, visit: Visit<'a, B>)
    requires { at < length stack.old.items }
    ensures { seen B B.number stack.new.items ≡ with_behind (visit_view B B.number visit.entry) at
        (seen B B.number stack.old.items) }
{
    match visit {
        Visit::EnterItem(item) => stack[at] = Visit::LeaveItem(item),
        Visit::Enter(node) => stack[at] = Visit::Leave(node),
        _ => stack.truncate(at),
    }
}
