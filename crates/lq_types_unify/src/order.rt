// An order of the classes in which the parts of each come before it.
ghost use Rattle.std.specs.Prelude.{◌≡◌, ◌≢◌, ℕ, ◌+◌, ◌*◌, ◌<◌, ◌≤◌, ◌^◌, List, [], ◌∷◌, ◌++◌, length, OnOk, IfOk, IfSome, IfNone, true, false, slice_index};
ghost use Rattle.lq_types_unify.specs.Simple.{Simple};
ghost use Rattle.lq_types_unify.specs.Nodes.{form_at, IsArena};
ghost use Rattle.lq_types_unify.specs.Solution.{Fits};
ghost use Rattle.lq_types_unify.specs.Classes.{up, root, AreShared};
ghost use Rattle.lq_types_unify.specs.Value.{inner, IsRanked};
ghost use Rattle.lq_types_unify.specs.Visits.{IsTable, mark_at, AreDone, IsNextVisit, IsVisit, IsWalk, IsMarked, AreCalm, StaysSeen, fresh};
ghost use Rattle.lq_types_unify.specs.Order.{IsPut, AreOrdered};

use crate::arena::{Arena, Node};
use std::alloc::{AllocError, Global};

#[derive(Clone, Copy)]
pub(crate) enum Mark {
    Fresh,
    Active,
    Done,
}

/// A class whose parts before the next one are done.
#[derive(Clone, Copy)]
pub(crate) struct Visit {
    class: u32,
    next: u32,
}

/// The first part that isn't done: its class, and its place among the parts.
fn scan(
    arena: &Arena,
    parents: &[u32],
    shapes: &[u32],
    marks: &[Mark],
    visit: Visit,
) -> Option<Visit>
    requires arena { IsArena arena.now }
    requires table { IsTable (form_at arena.now) (length arena.now.nodes.items) parents.now shapes.now }
    requires marks { length marks.now ≡ length arena.now.nodes.items }
    requires inside { visit.class < length arena.now.nodes.items }
    requires before { AreDone parents.now marks.now (inner (form_at arena.now) shapes.now visit.class)
        visit.next }
    ensures some { IfSome result (λ found. IsNextVisit (form_at arena.now) (length arena.now.nodes.items)
        parents.now shapes.now marks.now visit found) }
    ensures none { IfNone result (AreDone parents.now marks.now (inner (form_at arena.now) shapes.now
        visit.class) (length (inner (form_at arena.now) shapes.now visit.class))) }
{
    if let Node::Made(_, first, count) = arena.nodes[shapes[visit.class as usize] as usize] {
        for at in visit.next..count {
            let class = parents[arena.parts[first as usize + at as usize] as usize];
            match marks[class as usize] {
                Mark::Done => {}
                _ => return Some(Visit { class, next: at }),
            }
        }
    }
    None
}

/// One class of the walk is done, or a part of it is visited first. False where a class is inside itself.
fn step(
    arena: &Arena,
    parents: &[u32],
    shapes: &[u32],
    marks: &mut [Mark],
    order: &mut Vec<u32>,
    stack: &mut Vec<Visit>,
    visit: Visit,
) -> Result<bool, AllocError>
    requires arena { IsArena arena.now }
    requires table { IsTable (form_at arena.now) (length arena.now.nodes.items) parents.now shapes.now }
    requires walk { IsWalk (form_at arena.now) (length arena.now.nodes.items) parents.now shapes.now
        marks.old (stack.old.items ++ visit ∷ []) }
    requires marked { IsMarked (form_at arena.now) (length arena.now.nodes.items) parents.now shapes.now
        marks.old (length order.old.items) }
    requires put { IsPut (form_at arena.now) (length arena.now.nodes.items) parents.now shapes.now marks.old
        order.old.items }
    ensures walk { IfOk result (λ yes. yes ≡ true → IsWalk (form_at arena.now) (length
        arena.now.nodes.items) parents.now shapes.now marks.new stack.new.items) }
    ensures marked { IfOk result (λ yes. yes ≡ true → IsMarked (form_at arena.now) (length
        arena.now.nodes.items) parents.now shapes.now marks.new (length order.new.items)) }
    ensures put { IfOk result (λ yes. yes ≡ true → IsPut (form_at arena.now) (length
        arena.now.nodes.items) parents.now shapes.now marks.new order.new.items) }
    ensures seen { OnOk result (StaysSeen marks.old marks.new) }
    ensures shorter { IfOk result (λ yes. yes ≡ true → 2 * fresh marks.new + length stack.new.items < 2 *
        fresh marks.old + length stack.old.items + 1) }
    ensures cycle { IfOk result (λ yes. yes ≡ false → (types : ℕ → Simple) → Fits (form_at arena.now) types
        → AreShared parents.now types → ⊥) }
{
    match scan(arena, parents, shapes, marks, visit) {
        None => {
            order.push(visit.class)?;
            marks[visit.class as usize] = Mark::Done;
            Ok(true)
        }
        Some(found) => match marks[found.class as usize] {
            Mark::Fresh => {
                stack.push(Visit {
                    class: visit.class,
                    next: found.next,
                })?;
                stack.push(Visit {
                    class: found.class,
                    next: 0,
                })?;
                marks[found.class as usize] = Mark::Active;
                Ok(true)
            }
            Mark::Active => Ok(false),
            Mark::Done => unreachable!(),
        },
    }
}

/// Walks until nothing is on the way. False where a class is inside itself.
fn walk(
    arena: &Arena,
    parents: &[u32],
    shapes: &[u32],
    marks: &mut [Mark],
    order: &mut Vec<u32>,
    stack: &mut Vec<Visit>,
) -> Result<bool, AllocError>
    requires arena { IsArena arena.now }
    requires table { IsTable (form_at arena.now) (length arena.now.nodes.items) parents.now shapes.now }
    requires walk { IsWalk (form_at arena.now) (length arena.now.nodes.items) parents.now shapes.now
        marks.old stack.old.items }
    requires marked { IsMarked (form_at arena.now) (length arena.now.nodes.items) parents.now shapes.now
        marks.old (length order.old.items) }
    requires put { IsPut (form_at arena.now) (length arena.now.nodes.items) parents.now shapes.now marks.old
        order.old.items }
    ensures empty { IfOk result (λ yes. yes ≡ true → stack.new.items ≡ []) }
    ensures calm { IfOk result (λ yes. yes ≡ true → AreCalm marks.new) }
    ensures marked { IfOk result (λ yes. yes ≡ true → IsMarked (form_at arena.now) (length
        arena.now.nodes.items) parents.now shapes.now marks.new (length order.new.items)) }
    ensures put { IfOk result (λ yes. yes ≡ true → IsPut (form_at arena.now) (length
        arena.now.nodes.items) parents.now shapes.now marks.new order.new.items) }
    ensures seen { OnOk result (StaysSeen marks.old marks.new) }
    ensures cycle { IfOk result (λ yes. yes ≡ false → (types : ℕ → Simple) → Fits (form_at arena.now) types
        → AreShared parents.now types → ⊥) }
{
    'visits: while let Some(visit) = stack.pop() {
        if !step(arena, parents, shapes, marks, order, stack, visit)? {
            return Ok(false);
        }
    }
    Ok(true)
}

/// Walks from one class, if it is a root that wasn't seen yet.
fn start(
    arena: &Arena,
    parents: &[u32],
    shapes: &[u32],
    marks: &mut [Mark],
    order: &mut Vec<u32>,
    stack: &mut Vec<Visit>,
    class: u32,
) -> Result<bool, AllocError>
    requires arena { IsArena arena.now }
    requires table { IsTable (form_at arena.now) (length arena.now.nodes.items) parents.now shapes.now }
    requires inside { class < length arena.now.nodes.items }
    requires calm { AreCalm marks.old }
    requires marked { IsMarked (form_at arena.now) (length arena.now.nodes.items) parents.now shapes.now
        marks.old (length order.old.items) }
    requires put { IsPut (form_at arena.now) (length arena.now.nodes.items) parents.now shapes.now marks.old
        order.old.items }
    requires empty { stack.old.items ≡ [] }
    ensures calm { IfOk result (λ yes. yes ≡ true → AreCalm marks.new) }
    ensures marked { IfOk result (λ yes. yes ≡ true → IsMarked (form_at arena.now) (length
        arena.now.nodes.items) parents.now shapes.now marks.new (length order.new.items)) }
    ensures put { IfOk result (λ yes. yes ≡ true → IsPut (form_at arena.now) (length
        arena.now.nodes.items) parents.now shapes.now marks.new order.new.items) }
    ensures empty { IfOk result (λ yes. yes ≡ true → stack.new.items ≡ []) }
    ensures seen { OnOk result (StaysSeen marks.old marks.new) }
    ensures here { OnOk result (up parents.now class ≡ class → mark_at marks.new class ≢ Mark.Fresh) }
    ensures cycle { IfOk result (λ yes. yes ≡ false → (types : ℕ → Simple) → Fits (form_at arena.now) types
        → AreShared parents.now types → ⊥) }
{
    if parents[class as usize] != class {
        return Ok(true);
    }
    match marks[class as usize] {
        Mark::Fresh => {
            stack.push(Visit { class, next: 0 })?;
            marks[class as usize] = Mark::Active;
            walk(arena, parents, shapes, marks, order, stack)
        }
        _ => Ok(true),
    }
}

/// Walks from each class.
fn walk_all(
    arena: &Arena,
    parents: &[u32],
    shapes: &[u32],
    marks: &mut [Mark],
    order: &mut Vec<u32>,
    stack: &mut Vec<Visit>,
) -> Result<bool, AllocError>
    requires arena { IsArena arena.now }
    requires table { IsTable (form_at arena.now) (length arena.now.nodes.items) parents.now shapes.now }
    requires fresh { (r : ℕ) → mark_at marks.old r ≡ Mark.Fresh }
    requires marks { length marks.old ≡ length arena.now.nodes.items }
    requires none { order.old.items ≡ [] }
    requires empty { stack.old.items ≡ [] }
    ensures ranked { IfOk result (λ yes. yes ≡ true → IsRanked (form_at arena.now) parents.now shapes.now
        (length order.new.items + 1)) }
    ensures ordered { IfOk result (λ yes. yes ≡ true → AreOrdered (form_at arena.now) (length
        arena.now.nodes.items) parents.now shapes.now order.new.items) }
    ensures cycle { IfOk result (λ yes. yes ≡ false → (types : ℕ → Simple) → Fits (form_at arena.now) types
        → AreShared parents.now types → ⊥) }
{
    for class in 0..arena.nodes.len() {
        if !start(arena, parents, shapes, marks, order, stack, class as u32)? {
            return Ok(false);
        }
    }
    Ok(true)
}

/// The classes in an order in which the parts of each come before it. None where a class is inside itself.
pub(crate) fn order(
    alloc: Global,
    arena: &Arena,
    parents: &[u32],
    shapes: &[u32],
) -> Result<Option<Vec<u32>>, AllocError>
    requires arena { IsArena arena.now }
    requires table { IsTable (form_at arena.now) (length arena.now.nodes.items) parents.now shapes.now }
    ensures ranked { IfOk result (λ found. IfSome found (λ order. IsRanked (form_at arena.now) parents.now
        shapes.now (length order.items + 1))) }
    ensures ordered { IfOk result (λ found. IfSome found (λ order. AreOrdered (form_at arena.now)
        (length arena.now.nodes.items) parents.now shapes.now order.items)) }
    ensures cycle { IfOk result (λ found. IfNone found ((types : ℕ → Simple) → Fits (form_at arena.now)
        types → AreShared parents.now types → ⊥)) }
{
    let mut marks = fresh_marks(alloc, arena.nodes.len())?;
    let mut order = Vec::new(alloc);
    let mut stack = Vec::new(alloc);
    if walk_all(arena, parents, shapes, &mut marks, &mut order, &mut stack)? {
        Ok(Some(order))
    } else {
        Ok(None)
    }
}

/// So many fresh marks.
fn fresh_marks(alloc: Global, count: usize) -> Result<Vec<Mark>, AllocError>
    ensures length { IfOk result (λ marks. length marks.items ≡ count) }
    ensures fresh { IfOk result (λ marks. (r : ℕ) → mark_at marks.items r ≡ Mark.Fresh) }
{
    let mut marks = Vec::new(alloc);
    for _ in 0..count {
        marks.push(Mark::Fresh)?;
    }
    Ok(marks)
}
