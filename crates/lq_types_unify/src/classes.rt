// Classes of nodes that have one type.
ghost use Rattle.std.specs.Prelude.{◌≡◌, ◌≢◌, ℕ, ◌+◌, ◌<◌, ◌≤◌, ◌^◌, length, OnOk, IfOk, IsSome, true, false, slice_index, take};
ghost use Rattle.lq_types_unify.specs.Simple.{Simple};
ghost use Rattle.lq_types_unify.specs.Nodes.{form_at, IsArena};
ghost use Rattle.lq_types_unify.specs.Solution.{Fits};
ghost use Rattle.lq_types_unify.specs.Classes.{up, root, IsDown, IsSame, IsFound, rooted, AreFollowed, IsState, Grows, AreShared};

use crate::arena::{Arena, Equation, Node, is_same};
use std::alloc::AllocError;

/// The root of a node's class. The way there gets shorter.
pub(crate) fn find(parents: &mut [u32], node: u32) -> u32
    requires down { IsDown parents.old }
    requires inside { node < length parents.old }
    ensures value { result ≡ root parents.old node }
    ensures classes { IsSame parents.old parents.new }
{
    let mut at = node as usize;
    'climb: while parents[at] as usize != at {
        let over = parents[parents[at] as usize];
        parents[at] = over;
        at = over as usize;
    }
    at as u32
}

/// Makes one class of two, of which the first has the lower root.
fn link(
    arena: &Arena,
    parents: &mut [u32],
    shapes: &mut [u32],
    found: &mut Vec<Equation>,
    low: u32,
    high: u32,
) -> Result<(), AllocError>
    requires arena { IsArena arena.now }
    requires state { IsState (form_at arena.now) (length arena.now.nodes.items) parents.old shapes.old
        found.old.items }
    requires order { low < high }
    requires inside { high < length arena.now.nodes.items }
    requires low_root { up parents.old low ≡ low }
    requires high_root { up parents.old high ≡ high }
    ensures state { IsState (form_at arena.now) (length arena.now.nodes.items) parents.new shapes.new
        found.new.items }
    ensures grows { Grows parents.old parents.new found.old.items found.new.items }
    ensures same { OnOk result (root parents.new low ≡ root parents.new high) }
    ensures shared { (types : ℕ → Simple) → AreShared parents.old types → types low ≡ types
        high → AreShared parents.new types }
{
    let kept = shapes[low as usize];
    let lost = shapes[high as usize];
    if is_made(arena, lost) {
        if is_made(arena, kept) {
            found.push(Equation {
                left: kept,
                right: lost,
            })?;
        } else {
            shapes[low as usize] = lost;
        }
    }
    parents[high as usize] = low;
    Ok(())
}

/// Whether a node has a form.
pub(crate) fn is_made(arena: &Arena, node: u32) -> bool
    requires { node < length arena.now.nodes.items }
    ensures yes { result ≡ true → IsSome (form_at arena.now node) }
    ensures no { result ≡ false → ¬ (IsSome (form_at arena.now node)) }
{
    match arena.nodes[node as usize] {
        Node::Open => false,
        Node::Made(_, _, _) => true,
    }
}

/// Makes one class of the classes of two nodes.
pub(crate) fn join(
    arena: &Arena,
    parents: &mut [u32],
    shapes: &mut [u32],
    found: &mut Vec<Equation>,
    left: u32,
    right: u32,
) -> Result<(), AllocError>
    requires arena { IsArena arena.now }
    requires state { IsState (form_at arena.now) (length arena.now.nodes.items) parents.old shapes.old
        found.old.items }
    requires left_in { left < length arena.now.nodes.items }
    requires right_in { right < length arena.now.nodes.items }
    ensures state { IsState (form_at arena.now) (length arena.now.nodes.items) parents.new shapes.new
        found.new.items }
    ensures grows { Grows parents.old parents.new found.old.items found.new.items }
    ensures same { OnOk result (root parents.new left ≡ root parents.new right) }
    ensures shared { (types : ℕ → Simple) → AreShared parents.old types → types left ≡ types
        right → AreShared parents.new types }
{
    let one = find(parents, left);
    let other = find(parents, right);
    if one < other {
        return link(arena, parents, shapes, found, one, other);
    }
    if other < one {
        return link(arena, parents, shapes, found, other, one);
    }
    Ok(())
}

/// Makes one class of the classes of two parts, for each two parts of two rows.
fn join_rows(
    arena: &Arena,
    parents: &mut [u32],
    shapes: &mut [u32],
    found: &mut Vec<Equation>,
    first: u32,
    start: u32,
    count: u32,
) -> Result<(), AllocError>
    requires arena { IsArena arena.now }
    requires state { IsState (form_at arena.now) (length arena.now.nodes.items) parents.old shapes.old
        found.old.items }
    requires first_in { first + count ≤ length arena.now.parts.items }
    requires start_in { start + count ≤ length arena.now.parts.items }
    ensures state { IsState (form_at arena.now) (length arena.now.nodes.items) parents.new shapes.new
        found.new.items }
    ensures grows { Grows parents.old parents.new found.old.items found.new.items }
    ensures same { OnOk result ((k : ℕ) → k < count → root parents.new (slice_index arena.now.parts.items
        (first + k)) ≡ root parents.new (slice_index arena.now.parts.items (start + k))) }
    ensures shared { (types : ℕ → Simple) → AreShared parents.old types → ((k : ℕ) → k < count
        → types (slice_index arena.now.parts.items (first + k)) ≡ types (slice_index arena.now.parts.items
        (start + k))) → AreShared parents.new types }
{
    for at in 0..count {
        let left = arena.parts[first as usize + at as usize];
        let right = arena.parts[start as usize + at as usize];
        join(arena, parents, shapes, found, left, right)?;
    }
    Ok(())
}

/// Makes one class of the parts of two nodes with forms. False where their heads differ.
fn join_parts(
    arena: &Arena,
    parents: &mut [u32],
    shapes: &mut [u32],
    found: &mut Vec<Equation>,
    pair: Equation,
) -> Result<bool, AllocError>
    requires arena { IsArena arena.now }
    requires state { IsState (form_at arena.now) (length arena.now.nodes.items) parents.old shapes.old
        found.old.items }
    requires pair { IsFound (form_at arena.now) (length arena.now.nodes.items) parents.old pair }
    ensures state { IsState (form_at arena.now) (length arena.now.nodes.items) parents.new shapes.new
        found.new.items }
    ensures grows { Grows parents.old parents.new found.old.items found.new.items }
    ensures same { IfOk result (λ yes. yes ≡ true → rooted (form_at arena.now) parents.new pair.left ≡
        rooted (form_at arena.now) parents.new pair.right) }
    ensures shared { (types : ℕ → Simple) → Fits (form_at arena.now) types → AreShared
        parents.old types → AreShared parents.new types }
    ensures clash { IfOk result (λ yes. yes ≡ false → (types : ℕ → Simple) → Fits (form_at arena.now) types
        → AreShared parents.old types → ⊥) }
{
    match (
        arena.nodes[pair.left as usize],
        arena.nodes[pair.right as usize],
    ) {
        (Node::Made(head, first, count), Node::Made(other, start, number)) => {
            if !is_same(head, other) || count != number {
                return Ok(false);
            }
            join_rows(arena, parents, shapes, found, first, start, count)?;
            Ok(true)
        }
        _ => unreachable!(),
    }
}

/// Follows the pairs that were found, from the first that wasn't followed yet, until nothing new is found. False where two nodes
/// of different heads are to have one type.
pub(crate) fn settle(
    arena: &Arena,
    parents: &mut [u32],
    shapes: &mut [u32],
    found: &mut Vec<Equation>,
    followed: usize,
) -> Result<bool, AllocError>
    requires arena { IsArena arena.now }
    requires state { IsState (form_at arena.now) (length arena.now.nodes.items) parents.old shapes.old
        found.old.items }
    requires within { followed ≤ length found.old.items }
    requires followed { AreFollowed (form_at arena.now) parents.old (take followed found.old.items) }
    ensures state { IsState (form_at arena.now) (length arena.now.nodes.items) parents.new shapes.new
        found.new.items }
    ensures grows { Grows parents.old parents.new found.old.items found.new.items }
    ensures closed { IfOk result (λ yes. yes ≡ true → AreFollowed (form_at arena.now) parents.new
        found.new.items) }
    ensures shared { (types : ℕ → Simple) → Fits (form_at arena.now) types → AreShared
        parents.old types → AreShared parents.new types }
    ensures clash { IfOk result (λ yes. yes ≡ false → (types : ℕ → Simple) → Fits (form_at arena.now) types
        → AreShared parents.old types → ⊥) }
{
    let mut at = followed;
    'pairs: while at < found.len() {
        let pair = found[at];
        if !join_parts(arena, parents, shapes, found, pair)? {
            return Ok(false);
        }
        at += 1;
    }
    Ok(true)
}
