// The classes that nodes reach.
ghost use Rattle.std.specs.Prelude.{◌≡◌, ℕ, ◌+◌, ◌<◌, ◌≤◌, ◌^◌, [], ◌∷◌, All, length, OnOk, IfOk, true, false};
ghost use Rattle.lq_types_unify.specs.Nodes.{form_at, IsArena};
ghost use Rattle.lq_types_unify.specs.Classes.{up, root, IsDown, IsSame};
ghost use Rattle.lq_types_unify.specs.Value.{parts_of};
ghost use Rattle.lq_types_unify.specs.Reaching.{IsFixed, IsListed, IsMet, Lists, AreAmong, IsReached};

use crate::arena::{Arena, MOST_NODES, Node};
use crate::classes::{find, is_made};
use std::alloc::{AllocError, Global};

/// Whether a class is open and weak.
fn is_fixed(arena: &Arena, shapes: &[u32], weak: &[bool], class: u32) -> bool
    requires inside { class < length shapes.now }
    requires shape { up shapes.now class < length arena.now.nodes.items }
    ensures yes { result ≡ true → IsFixed (form_at arena.now) shapes.now weak.now class }
    ensures no { result ≡ false → IsFixed (form_at arena.now) shapes.now weak.now class → ⊥ }
{
    if class as usize >= weak.len() || !weak[class as usize] {
        return false;
    }
    !is_made(arena, shapes[class as usize])
}

/// Lists the class of a node, unless it is listed or stays itself.
fn meet(
    arena: &Arena,
    parents: &mut [u32],
    shapes: &[u32],
    copies: &mut [u32],
    weak: &[bool],
    classes: &mut Vec<u32>,
    node: u32,
) -> Result<(), AllocError>
    requires down { IsDown parents.old }
    requires parents_length { length parents.old ≡ length arena.now.nodes.items }
    requires shapes_length { length shapes.now ≡ length arena.now.nodes.items }
    requires shapes_inside { (i : ℕ) → i < length arena.now.nodes.items
        → up shapes.now i < length arena.now.nodes.items }
    requires listed { IsListed (form_at arena.now) (length arena.now.nodes.items) parents.old shapes.now
        weak.now copies.old classes.old.items }
    requires inside { node < length arena.now.nodes.items }
    ensures classes { IsSame parents.old parents.new }
    ensures listed { OnOk result (IsListed (form_at arena.now) (length arena.now.nodes.items) parents.new
        shapes.now weak.now copies.new classes.new.items) }
    ensures lists { OnOk result (Lists (form_at arena.now) (length arena.now.nodes.items) shapes.now weak.now
        copies.old copies.new classes.old.items classes.new.items) }
    ensures met { OnOk result (IsMet (form_at arena.now) (length arena.now.nodes.items) shapes.now weak.now
        copies.new (root parents.old node)) }
    ensures among { OnOk result (AreAmong parents.old classes.old.items classes.new.items (node ∷ [])) }
{
    let class = find(parents, node);
    if copies[class as usize] as usize >= arena.nodes.len() {
        return Ok(());
    }
    if is_fixed(arena, shapes, weak, class) {
        return Ok(());
    }
    let next = arena.nodes.len() + classes.len();
    if next >= MOST_NODES {
        return Err(AllocError);
    }
    copies[class as usize] = next as u32;
    classes.push(class)?;
    Ok(())
}

/// Lists the classes of nodes.
fn meet_all(
    arena: &Arena,
    parents: &mut [u32],
    shapes: &[u32],
    copies: &mut [u32],
    weak: &[bool],
    classes: &mut Vec<u32>,
    nodes: &[u32],
) -> Result<(), AllocError>
    requires down { IsDown parents.old }
    requires parents_length { length parents.old ≡ length arena.now.nodes.items }
    requires shapes_length { length shapes.now ≡ length arena.now.nodes.items }
    requires shapes_inside { (i : ℕ) → i < length arena.now.nodes.items
        → up shapes.now i < length arena.now.nodes.items }
    requires listed { IsListed (form_at arena.now) (length arena.now.nodes.items) parents.old shapes.now
        weak.now copies.old classes.old.items }
    requires inside { All (λ i. i < length arena.now.nodes.items) nodes.now }
    ensures classes { IsSame parents.old parents.new }
    ensures listed { OnOk result (IsListed (form_at arena.now) (length arena.now.nodes.items) parents.new
        shapes.now weak.now copies.new classes.new.items) }
    ensures lists { OnOk result (Lists (form_at arena.now) (length arena.now.nodes.items) shapes.now weak.now
        copies.old copies.new classes.old.items classes.new.items) }
    ensures met { OnOk result (All (λ i. IsMet (form_at arena.now) (length arena.now.nodes.items) shapes.now
        weak.now copies.new (root parents.old i)) nodes.now) }
    ensures among { OnOk result (AreAmong parents.old classes.old.items classes.new.items nodes.now) }
{
    for node in nodes {
        meet(arena, parents, shapes, copies, weak, classes, *node)?;
    }
    Ok(())
}

/// Lists the classes of the parts of a node.
fn meet_parts(
    arena: &Arena,
    parents: &mut [u32],
    shapes: &[u32],
    copies: &mut [u32],
    weak: &[bool],
    classes: &mut Vec<u32>,
    node: u32,
) -> Result<(), AllocError>
    requires arena { IsArena arena.now }
    requires down { IsDown parents.old }
    requires parents_length { length parents.old ≡ length arena.now.nodes.items }
    requires shapes_length { length shapes.now ≡ length arena.now.nodes.items }
    requires shapes_inside { (i : ℕ) → i < length arena.now.nodes.items
        → up shapes.now i < length arena.now.nodes.items }
    requires listed { IsListed (form_at arena.now) (length arena.now.nodes.items) parents.old shapes.now
        weak.now copies.old classes.old.items }
    requires inside { node < length arena.now.nodes.items }
    ensures classes { IsSame parents.old parents.new }
    ensures listed { OnOk result (IsListed (form_at arena.now) (length arena.now.nodes.items) parents.new
        shapes.now weak.now copies.new classes.new.items) }
    ensures lists { OnOk result (Lists (form_at arena.now) (length arena.now.nodes.items) shapes.now weak.now
        copies.old copies.new classes.old.items classes.new.items) }
    ensures met { OnOk result (All (λ p. IsMet (form_at arena.now) (length arena.now.nodes.items) shapes.now
        weak.now copies.new (root parents.old p)) (parts_of (form_at arena.now node))) }
    ensures among { OnOk result (AreAmong parents.old classes.old.items classes.new.items
        (parts_of (form_at arena.now node))) }
{
    if let Node::Made(_, first, count) = arena.nodes[node as usize] {
        let from = first as usize;
        let parts = &arena.parts[from..from + count as usize];
        meet_all(arena, parents, shapes, copies, weak, classes, parts)?;
    }
    Ok(())
}

/// The classes that nodes reach but for those that stay themselves, each once. In the table of copies each has its number, from the
/// number of nodes on.
pub(crate) fn reach(
    alloc: Global,
    arena: &Arena,
    parents: &mut [u32],
    shapes: &[u32],
    copies: &mut [u32],
    weak: &[bool],
    nodes: &[u32],
) -> Result<Vec<u32>, AllocError>
    requires arena { IsArena arena.now }
    requires down { IsDown parents.old }
    requires parents_length { length parents.old ≡ length arena.now.nodes.items }
    requires shapes_length { length shapes.now ≡ length arena.now.nodes.items }
    requires shapes_inside { (i : ℕ) → i < length arena.now.nodes.items
        → up shapes.now i < length arena.now.nodes.items }
    requires copies_length { length copies.old ≡ length arena.now.nodes.items }
    requires copies_low { (i : ℕ) → i < length arena.now.nodes.items
        → up copies.old i < length arena.now.nodes.items }
    requires inside { All (λ i. i < length arena.now.nodes.items) nodes.now }
    ensures classes { IsSame parents.old parents.new }
    ensures reached { IfOk result (λ classes. IsReached (form_at arena.now) (length arena.now.nodes.items)
        parents.old shapes.now weak.now copies.new classes.items nodes.now) }
{
    let mut classes = Vec::new(alloc);
    meet_all(arena, parents, shapes, copies, weak, &mut classes, nodes)?;
    let mut at = 0;
    'classes: while at < classes.len() {
        let node = shapes[classes[at] as usize];
        meet_parts(arena, parents, shapes, copies, weak, &mut classes, node)?;
        at += 1;
    }
    Ok(classes)
}
