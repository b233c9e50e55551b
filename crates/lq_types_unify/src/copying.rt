// Copies of types, for uses of definitions.
ghost use Rattle.std.specs.Prelude.{◌≡◌, ℕ, ◌+◌, ◌<◌, ◌≤◌, ◌^◌, List, [], ◌∷◌, All, None, length, map, slice_index_or, OnOk, OnErr, IfOk};
ghost use Rattle.std.specs.Option.{option_map};
ghost use Rattle.lq_types_unify.specs.declared.arena.Arena.{Arena};
ghost use Rattle.lq_types_unify.specs.declared.arena.Equation.{Equation};
ghost use Rattle.lq_types_unify.specs.Nodes.{renamed, form_at, IsArena, HasFilled, HasKept};
ghost use Rattle.lq_types_unify.specs.Classes.{up, root, IsDown, IsSame};
ghost use Rattle.lq_types_unify.specs.Value.{parts_of};
ghost use Rattle.lq_types_unify.specs.Knowing.{IsLonger, Knows, KeepsClasses};
ghost use Rattle.lq_types_unify.specs.Copying.{seat, seated, AreOpened, AreFilled, AreKept, ArePlaced, IsPlaced, IsCopy};

use crate::arena::{Arena, Node};
use crate::classes::find;
use crate::reaching::reach;
use crate::solver::Solver;
use std::alloc::{AllocError, Global};

/// What stands for a node in the copy whose nodes come from `base` on.
fn seat_of(base: usize, parents: &mut [u32], copies: &[u32], node: u32) -> u32
    requires down { IsDown parents.old }
    requires inside { node < length parents.old }
    requires copies { length copies.now ≡ length parents.old }
    ensures value { result ≡ seat base copies.now (root parents.old node) }
    ensures classes { IsSame parents.old parents.new }
{
    let class = find(parents, node);
    let copy = copies[class as usize];
    if (copy as usize) < base { class } else { copy }
}

/// What stands for each of some nodes.
fn seats_of(
    alloc: Global,
    base: usize,
    parents: &mut [u32],
    copies: &[u32],
    nodes: &[u32],
) -> Result<Vec<u32>, AllocError>
    requires down { IsDown parents.old }
    requires inside { All (λ p. p < length parents.old) nodes.now }
    requires copies { length copies.now ≡ length parents.old }
    ensures seats { IfOk result (λ all. all.items ≡ map (λ p. seat base copies.now (root parents.old p))
        nodes.now) }
    ensures classes { IsSame parents.old parents.new }
{
    let mut all = Vec::new(alloc);
    for node in nodes {
        all.push(seat_of(base, parents, copies, *node))?;
    }
    Ok(all)
}

/// So many open nodes more.
fn open_all(arena: &mut Arena, count: usize) -> Result<(), AllocError>
    requires { IsArena arena.old }
    ensures opened { OnOk result (AreOpened arena.old arena.new count) }
    ensures kept { OnErr result (AreKept arena.old arena.new (length arena.old.nodes.items)) }
{
    for _ in 0..count {
        arena.open()?;
    }
    Ok(())
}

/// An open node gets the form of another, over what stands for the parts.
fn fill_one(
    alloc: Global,
    arena: &mut Arena,
    base: usize,
    parents: &mut [u32],
    copies: &[u32],
    shape: u32,
    node: u32,
) -> Result<(), AllocError>
    requires arena { IsArena arena.old }
    requires down { IsDown parents.old }
    requires parents_length { length parents.old ≡ base }
    requires copies_length { length copies.now ≡ base }
    requires shape { shape < length arena.old.nodes.items }
    requires placed { ArePlaced arena.old base parents.old copies.now shape }
    requires node { node < length arena.old.nodes.items }
    requires none { form_at arena.old node ≡ None }
    ensures filled { OnOk result (HasFilled arena.old arena.new node
        (seated arena.old base parents.old copies.now shape)) }
    ensures kept { OnErr result (HasKept arena.old arena.new) }
    ensures classes { IsSame parents.old parents.new }
{
    if let Node::Made(head, first, count) = arena.nodes[shape as usize] {
        let from = first as usize;
        let row = &arena.parts[from..from + count as usize];
        let parts = seats_of(alloc, base, parents, copies, row)?;
        arena.fill(node, head, &parts)?;
    }
    Ok(())
}

/// The nodes from `base` on get the forms of classes.
fn fill_all(
    alloc: Global,
    arena: &mut Arena,
    base: usize,
    parents: &mut [u32],
    shapes: &[u32],
    copies: &[u32],
    classes: &[u32],
) -> Result<(), AllocError>
    requires arena { IsArena arena.old }
    requires down { IsDown parents.old }
    requires parents_length { length parents.old ≡ base }
    requires shapes_length { length shapes.now ≡ base }
    requires copies_length { length copies.now ≡ base }
    requires shapes_inside { (i : ℕ) → i < base → up shapes.now i < base }
    requires inside { (k : ℕ) → k < length classes.now → slice_index_or classes.now k 0 < base }
    requires placed { All (λ r. ArePlaced arena.old base parents.old copies.now (up shapes.now r)) classes.now }
    requires long { length arena.old.nodes.items ≡ base + length classes.now }
    requires rest { (i : ℕ) → base ≤ i → form_at arena.old i ≡ None }
    ensures filled { OnOk result (AreFilled arena.old arena.new base parents.old shapes.now copies.now
        classes.now) }
    ensures kept { OnErr result (AreKept arena.old arena.new base) }
    ensures classes { IsSame parents.old parents.new }
{
    for at in 0..classes.len() {
        let node = (base + at) as u32;
        let shape = shapes[classes[at] as usize];
        fill_one(alloc, arena, base, parents, copies, shape, node)?;
    }
    Ok(())
}

/// A copy of the type of a node behind the arena's nodes, and what stands for the node there.
fn place(
    alloc: Global,
    arena: &mut Arena,
    parents: &mut [u32],
    shapes: &[u32],
    copies: &mut [u32],
    weak: &[bool],
    node: u32,
) -> Result<u32, AllocError>
    requires arena { IsArena arena.old }
    requires down { IsDown parents.old }
    requires parents_length { length parents.old ≡ length arena.old.nodes.items }
    requires shapes_length { length shapes.now ≡ length arena.old.nodes.items }
    requires shapes_inside { (i : ℕ) → i < length arena.old.nodes.items
        → up shapes.now i < length arena.old.nodes.items }
    requires copies_length { length copies.old ≡ length arena.old.nodes.items }
    requires copies_low { (i : ℕ) → i < length arena.old.nodes.items
        → up copies.old i < length arena.old.nodes.items }
    requires inside { node < length arena.old.nodes.items }
    ensures placed { IfOk result (IsPlaced arena.old arena.new parents.old shapes.now weak.now copies.new node) }
    ensures copies { OnOk result (length copies.new ≡ length arena.old.nodes.items) }
    ensures kept { OnErr result (AreKept arena.old arena.new (length arena.old.nodes.items)) }
    ensures classes { IsSame parents.old parents.new }
{
    let base = arena.nodes.len();
    let classes = reach(alloc, arena, parents, shapes, copies, weak, &[node])?;
    open_all(arena, classes.len())?;
    fill_all(alloc, arena, base, parents, shapes, copies, &classes)?;
    Ok(seat_of(base, parents, copies, node))
}

impl Solver {
    /// A copy of the type of a node, for a use of a definition: its node. A weak open class, told by its root, stays itself, any
    /// other class that the node reaches gets a node of its own behind those of the arena. It costs what the type has, and what was
    /// added to the arena since the last copy.
    pub fn copy(
        &mut self,
        alloc: Global,
        arena: &mut Arena,
        weak: &[bool],
        node: u32,
    ) -> Result<u32, AllocError>
        requires arena { IsArena arena.old }
        requires node { node < length arena.old.nodes.items }
        requires knows { (equations : List Equation) × Knows arena.old equations self.old }
        ensures arena { IsArena arena.new }
        ensures longer { IsLonger arena.old arena.new }
        ensures inside { IfOk result (λ used. used < length arena.new.nodes.items) }
        ensures copy { IfOk result (IsCopy (form_at arena.old) (form_at arena.new)
            (length arena.old.nodes.items) (length arena.new.nodes.items) self.old.parents.items
            self.old.shapes.items weak.now node) }
        ensures knows { OnOk result ((equations : List Equation) → Knows arena.old equations self.old
            → Knows arena.new equations self.new) }
        ensures stands { KeepsClasses self.old self.new }
    {
        let used = place(
            alloc,
            arena,
            &mut self.parents,
            &self.shapes,
            &mut self.copies,
            weak,
            node,
        )?;
        self.stretch(arena.nodes.len())?;
        Ok(used)
    }
}
