// The arcs of rows, with the potentials that meet them.
ghost use Rattle.std.specs.Prelude.{◌≡◌, ◌≢◌, ℕ, true, false, [], ◌∷◌, ◌++◌, ◌+◌, ◌*◌, ◌^◌, ◌<◌, ◌≤◌, length, vec_capacity, take, unsigned_abs, IfOk, IfErr, IfSome, IfNone, OnOk, OnErr};
ghost use Rattle.lq_prover_differences.specs.Cycles.{ArePaired, IsNegativeCycle};
ghost use Rattle.lq_prover_differences.specs.Edges.{arcs_by};
ghost use Rattle.lq_prover_differences.specs.Graphs.{HasNotes, HasPlace, HasRoom, HasTrail, IsAtRest, IsGraph, SameItems, SameRoom, admitted};
ghost use Rattle.lq_prover_differences.specs.Links.{kept};
ghost use Rattle.lq_prover_differences.specs.Passes.{blank, vertex_at, order_at, AllBelow, AllInRange, AreListed, AtRest};
ghost use Rattle.lq_prover_differences.specs.Solving.{IsBounded, IsEnded};
ghost use Rattle.lq_prover_differences.specs.Stops.{PastBy};
ghost use Rattle.lq_prover_differences.specs.Trail.{start_at};

use crate::arc::{Arc, Edge};
use crate::cycle::cycle;
use crate::number::difference;
use crate::pass::rest;
use crate::solve::solve;
use crate::trail::{Note, undo};
use crate::vertex::{Kept, Vertex};
use lq_logic_rows::LinearStop;
use std::alloc::{AllocError, Global};

/// How many arcs and notes there were before a row's arcs were admitted.
#[derive(Clone, Copy)]
pub(crate) struct Start {
    pub(crate) arcs: usize,
    pub(crate) trail: usize,
}

/// Arcs that were admitted, and what leads back to fewer of them.
#[derive(Drop)]
pub(crate) struct Graph {
    pub(crate) arcs: Vec<Arc>,
    /// Beside each arc the one before it from the same vertex.
    pub(crate) links: Vec<usize>,
    pub(crate) vertices: Vec<Vertex>,
    /// In which order vertices were settled; 0 for one that isn't.
    pub(crate) order: Vec<u64>,
    /// The vertices that fell while an arc is being admitted.
    pub(crate) fallen: Vec<usize>,
    pub(crate) trail: Vec<Note>,
    /// How many of the first rows whose arcs were admitted it can't go back of.
    pub(crate) base: usize,
    /// For each other row whose arcs were admitted.
    pub(crate) starts: Vec<Start>,
}

/// How many notes there is to be room for: those of a row in which each of so many vertices falls twice, and four for each vertex and row.
fn notes_for(count: usize, rows: usize) -> Option<usize>
    ensures { IfSome result (λ notes. 2 * (count + 2) ≤ notes) }
{
    let row = count.checked_add(2)?.checked_mul(2)?;
    let more = count.checked_add(rows)?.checked_mul(4)?;
    row.checked_add(more)
}

/// Adds the arcs of a row.
fn add_arcs(arcs: &mut Vec<Arc>, edge: &Edge) -> Result<(), LinearStop>
    requires room { length arcs.old.items + 2 ≤ vec_capacity arcs.old }
    ensures front { take (length arcs.old.items) arcs.new.items ≡ arcs.old.items }
    ensures added { OnOk result (arcs.new.items ≡ arcs.old.items ++ arcs_by edge.now edge.now.equal) }
    ensures capacity { vec_capacity arcs.new ≡ vec_capacity arcs.old }
    ensures stop { IfErr result (λ stop. (n : ℕ) → unsigned_abs edge.now.weight ≤ n → PastBy n stop) }
{
    let cost = difference(0, edge.weight)?;
    arcs.push_reserved(Arc {
        tag: edge.tag,
        from: edge.from,
        to: edge.to,
        cost,
        forward: true,
    });
    if edge.equal {
        arcs.push_reserved(Arc {
            tag: edge.tag,
            from: edge.to,
            to: edge.from,
            cost: edge.weight,
            forward: false,
        });
    }
    Ok(())
}

/// Makes the links of so many arcs.
fn add_links(links: &mut Vec<usize>, count: usize)
    requires within { length links.old.items ≤ count }
    requires room { count ≤ vec_capacity links.old }
    ensures front { take (length links.old.items) links.new.items ≡ links.old.items }
    ensures same { length links.new.items ≡ count }
    ensures capacity { vec_capacity links.new ≡ vec_capacity links.old }
{
    while links.len() < count {
        links.push_reserved(0);
    }
}

/// Nothing is offered and no vertex is settled.
fn rest_all(vertices: &mut [Vertex], order: &mut [u64])
    requires same { length order.old ≡ length vertices.old }
    ensures kept { (v : ℕ) → kept (vertex_at vertices.new) v ≡ kept (vertex_at vertices.old) v }
    ensures rest { (v : ℕ) → AtRest (vertex_at vertices.new) (order_at order.new) v }
{
    for vertex in vertices.iter_mut() {
        vertex.next = vertex.kept.value;
    }
    for number in order.iter_mut() {
        *number = 0;
    }
}

/// A vertex that no arc names.
fn untouched() -> Vertex
    ensures { result ≡ blank }
{
    let kept = Kept {
        value: 0,
        last: 0,
        touched: false,
    };
    Vertex {
        kept,
        next: 0,
        parent: 0,
    }
}

impl Graph {
    /// No arcs over so many vertices, with room for no row.
    pub(crate) fn new(alloc: Global, count: usize) -> Result<Graph, AllocError>
        ensures graph { IfOk result IsGraph }
        ensures arcs { IfOk result (λ graph. graph.arcs.items ≡ []) }
        ensures starts { IfOk result (λ graph. graph.starts.items ≡ []) }
        ensures base { IfOk result (λ graph. graph.base ≡ 0) }
        ensures vertices { IfOk result (λ graph. length graph.vertices.items ≡ count) }
        ensures room { IfOk result (λ graph. HasRoom graph 0) }
    {
        let vertex = untouched();
        let fallen = Vec::with_capacity(alloc, count)?;
        let Some(notes) = notes_for(count, 0) else {
            return Err(AllocError);
        };
        Ok(Graph {
            arcs: Vec::new(alloc),
            links: Vec::new(alloc),
            vertices: vec![in alloc; vertex; count]?,
            order: vec![in alloc; 0; count]?,
            fallen,
            trail: Vec::with_capacity(alloc, notes)?,
            base: 0,
            starts: Vec::new(alloc),
        })
    }

    /// Makes room for so many rows. Where that lacks, all is as it was.
    pub(crate) fn reserve(&mut self, rows: usize) -> Result<(), AllocError>
        requires room { HasRoom self.old 0 }
        ensures room { OnOk result (HasRoom self.new rows) }
        ensures kept { (n : ℕ) → HasRoom self.old n → HasRoom self.new n }
        ensures same { SameItems self.old self.new }
    {
        let Some(arcs) = rows.checked_mul(2) else {
            return Err(AllocError);
        };
        let Some(notes) = notes_for(self.fallen.capacity(), rows) else {
            return Err(AllocError);
        };
        self.arcs.reserve(arcs.saturating_sub(self.arcs.len()))?;
        self.links.reserve(arcs.saturating_sub(self.links.len()))?;
        self.starts.reserve(rows.saturating_sub(self.starts.len()))?;
        self.trail.reserve(notes.saturating_sub(self.trail.len()))
    }

    /// How many rows' arcs were admitted.
    pub(crate) fn admitted(&self) -> usize
        requires { admitted self.now < 2 ^ 64 }
        ensures { result ≡ admitted self.now }
    {
        self.base + self.starts.len()
    }

    /// Forgets what leads back, where a row could need more notes than there is room for.
    pub(crate) fn make_room(&mut self)
        requires graph { IsGraph self.old }
        requires few { admitted self.old < 2 ^ 64 }
        requires room { HasRoom self.old 0 }
        ensures graph { IsGraph self.new }
        ensures notable { HasNotes self.new }
        ensures arcs { self.new.arcs.items ≡ self.old.arcs.items }
        ensures vertices { length self.new.vertices.items ≡ length self.old.vertices.items }
        ensures admitted { admitted self.new ≡ admitted self.old }
        ensures starts { self.new.starts.items ≢ [] → (self.new.starts.items ≡ self.old.starts.items)
            × (self.new.base ≡ self.old.base) }
        ensures room { SameRoom self.old self.new }
    {
        if self.trail.capacity() - self.trail.len() < (self.fallen.capacity() + 2) * 2 {
            self.base += self.starts.len();
            self.starts.clear();
            self.trail.clear();
        }
    }

    /// Goes back to no arcs.
    pub(crate) fn clear(&mut self)
        requires rest { IsAtRest self.old }
        ensures graph { IsGraph self.new }
        ensures arcs { self.new.arcs.items ≡ [] }
        ensures starts { self.new.starts.items ≡ [] }
        ensures base { self.new.base ≡ 0 }
        ensures vertices { length self.new.vertices.items ≡ length self.old.vertices.items }
        ensures room { SameRoom self.old self.new }
    {
        self.arcs.clear();
        self.links.clear();
        self.vertices.fill(untouched());
        self.order.fill(0);
        self.fallen.clear();
        self.trail.clear();
        self.base = 0;
        self.starts.clear();
    }

    /// Goes back to so many of the first rows behind those that it can't go back of.
    pub(crate) fn back_to(&mut self, rows: usize)
        requires rest { IsAtRest self.old }
        requires before { rows < length self.old.starts.items }
        ensures graph { IsGraph self.new }
        ensures arcs { self.new.arcs.items
            ≡ take (start_at self.old.starts.items rows).arcs self.old.arcs.items }
        ensures starts { self.new.starts.items ≡ take rows self.old.starts.items }
        ensures base { self.new.base ≡ self.old.base }
        ensures vertices { length self.new.vertices.items ≡ length self.old.vertices.items }
        ensures room { SameRoom self.old self.new }
    {
        let start = self.starts[rows];
        undo(&mut self.vertices, &mut self.trail, start.trail);
        self.arcs.truncate(start.arcs);
        self.links.truncate(start.arcs);
        self.starts.truncate(rows);
    }

    /// Adds the arcs of a row, and admits them as far as they go. The answer is the number of an arc that closes a walk whose costs sum
    /// to less than 0.
    fn extend(&mut self, edge: &Edge) -> Result<Option<usize>, LinearStop>
        requires graph { IsGraph self.old }
        requires in_range { AllInRange (self.old.arcs.items ++ arcs_by edge.now edge.now.equal)
            (length self.old.vertices.items) }
        requires place { HasPlace self.old }
        ensures room { SameRoom self.old self.new }
        ensures base { self.new.base ≡ self.old.base }
        ensures counted { IfOk result (λ closing. IfSome closing (λ _. (v : ℕ)
            → order_at self.new.order.items v ≤ length self.new.vertices.items)) }
        ensures trail { HasTrail self.new }
        ensures starts { self.new.starts.items ≡ self.old.starts.items }
        ensures vertices { length self.new.vertices.items ≡ length self.old.vertices.items }
        ensures front { take (length self.old.arcs.items) self.new.arcs.items ≡ self.old.arcs.items }
        ensures added { OnOk result (self.new.arcs.items ≡ self.old.arcs.items ++ arcs_by edge.now
            edge.now.equal) }
        ensures graph { IfOk result (λ closing. IfNone closing (IsGraph self.new)) }
        ensures ended { IfOk result (λ closing. IfSome closing (λ k. IsEnded self.new.arcs.items k
            (vertex_at self.new.vertices.items) (order_at self.new.order.items))) }
        ensures inside { IfOk result (λ closing. IfSome closing (λ _. AllBelow self.new.fallen.items
            (length self.new.vertices.items))) }
        ensures listed { IfOk result (λ closing. IfSome closing (λ _. AreListed self.new.fallen.items
            (vertex_at self.new.vertices.items) (order_at self.new.order.items))) }
        ensures stop { IfErr result (λ stop. (n : ℕ) → IsBounded n (self.old.arcs.items ++ arcs_by edge.now
            edge.now.equal) → unsigned_abs edge.now.weight ≤ n → PastBy n stop) }
    {
        let from = self.arcs.len();
        add_arcs(&mut self.arcs, edge)?;
        add_links(&mut self.links, self.arcs.len());
        solve(
            &self.arcs,
            from,
            &mut self.links,
            &mut self.vertices,
            &mut self.order,
            &mut self.fallen,
            &mut self.trail,
        )
    }

    /// Admits the arcs of a row. The answer is whether one of them closes a walk whose costs sum to less than 0: then its steps are found,
    /// and the arcs are as they were, as they are behind a stop.
    pub(crate) fn admit(
        &mut self,
        edge: &Edge,
        found: &mut Vec<(u64, bool)>,
    ) -> Result<bool, LinearStop>
        requires graph { IsGraph self.old }
        requires in_range { AllInRange (self.old.arcs.items ++ arcs_by edge.now edge.now.equal)
            (length self.old.vertices.items) }
        requires paired { ArePaired (self.old.arcs.items ++ arcs_by edge.now edge.now.equal) }
        requires start { length self.old.starts.items < vec_capacity self.old.starts }
        requires place { HasPlace self.old }
        requires steps { length self.old.vertices.items < vec_capacity found.old }
        ensures graph { IsGraph self.new }
        ensures vertices { length self.new.vertices.items ≡ length self.old.vertices.items }
        ensures room { SameRoom self.old self.new }
        ensures base { self.new.base ≡ self.old.base }
        ensures capacity { vec_capacity found.new ≡ vec_capacity found.old }
        ensures arcs { IfOk result (λ closed. closed ≡ false → self.new.arcs.items
            ≡ self.old.arcs.items ++ arcs_by edge.now edge.now.equal) }
        ensures starts { IfOk result (λ closed. closed ≡ false → self.new.starts.items ≡ self.old.starts.items
            ++ (record { arcs = length self.old.arcs.items; trail = length self.old.trail.items }) ∷ []) }
        ensures cycle { IfOk result (λ closed. closed ≡ true → IsNegativeCycle
            (self.old.arcs.items ++ arcs_by edge.now edge.now.equal) found.new.items) }
        ensures same_arcs { IfOk result (λ closed. closed ≡ true → self.new.arcs.items ≡ self.old.arcs.items) }
        ensures same_starts { IfOk result (λ closed. closed ≡ true
            → self.new.starts.items ≡ self.old.starts.items) }
        ensures refused_arcs { OnErr result (self.new.arcs.items ≡ self.old.arcs.items) }
        ensures refused_starts { OnErr result (self.new.starts.items ≡ self.old.starts.items) }
        ensures stop { IfErr result (λ stop. (n : ℕ) → IsBounded n (self.old.arcs.items ++ arcs_by edge.now
            edge.now.equal) → unsigned_abs edge.now.weight ≤ n → PastBy n stop) }
    {
        let row = self.starts.len();
        self.starts.push_reserved(Start {
            arcs: self.arcs.len(),
            trail: self.trail.len(),
        });
        match self.extend(edge) {
            Ok(None) => Ok(false),
            Ok(Some(closing)) => {
                cycle(found, &self.arcs, &self.vertices, &self.order, closing);
                rest(&mut self.vertices, &mut self.order, &self.fallen);
                self.fallen.clear();
                self.back_to(row);
                Ok(true)
            }
            Err(stop) => {
                rest_all(&mut self.vertices, &mut self.order);
                self.fallen.clear();
                self.back_to(row);
                Err(stop)
            }
        }
    }
}
