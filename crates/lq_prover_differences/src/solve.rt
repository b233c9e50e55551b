// Arcs admitted one by one.
ghost use Rattle.std.specs.Prelude.{◌≡◌, ◌≢◌, ℕ, [], ◌∷◌, true, false, Some, ◌+◌, ◌-◌, ◌*◌, ◌<◌, ◌≤◌, ◌+ℤ◌, FitsSigned, length, vec_capacity, slice_get, slice_index_or, IfOk, IfErr, IfSome, IfNone, OnOk, OnErr};
ghost use Rattle.std.specs.Int.{w128};
ghost use Rattle.lq_prover_differences.specs.declared.arc.Arc.{Arc};
ghost use Rattle.lq_prover_differences.specs.Passes.{vertex_at, order_at, values, nexts, touched, AllBelow, AllInRange, AreListed, AtRest};
ghost use Rattle.lq_prover_differences.specs.Solving.{IsBounded, IsEnded, IsOpposite, IsPlacing};
ghost use Rattle.lq_prover_differences.specs.Stops.{PastBy};
ghost use Rattle.lq_prover_differences.specs.Links.{kept, HasLinks};
ghost use Rattle.lq_prover_differences.specs.Trail.{IsTrailed, IsReached};
ghost use Rattle.lq_logic_rows.specs.declared.limits.TheConstants.{SUM_LIMIT};

use crate::arc::Arc;
use crate::number::sum;
use crate::pass::admit;
use crate::trail::{Note, note_all};
use crate::vertex::Vertex;
use lq_logic_rows::LinearStop;

/// Whether two arcs are the two readings of one equation between two vertices.
fn are_opposite(arc: Arc, back: Arc) -> bool
    ensures { result ≡ true → IsOpposite arc back }
{
    if arc.from == arc.to || back.from != arc.to || back.to != arc.from {
        return false;
    }
    match sum(arc.cost, back.cost) {
        Ok(total) => total == 0,
        Err(_) => false,
    }
}

/// The arc by which an equation, read from the arc of this number and the next, places a vertex that no arc before names.
fn placing(arcs: &[Arc], at: usize, vertices: &[Vertex]) -> Option<Arc>
    requires at_in { at < length arcs.now }
    requires in_range { AllInRange arcs.now (length vertices.now) }
    ensures { IfSome result (λ arc. IsPlacing arcs.now at (touched (vertex_at vertices.now)) arc) }
{
    if at + 1 == arcs.len() {
        return None;
    }
    let arc = arcs[at];
    let back = arcs[at + 1];
    if !are_opposite(arc, back) {
        return None;
    }
    if !vertices[arc.to].kept.touched {
        return Some(arc);
    }
    if !vertices[arc.from].kept.touched {
        return Some(back);
    }
    None
}

/// Gives the vertex that an arc leads to the potential at which the arc is met exactly.
fn place(vertices: &mut [Vertex], arc: Arc) -> Result<(), LinearStop>
    requires from_in { arc.from < length vertices.old }
    requires to_in { arc.to < length vertices.old }
    ensures here { OnOk result (values (vertex_at vertices.new) arc.to
        ≡ values (vertex_at vertices.old) arc.from +ℤ arc.cost) }
    ensures others { (v : ℕ) → v ≢ arc.to
        → kept (vertex_at vertices.new) v ≡ kept (vertex_at vertices.old) v }
    ensures lasts { (v : ℕ) → (kept (vertex_at vertices.new) v).last
        ≡ (kept (vertex_at vertices.old) v).last }
    ensures marks { (v : ℕ) → touched (vertex_at vertices.new) v ≡ touched (vertex_at vertices.old) v }
    ensures rest { (order : ℕ → ℕ) → ((v : ℕ) → AtRest (vertex_at vertices.old) order v)
        → (v : ℕ) → AtRest (vertex_at vertices.new) order v }
    ensures stop { IfErr result (λ stop. (n : ℕ) → (¬ (FitsSigned w128
        (values (vertex_at vertices.old) arc.from +ℤ arc.cost)) → SUM_LIMIT ≤ n) → PastBy n stop) }
{
    let value = sum(vertices[arc.from].kept.value, arc.cost)?;
    let vertex = &mut vertices[arc.to];
    vertex.kept.value = value;
    vertex.next = value;
    Ok(())
}

/// Links the arc of this number to the one before it from the same vertex.
fn link(arcs: &[Arc], at: usize, links: &mut [usize], vertices: &mut [Vertex])
    requires at_in { at < length arcs.now }
    requires in_range { AllInRange arcs.now (length vertices.old) }
    requires linked { HasLinks arcs.now links.old (vertex_at vertices.old) at }
    ensures linked { HasLinks arcs.now links.new (vertex_at vertices.new) (at + 1) }
    ensures values { (v : ℕ) → values (vertex_at vertices.new) v ≡ values (vertex_at vertices.old) v }
    ensures nexts { (v : ℕ) → nexts (vertex_at vertices.new) v ≡ nexts (vertex_at vertices.old) v }
    ensures marks { (v : ℕ) → touched (vertex_at vertices.new) v ≡ touched (vertex_at vertices.old) v }
    ensures others { (arc : Arc) → slice_get arcs.now at ≡ Some arc → (v : ℕ) → v ≢ arc.from
        → kept (vertex_at vertices.new) v ≡ kept (vertex_at vertices.old) v }
    ensures before { (j : ℕ) → j < at → slice_index_or links.new j 0 ≡ slice_index_or links.old j 0 }
{
    let from = arcs[at].from;
    let vertex = &mut vertices[from];
    links[at] = vertex.kept.last;
    vertex.kept.last = at + 1;
}

/// Marks the vertices that an arc names.
fn touch(vertices: &mut [Vertex], arc: Arc)
    requires from_in { arc.from < length vertices.old }
    requires to_in { arc.to < length vertices.old }
    ensures marks { (v : ℕ) → touched (vertex_at vertices.new) v ≡ false
        → (touched (vertex_at vertices.old) v ≡ false) × (arc.from ≢ v) × (arc.to ≢ v) }
    ensures values { (v : ℕ) → values (vertex_at vertices.new) v ≡ values (vertex_at vertices.old) v }
    ensures nexts { (v : ℕ) → nexts (vertex_at vertices.new) v ≡ nexts (vertex_at vertices.old) v }
    ensures lasts { (v : ℕ) → (kept (vertex_at vertices.new) v).last
        ≡ (kept (vertex_at vertices.old) v).last }
    ensures others { (v : ℕ) → v ≢ arc.from → v ≢ arc.to
        → kept (vertex_at vertices.new) v ≡ kept (vertex_at vertices.old) v }
{
    vertices[arc.from].kept.touched = true;
    vertices[arc.to].kept.touched = true;
}

/// Admits the arc of this number and the next, by one of which an equation places a vertex.
fn admit_two(
    arcs: &[Arc],
    at: usize,
    arc: Arc,
    links: &mut [usize],
    vertices: &mut [Vertex],
    trail: &mut Vec<Note>,
) -> Result<(), LinearStop>
    requires placing { IsPlacing arcs.now at (touched (vertex_at vertices.old)) arc }
    requires in_range { AllInRange arcs.now (length vertices.old) }
    requires same { length links.old ≡ length arcs.now }
    requires reached { IsReached arcs.now links.old at (kept (vertex_at vertices.old)) }
    requires notable { length trail.old.items + 2 ≤ vec_capacity trail.old }
    ensures noted { length trail.new.items ≤ length trail.old.items + 2 }
    ensures trail_capacity { vec_capacity trail.new ≡ vec_capacity trail.old }
    ensures reached { OnOk result (IsReached arcs.now links.new (at + 2) (kept (vertex_at vertices.new))) }
    ensures rest { (order : ℕ → ℕ) → ((v : ℕ) → AtRest (vertex_at vertices.old) order v)
        → (v : ℕ) → AtRest (vertex_at vertices.new) order v }
    ensures before { (j : ℕ) → j < at → slice_index_or links.new j 0 ≡ slice_index_or links.old j 0 }
    ensures trailed { IsTrailed (length vertices.old) trail.old.items trail.new.items
        (kept (vertex_at vertices.old)) (kept (vertex_at vertices.new)) }
    ensures stop { IfErr result (λ stop. (n : ℕ) → IsBounded n arcs.now → PastBy n stop) }
{
    note_all(trail, vertices, &[arc.from, arc.to]);
    place(vertices, arc)?;
    touch(vertices, arc);
    link(arcs, at, links, vertices);
    link(arcs, at + 1, links, vertices);
    Ok(())
}

/// Admits the arc of this number. The answer is the number of an arc that closes a walk whose costs sum to less than 0.
fn admit_one(
    arcs: &[Arc],
    at: usize,
    links: &mut [usize],
    vertices: &mut [Vertex],
    order: &mut [u64],
    fallen: &mut Vec<usize>,
    trail: &mut Vec<Note>,
) -> Result<Option<usize>, LinearStop>
    requires at_in { at < length arcs.now }
    requires in_range { AllInRange arcs.now (length vertices.old) }
    requires same { length links.old ≡ length arcs.now }
    requires ordered { length order.old ≡ length vertices.old }
    requires reached { IsReached arcs.now links.old at (kept (vertex_at vertices.old)) }
    requires rest { (v : ℕ) → AtRest (vertex_at vertices.old) (order_at order.old) v }
    requires empty { fallen.old.items ≡ [] }
    requires room { length vertices.old ≤ vec_capacity fallen.old }
    requires notable { length trail.old.items + (vec_capacity fallen.old + 2) ≤ vec_capacity trail.old }
    ensures noted { length trail.new.items ≤ length trail.old.items + (vec_capacity fallen.old + 2) }
    ensures capacity { vec_capacity fallen.new ≡ vec_capacity fallen.old }
    ensures trail_capacity { vec_capacity trail.new ≡ vec_capacity trail.old }
    ensures counted { OnOk result ((v : ℕ) → order_at order.new v ≤ length order.new) }
    ensures reached { IfOk result (λ closing. IfNone closing (IsReached arcs.now links.new (at + 1)
        (kept (vertex_at vertices.new)))) }
    ensures rest { IfOk result (λ closing. IfNone closing ((v : ℕ)
        → AtRest (vertex_at vertices.new) (order_at order.new) v)) }
    ensures empty { IfOk result (λ closing. IfNone closing (fallen.new.items ≡ [])) }
    ensures ended { IfOk result (λ closing. IfSome closing (λ k. IsEnded arcs.now k (vertex_at vertices.new)
        (order_at order.new))) }
    ensures inside { IfOk result (λ closing. IfSome closing (λ _. AllBelow fallen.new.items
        (length vertices.new))) }
    ensures listed { IfOk result (λ closing. IfSome closing (λ _. AreListed fallen.new.items
        (vertex_at vertices.new) (order_at order.new))) }
    ensures before { (j : ℕ) → j < at → slice_index_or links.new j 0 ≡ slice_index_or links.old j 0 }
    ensures trailed { IsTrailed (length vertices.old) trail.old.items trail.new.items
        (kept (vertex_at vertices.old)) (kept (vertex_at vertices.new)) }
    ensures stop { IfErr result (λ stop. (n : ℕ) → IsBounded n arcs.now → PastBy n stop) }
{
    let arc = arcs[at];
    note_all(trail, vertices, &[arc.from, arc.to]);
    touch(vertices, arc);
    link(arcs, at, links, vertices);
    admit(
        &arcs[..at + 1],
        &links[..at + 1],
        vertices,
        order,
        fallen,
        trail,
    )
}

/// Admits the arcs from this number on, in their order: an equation with a vertex that no arc before names places that vertex and moves
/// no other. The answer is the number of an arc that closes a walk whose costs sum to less than 0.
pub(crate) fn solve(
    arcs: &[Arc],
    from: usize,
    links: &mut [usize],
    vertices: &mut [Vertex],
    order: &mut [u64],
    fallen: &mut Vec<usize>,
    trail: &mut Vec<Note>,
) -> Result<Option<usize>, LinearStop>
    requires from_in { from ≤ length arcs.now }
    requires in_range { AllInRange arcs.now (length vertices.old) }
    requires same { length links.old ≡ length arcs.now }
    requires ordered { length order.old ≡ length vertices.old }
    requires reached { IsReached arcs.now links.old from (kept (vertex_at vertices.old)) }
    requires rest { (v : ℕ) → AtRest (vertex_at vertices.old) (order_at order.old) v }
    requires empty { fallen.old.items ≡ [] }
    requires room { length vertices.old ≤ vec_capacity fallen.old }
    requires notable { length trail.old.items + (length arcs.now - from) * (vec_capacity fallen.old + 2)
        ≤ vec_capacity trail.old }
    ensures capacity { vec_capacity fallen.new ≡ vec_capacity fallen.old }
    ensures trail_capacity { vec_capacity trail.new ≡ vec_capacity trail.old }
    ensures counted { IfOk result (λ closing. IfSome closing (λ _. (v : ℕ)
        → order_at order.new v ≤ length order.new)) }
    ensures reached { IfOk result (λ closing. IfNone closing (IsReached arcs.now links.new (length arcs.now)
        (kept (vertex_at vertices.new)))) }
    ensures rest { IfOk result (λ closing. IfNone closing ((v : ℕ)
        → AtRest (vertex_at vertices.new) (order_at order.new) v)) }
    ensures empty { IfOk result (λ closing. IfNone closing (fallen.new.items ≡ [])) }
    ensures ended { IfOk result (λ closing. IfSome closing (λ k. IsEnded arcs.now k (vertex_at vertices.new)
        (order_at order.new))) }
    ensures inside { IfOk result (λ closing. IfSome closing (λ _. AllBelow fallen.new.items
        (length vertices.new))) }
    ensures listed { IfOk result (λ closing. IfSome closing (λ _. AreListed fallen.new.items
        (vertex_at vertices.new) (order_at order.new))) }
    ensures before { (j : ℕ) → j < from → slice_index_or links.new j 0 ≡ slice_index_or links.old j 0 }
    ensures trailed { IsTrailed (length vertices.old) trail.old.items trail.new.items
        (kept (vertex_at vertices.old)) (kept (vertex_at vertices.new)) }
    ensures stop { IfErr result (λ stop. (n : ℕ) → IsBounded n arcs.now → PastBy n stop) }
{
    let mut k = from;
    while k < arcs.len() {
        if let Some(arc) = placing(arcs, k, vertices) {
            admit_two(arcs, k, arc, links, vertices, trail)?;
            k += 2;
        } else {
            if let Some(closing) = admit_one(arcs, k, links, vertices, order, fallen, trail)? {
                return Ok(Some(closing));
            }
            k += 1;
        }
    }
    Ok(None)
}
