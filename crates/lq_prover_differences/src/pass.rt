// A pass: vertices fall to the offers that reach them.
ghost use Rattle.std.specs.Prelude.{◌≡◌, ◌⊎◌, ℕ, List, [], ◌∷◌, ◌++◌, ◌<◌, ◌≤◌, ◌+◌, ◌^◌, length, slice_index_or, vec_capacity, IfOk, IfErr, IfSome, IfNone, OnOk};
ghost use Rattle.lq_prover_differences.specs.Passes.{vertex_at, order_at, values, nexts, touched, AllInRange, AllBelow, IsListed, AreListed, HasFront, AtRest, IsPass, IsSized, IsLeast, NoneFalls, IsNext, IsStuck, IsNarrow, Falls};
ghost use Rattle.std.specs.Int.Signed.{◌<ℤ◌};
ghost use Rattle.lq_prover_differences.specs.Arcs.{Meets};
ghost use Rattle.lq_prover_differences.specs.Room.{unfallen};
ghost use Rattle.lq_prover_differences.specs.Stops.{PastBy};
ghost use Rattle.lq_prover_differences.specs.Links.{kept, AreLinked, IsLatest};
ghost use Rattle.lq_prover_differences.specs.Trail.{IsTrailed};
ghost use Rattle.lq_prover_differences.specs.declared.arc.Arc.{Arc};

use crate::arc::Arc;
use crate::number::{difference, sum};
use crate::trail::{Note, note_all};
use crate::vertex::Vertex;
use lq_logic_rows::LinearStop;

/// The place of the vertex that fell farthest of those that aren't settled, if one fell. Those that are settled come first in the list.
fn least(
    vertices: &[Vertex],
    order: &[u64],
    fallen: &[usize],
    settled: usize,
) -> Result<Option<usize>, LinearStop>
    requires same { length order.now ≡ length vertices.now }
    requires inside { AllBelow fallen.now (length vertices.now) }
    requires front { HasFront fallen.now settled (vertex_at vertices.now) (order_at order.now) }
    ensures place { IfOk result (λ found. IfSome found (λ place. (settled ≤ place) × (place < length fallen.now))) }
    ensures some { IfOk result (λ found. IfSome found
        (λ place. IsLeast (vertex_at vertices.now) (order_at order.now) (slice_index_or fallen.now place 0))) }
    ensures none { IfOk result (λ found. IfNone found
        (NoneFalls (vertex_at vertices.now) (order_at order.now))) }
    ensures stop { IfErr result (λ stop. (arcs : List Arc) (top gap count n : ℕ)
        → IsPass arcs top gap (vertex_at vertices.now) (order_at order.now) count top 0 → gap ≤ n
        → PastBy n stop) }
{
    let mut lowest = 0;
    let mut found = settled;
    for place in settled..fallen.len() {
        let v = fallen[place];
        if order[v] == 0 {
            let vertex = vertices[v];
            let fall = difference(vertex.next, vertex.kept.value)?;
            if fall < lowest {
                lowest = fall;
                found = place;
            }
        }
    }
    if lowest < 0 {
        Ok(Some(found))
    } else {
        Ok(None)
    }
}

/// Lets a vertex fall to an offer of an arc, and lists it where it hadn't fallen yet.
fn fall(vertices: &mut [Vertex], fallen: &mut Vec<usize>, at: usize, offer: i128, parent: usize)
    requires at_in { at < length vertices.old }
    requires inside { AllBelow fallen.old.items (length vertices.old) }
    requires below { offer <ℤ nexts (vertex_at vertices.old) at }
    requires room { length fallen.old.items + unfallen vertices.old ≤ vec_capacity fallen.old }
    ensures inside { AllBelow fallen.new.items (length vertices.new) }
    ensures falls { Falls (vertex_at vertices.old) (vertex_at vertices.new) at parent offer }
    ensures front { (order : ℕ → ℕ) (settled : ℕ) → HasFront fallen.old.items settled (vertex_at vertices.old) order
        → HasFront fallen.new.items settled (vertex_at vertices.new) order }
    ensures kept { (v : ℕ) → kept (vertex_at vertices.new) v ≡ kept (vertex_at vertices.old) v }
    ensures room { length fallen.new.items + unfallen vertices.new ≤ vec_capacity fallen.new }
    ensures capacity { vec_capacity fallen.new ≡ vec_capacity fallen.old }
{
    if vertices[at].next == vertices[at].kept.value {
        fallen.push_reserved(at);
    }
    let vertex = &mut vertices[at];
    vertex.next = offer;
    vertex.parent = parent;
}

/// Offers along the arcs from a vertex that was settled just now, the last of them first. The answer is the number of an arc by which the
/// vertex at the top would fall.
fn relax(
    arcs: &[Arc],
    links: &[usize],
    at: usize,
    top: usize,
    vertices: &mut [Vertex],
    order: &[u64],
    fallen: &mut Vec<usize>,
) -> Result<Option<usize>, LinearStop>
    requires in_range { AllInRange arcs.now (length vertices.old) }
    requires linked { AreLinked arcs.now links.now }
    requires last { IsLatest arcs.now at (length arcs.now) (kept (vertex_at vertices.old) at).last }
    requires same { length order.now ≡ length vertices.old }
    requires at_in { at < length vertices.old }
    requires top_in { top < length vertices.old }
    requires settled { 0 < order_at order.now at }
    requires inside { AllBelow fallen.old.items (length vertices.old) }
    requires room { length fallen.old.items + unfallen vertices.old ≤ vec_capacity fallen.old }
    ensures room { length fallen.new.items + unfallen vertices.new ≤ vec_capacity fallen.new }
    ensures capacity { vec_capacity fallen.new ≡ vec_capacity fallen.old }
    ensures inside { AllBelow fallen.new.items (length vertices.new) }
    ensures front { OnOk result ((settled : ℕ)
        → HasFront fallen.old.items settled (vertex_at vertices.old) (order_at order.now)
        → HasFront fallen.new.items settled (vertex_at vertices.new) (order_at order.now)) }
    ensures kept { (v : ℕ) → kept (vertex_at vertices.new) v ≡ kept (vertex_at vertices.old) v }
    ensures offered { IfOk result (λ closing. IfNone closing ((gap count : ℕ)
        → IsPass arcs.now top gap (vertex_at vertices.old) (order_at order.now) count at (length arcs.now)
        → IsPass arcs.now top gap (vertex_at vertices.new) (order_at order.now) count top 0)) }
    ensures stuck { IfOk result (λ closing. IfSome closing (λ k. (gap count : ℕ)
        → IsPass arcs.now top gap (vertex_at vertices.old) (order_at order.now) count at (length arcs.now)
        → IsStuck arcs.now top k (vertex_at vertices.new) (order_at order.now))) }
    ensures stop { IfErr result (λ stop. (gap count n : ℕ)
        → IsPass arcs.now top gap (vertex_at vertices.old) (order_at order.now) count at (length arcs.now)
        → IsSized n gap arcs.now (values (vertex_at vertices.old)) → PastBy n stop) }
{
    let mut k = vertices[at].kept.last;
    while k > 0 {
        let number = k - 1;
        let arc = arcs[number];
        let offer = sum(vertices[at].next, arc.cost)?;
        if offer < vertices[arc.to].next {
            if arc.to == top {
                return Ok(Some(number));
            }
            if order[arc.to] == 0 {
                fall(vertices, fallen, arc.to, offer, number);
            }
        }
        k = links[number];
    }
    Ok(None)
}

/// Settles vertices in the order of their falls, until none falls or the vertex at the top would. Those that are settled come first in the
/// list, so the next one is sought behind them.
fn settle(
    arcs: &[Arc],
    links: &[usize],
    top: usize,
    vertices: &mut [Vertex],
    order: &mut [u64],
    fallen: &mut Vec<usize>,
) -> Result<Option<usize>, LinearStop>
    requires in_range { AllInRange arcs.now (length vertices.old) }
    requires linked { AreLinked arcs.now links.now }
    requires last { (v : ℕ) → IsLatest arcs.now v (length arcs.now) (kept (vertex_at vertices.old) v).last }
    requires same { length order.old ≡ length vertices.old }
    requires top_in { top < length vertices.old }
    requires unsettled { (v : ℕ) → order_at order.old v ≡ 0 }
    requires inside { AllBelow fallen.old.items (length vertices.old) }
    requires listed { AreListed fallen.old.items (vertex_at vertices.old) (order_at order.old) }
    requires room { length fallen.old.items + unfallen vertices.old ≤ vec_capacity fallen.old }
    ensures room { length fallen.new.items + unfallen vertices.new ≤ vec_capacity fallen.new }
    ensures capacity { vec_capacity fallen.new ≡ vec_capacity fallen.old }
    ensures counted { OnOk result ((v : ℕ) → order_at order.new v ≤ length order.new) }
    ensures inside { AllBelow fallen.new.items (length vertices.new) }
    ensures listed { OnOk result (AreListed fallen.new.items (vertex_at vertices.new) (order_at order.new)) }
    ensures kept { (v : ℕ) → kept (vertex_at vertices.new) v ≡ kept (vertex_at vertices.old) v }
    ensures next { IfOk result (λ closing. IfNone closing ((gap : ℕ)
        → IsPass arcs.now top gap (vertex_at vertices.old) (order_at order.old) 0 top 0
        → IsNext arcs.now (values (vertex_at vertices.old)) (nexts (vertex_at vertices.new)))) }
    ensures stuck { IfOk result (λ closing. IfSome closing (λ k. (gap : ℕ)
        → IsPass arcs.now top gap (vertex_at vertices.old) (order_at order.old) 0 top 0
        → IsStuck arcs.now top k (vertex_at vertices.new) (order_at order.new))) }
    ensures stop { IfErr result (λ stop. (gap n : ℕ)
        → IsPass arcs.now top gap (vertex_at vertices.old) (order_at order.old) 0 top 0
        → IsSized n gap arcs.now (values (vertex_at vertices.old)) → PastBy n stop) }
{
    let mut count = 0;
    loop {
        let Some(place) = least(vertices, order, fallen, count)? else {
            return Ok(None);
        };
        let at = fallen[place];
        fallen.swap(count, place);
        count += 1;
        order[at] = count as u64;
        if let Some(closing) = relax(arcs, links, at, top, vertices, order, fallen)? {
            return Ok(Some(closing));
        }
    }
}

/// Nothing is offered and no vertex is settled: only those that are listed were.
pub(crate) fn rest(vertices: &mut [Vertex], order: &mut [u64], fallen: &[usize])
    requires same { length order.old ≡ length vertices.old }
    requires inside { AllBelow fallen.now (length vertices.old) }
    requires listed { AreListed fallen.now (vertex_at vertices.old) (order_at order.old) }
    ensures kept { (v : ℕ) → kept (vertex_at vertices.new) v ≡ kept (vertex_at vertices.old) v }
    ensures rest { (v : ℕ) → AtRest (vertex_at vertices.new) (order_at order.new) v }
{
    for place in fallen {
        let v = *place;
        let vertex = &mut vertices[v];
        vertex.next = vertex.kept.value;
        order[v] = 0;
    }
}

/// The offers to the vertices that fell become their potentials.
fn accept(vertices: &mut [Vertex], fallen: &[usize])
    requires inside { AllBelow fallen.now (length vertices.old) }
    ensures listed { (v : ℕ) → IsListed fallen.now v
        → values (vertex_at vertices.new) v ≡ nexts (vertex_at vertices.old) v }
    ensures others { (v : ℕ) → IsListed fallen.now v ⊎ (vertex_at vertices.new v ≡ vertex_at vertices.old v) }
    ensures last { (v : ℕ) → (kept (vertex_at vertices.new) v).last ≡ (kept (vertex_at vertices.old) v).last }
    ensures marks { (v : ℕ) → touched (vertex_at vertices.new) v ≡ touched (vertex_at vertices.old) v }
{
    for place in fallen {
        let v = *place;
        let vertex = &mut vertices[v];
        vertex.kept.value = vertex.next;
    }
}

/// Admits the last of the arcs, the others being met, and notes what was kept of the vertices that fall. The answer is the number of an
/// arc that closes a walk whose costs sum to less than 0.
pub(crate) fn admit(
    arcs: &[Arc],
    links: &[usize],
    vertices: &mut [Vertex],
    order: &mut [u64],
    fallen: &mut Vec<usize>,
    trail: &mut Vec<Note>,
) -> Result<Option<usize>, LinearStop>
    requires some { 0 < length arcs.now }
    requires in_range { AllInRange arcs.now (length vertices.old) }
    requires linked { AreLinked arcs.now links.now }
    requires last { (v : ℕ) → IsLatest arcs.now v (length arcs.now) (kept (vertex_at vertices.old) v).last }
    requires same { length order.old ≡ length vertices.old }
    requires rest { (v : ℕ) → AtRest (vertex_at vertices.old) (order_at order.old) v }
    requires empty { fallen.old.items ≡ [] }
    requires room { length vertices.old ≤ vec_capacity fallen.old }
    requires notable { length trail.old.items + vec_capacity fallen.old ≤ vec_capacity trail.old }
    ensures noted { length trail.new.items ≤ length trail.old.items + vec_capacity fallen.old }
    ensures capacity { vec_capacity fallen.new ≡ vec_capacity fallen.old }
    ensures trail_capacity { vec_capacity trail.new ≡ vec_capacity trail.old }
    ensures counted { OnOk result ((v : ℕ) → order_at order.new v ≤ length order.new) }
    ensures empty { IfOk result (λ closing. IfNone closing (fallen.new.items ≡ [])) }
    ensures rest { IfOk result (λ closing. IfNone closing ((v : ℕ)
        → AtRest (vertex_at vertices.new) (order_at order.new) v)) }
    ensures lasts { IfOk result (λ closing. IfNone closing ((v : ℕ)
        → (kept (vertex_at vertices.new) v).last ≡ (kept (vertex_at vertices.old) v).last)) }
    ensures marks { IfOk result (λ closing. IfNone closing ((v : ℕ)
        → touched (vertex_at vertices.new) v ≡ touched (vertex_at vertices.old) v)) }
    ensures trailed { IsTrailed (length vertices.old) trail.old.items trail.new.items
        (kept (vertex_at vertices.old)) (kept (vertex_at vertices.new)) }
    ensures inside { IfOk result (λ closing. IfSome closing (λ _. AllBelow fallen.new.items
        (length vertices.new))) }
    ensures listed { IfOk result (λ closing. IfSome closing (λ _. AreListed fallen.new.items
        (vertex_at vertices.new) (order_at order.new))) }
    ensures next { IfOk result (λ closing. IfNone closing ((front : List Arc) (last : Arc)
        → arcs.now ≡ front ++ last ∷ [] → Meets (values (vertex_at vertices.old)) front
        → IsNext arcs.now (values (vertex_at vertices.old)) (values (vertex_at vertices.new)))) }
    ensures stuck { IfOk result (λ closing. IfSome closing (λ k. (front : List Arc) (last : Arc)
        → arcs.now ≡ front ++ last ∷ [] → Meets (values (vertex_at vertices.old)) front
        → IsStuck arcs.now last.from k (vertex_at vertices.new) (order_at order.new))) }
    ensures stop { IfErr result (λ stop. (front : List Arc) (last : Arc) (m n : ℕ)
        → arcs.now ≡ front ++ last ∷ [] → IsNarrow m n front last (values (vertex_at vertices.old))
        → PastBy n stop) }
{
    let number = arcs.len() - 1;
    let last = arcs[number];
    let offer = sum(vertices[last.from].kept.value, last.cost)?;
    if vertices[last.to].kept.value <= offer {
        return Ok(None);
    }
    if last.from == last.to {
        return Ok(Some(number));
    }
    fall(vertices, fallen, last.to, offer, number);
    match settle(arcs, links, last.from, vertices, order, fallen)? {
        None => {
            let listed = fallen.as_slice();
            note_all(trail, vertices, listed);
            accept(vertices, listed);
            rest(vertices, order, listed);
            fallen.clear();
            Ok(None)
        }
        Some(closing) => Ok(Some(closing)),
    }
}
