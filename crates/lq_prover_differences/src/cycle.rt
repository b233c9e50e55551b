// The negative cycle behind a pass that fails.
ghost use Rattle.std.specs.Prelude.{◌≡◌, ℕ, ◌<◌, length, vec_capacity};
ghost use Rattle.lq_prover_differences.specs.Passes.{vertex_at, order_at, AllInRange, IsStuck};
ghost use Rattle.lq_prover_differences.specs.Cycles.{IsNegativeCycle, ArePaired};

use crate::arc::Arc;
use crate::vertex::Vertex;

/// The tags of a closed walk whose costs sum to less than 0, and whether each row is read forwards: from the closing arc along the
/// arcs by which vertices fell, back to the vertex at the top. They take the place of what was found before.
pub(crate) fn cycle(
    found: &mut Vec<(u64, bool)>,
    arcs: &[Arc],
    vertices: &[Vertex],
    order: &[u64],
    closing: usize,
)
    requires in_range { AllInRange arcs.now (length vertices.now) }
    requires same { length order.now ≡ length vertices.now }
    requires paired { ArePaired arcs.now }
    requires stuck { (top : ℕ) × IsStuck arcs.now top closing (vertex_at vertices.now) (order_at order.now) }
    requires room { (v : ℕ) → order_at order.now v < vec_capacity found.old }
    ensures cycle { IsNegativeCycle arcs.now found.new.items }
    ensures capacity { vec_capacity found.new ≡ vec_capacity found.old }
{
    found.clear();
    let mut at = closing;
    'steps: loop {
        let arc = arcs[at];
        found.push_reserved((arc.tag, arc.forward));
        if order[arc.from] == 0 {
            return;
        }
        at = vertices[arc.from].parent;
    }
}
