// What vertices were, to go back to.
ghost use Rattle.std.specs.Prelude.{◌≡◌, ℕ, [], ◌∷◌, ◌++◌, ◌+◌, ◌<◌, ◌≤◌, take, drop, length, vec_capacity};
ghost use Rattle.lq_prover_differences.specs.Passes.{vertex_at, AllBelow, AtRest};
ghost use Rattle.lq_prover_differences.specs.Links.{kept};
ghost use Rattle.lq_prover_differences.specs.Trail.{notes_of, first_of, NotesBelow};

use crate::vertex::{Kept, Vertex};

/// What was kept of a vertex when it was noted.
#[derive(Clone, Copy)]
pub(crate) struct Note {
    pub(crate) vertex: usize,
    pub(crate) kept: Kept,
}

/// Notes what is kept of these vertices, before they change.
pub(crate) fn note_all(trail: &mut Vec<Note>, vertices: &[Vertex], places: &[usize])
    requires inside { AllBelow places.now (length vertices.now) }
    requires room { length trail.old.items + length places.now ≤ vec_capacity trail.old }
    ensures all { trail.new.items ≡ trail.old.items ++ notes_of (kept (vertex_at vertices.now)) places.now }
    ensures count { length trail.new.items ≡ length trail.old.items + length places.now }
    ensures capacity { vec_capacity trail.new ≡ vec_capacity trail.old }
{
    for place in places {
        let vertex = *place;
        trail.push_reserved(Note {
            vertex,
            kept: vertices[vertex].kept,
        });
    }
}

/// Gives back to its vertex what was noted.
fn give_back(vertices: &mut [Vertex], note: Note)
    requires { note.vertex < length vertices.old }
    ensures back { (v : ℕ) → kept (vertex_at vertices.new) v
        ≡ first_of (note ∷ []) v (kept (vertex_at vertices.old) v) }
    ensures rest { (order : ℕ → ℕ) → ((v : ℕ) → AtRest (vertex_at vertices.old) order v)
        → (v : ℕ) → AtRest (vertex_at vertices.new) order v }
{
    let vertex = &mut vertices[note.vertex];
    vertex.kept = note.kept;
    vertex.next = note.kept.value;
}

/// Gives back to vertices what was noted of them, the last first, until this many notes are left.
pub(crate) fn undo(vertices: &mut [Vertex], trail: &mut Vec<Note>, to: usize)
    requires within { to ≤ length trail.old.items }
    requires inside { NotesBelow trail.old.items (length vertices.old) }
    ensures trail { trail.new.items ≡ take to trail.old.items }
    ensures capacity { vec_capacity trail.new ≡ vec_capacity trail.old }
    ensures back { (v : ℕ) → kept (vertex_at vertices.new) v
        ≡ first_of (drop to trail.old.items) v (kept (vertex_at vertices.old) v) }
    ensures rest { (order : ℕ → ℕ) → ((v : ℕ) → AtRest (vertex_at vertices.old) order v)
        → (v : ℕ) → AtRest (vertex_at vertices.new) order v }
{
    while trail.len() > to {
        if let Some(note) = trail.pop() {
            give_back(vertices, note);
        }
    }
}
