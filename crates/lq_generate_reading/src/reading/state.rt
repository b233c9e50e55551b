// What is known while a program is read: the scopes, the names that are bound, and the points so far.
ghost use Rattle.std.specs.Prelude.{◌≡◌, ◌<◌, [], ◌∷◌, IfOk, length};

use crate::reading::idling::single;
use crate::visibility::{Bound, Notes};
use lq_base_names::Binder;
use lq_refined_instances::Scopes;
use lq_refined_templates::programs::Point;
use std::alloc::{AllocError, Global};

// The scopes, the names that are bound, and the points so far.
#[derive(Drop)]
pub(crate) struct State {
    pub(crate) alloc: Global,
    pub(crate) scopes: Scopes,
    pub(crate) bound: Bound,
    pub(crate) points: Vec<Point>,
}

impl State {
    ghost use Rattle.std.specs.Prelude.{map};
    ghost use Rattle.lq_refined_instances.specs.Scopes.{scope_in};
    ghost use Rattle.lq_refined_templates.specs.Points.Point as point;
    ghost use Rattle.lq_refined_templates.specs.Points.Pure.{without_points};
    ghost use Rattle.lq_refined_templates.specs.Points.Reading.{expecting};
    ghost use Rattle.lq_refined_templates.specs.Points.Seen.{scope_at};
    ghost use Rattle.lq_refined_templates.specs.Programs.PointView.{name_view, point_view};
    ghost use Rattle.lq_types_table.specs.Nodes.{at as type_at};
    ghost use Rattle.lq_generate_reading.specs.Visibility.Notes.{annotation_view, types_in};
    ghost use Rattle.lq_generate_reading.specs.Reading.State.{count_of, noted, scopes_of, seen_of, Reads, Stands};
    ghost use Rattle.lq_generate_reading.specs.Reading.There.{IsThere};

    // How many points there are.
    pub(crate) fn count(&self) -> usize
        ensures { result ≡ count_of self.now }
    {
        self.points.len()
    }

    // The scope that is visible at a node.
    pub(crate) fn scope_at(&mut self, notes: &Notes<'_>, node: u32) -> Result<u64, AllocError>
        requires { Stands notes.now self.old }
        ensures scope { IfOk result (λ s. scope_in (scopes_of self.new) s ≡ scope_at (annotation_view notes.now) (seen_of self.old) node) }
        ensures there { IfOk result (λ s. s < length (scopes_of self.new)) }
        ensures reads { IfOk result (λ s. Reads notes.now self.old self.new s (without_points s)) }
    {
        let scope = self
            .bound
            .scope_at(self.alloc, &mut self.scopes, notes, node)?;
        Ok(scope)
    }

    // Puts a point behind the others, and answers its number.
    pub(crate) fn put(&mut self, notes: &Notes<'_>, point: Point) -> Result<usize, AllocError>
        requires stands { Stands notes.now self.old }
        requires there { IsThere (length (scopes_of self.old)) (length (types_in notes.now)) point }
        ensures { IfOk result (λ k. Reads notes.now self.old self.new k
            (noted (count_of self.old) (point_view (scopes_of self.old) (types_in notes.now) point))) }
    {
        let _notes = notes;
        let number = self.points.len();
        self.points.push(point)?;
        Ok(number)
    }

    // A point with a template at a node, of a type, with the names of a function's arguments; an idle one, where a type is expected.
    pub(crate) fn whole(
        &mut self,
        notes: &Notes<'_>,
        idle: bool,
        node: u32,
        names: Vec<Option<Binder>>,
        number: u32,
    ) -> Result<usize, AllocError>
        requires stands { Stands notes.now self.old }
        requires there { number < length (types_in notes.now) }
        ensures { IfOk result (λ k. Reads notes.now self.old self.new k (noted (count_of self.old)
            (expecting idle (point.whole (scope_at (annotation_view notes.now) (seen_of self.old) node)
            (map name_view names.items) (type_at (types_in notes.now) number))))) }
    {
        if idle {
            let numbers = single(self.alloc, number)?;
            let point = self.put(notes, Point::Idle(numbers))?;
            return Ok(point);
        }
        let scope = self.scope_at(notes, node)?;
        let point = self.put(notes, Point::Whole(scope, names, number))?;
        Ok(point)
    }
}
