// Points of operations.
ghost use Rattle.std.specs.Prelude.{◌≡◌, ◌<◌, [], IfOk, length};

use crate::reading::state::State;
use crate::visibility::Notes;
use lq_meaning_normal_tree::Atom;
use lq_refined_templates::programs::Point;
use std::alloc::AllocError;

impl State {
    ghost use Rattle.lq_meaning_normal_tree.specs.BlockView.{atoms_view};
    ghost use Rattle.lq_refined_templates.specs.Points.Annotation.{element_type};
    ghost use Rattle.lq_refined_templates.specs.Points.Point as point;
    ghost use Rattle.lq_refined_templates.specs.Points.Reading.{built, expecting};
    ghost use Rattle.lq_refined_templates.specs.Points.Seen.{scope_at};
    ghost use Rattle.lq_types_table.specs.Nodes.{at as type_at};
    ghost use Rattle.lq_generate_reading.specs.Visibility.Notes.{annotation_view, types_in};
    ghost use Rattle.lq_generate_reading.specs.Reading.State.{count_of, noted, seen_of, Reads, Stands};

    // A point with a template of a type at a node; an idle one, where a type is expected.
    pub(crate) fn template(
        &mut self,
        notes: &Notes<'_>,
        idle: bool,
        node: u32,
        number: u32,
    ) -> Result<usize, AllocError>
        requires stands { Stands notes.now self.old }
        requires there { number < length (types_in notes.now) }
        ensures { IfOk result (λ k. Reads notes.now self.old self.new k (noted (count_of self.old)
            (expecting idle (point.whole (scope_at (annotation_view notes.now) (seen_of self.old) node) [] (type_at (types_in notes.now) number))))) }
    {
        let point = self.whole(notes, idle, node, Vec::new(self.alloc), number)?;
        Ok(point)
    }

    // The same of a node's own type.
    pub(crate) fn own(
        &mut self,
        notes: &Notes<'_>,
        idle: bool,
        node: u32,
    ) -> Result<usize, AllocError>
        requires { Stands notes.now self.old }
        ensures { IfOk result (λ k. Reads notes.now self.old self.new k (noted (count_of self.old)
            (expecting idle (point.whole (scope_at (annotation_view notes.now) (seen_of self.old) node) []
            ((annotation_view notes.now).types node))))) }
    {
        let point = self.template(notes, idle, node, notes.type_of(node))?;
        Ok(point)
    }

    // The same of the type of a node's elements.
    pub(crate) fn elements(&mut self, notes: &Notes<'_>, node: u32) -> Result<usize, AllocError>
        requires { Stands notes.now self.old }
        ensures { IfOk result (λ k. Reads notes.now self.old self.new k (noted (count_of self.old)
            (point.whole (scope_at (annotation_view notes.now) (seen_of self.old) node) []
            (element_type ((annotation_view notes.now).types node))))) }
    {
        let element = notes.element_type(notes.type_of(node));
        let point = self.template(notes, false, node, element)?;
        Ok(point)
    }

    // The point of the elements of an empty map.
    pub(crate) fn no_elements(&mut self, notes: &Notes<'_>, node: u32) -> Result<usize, AllocError>
        requires { Stands notes.now self.old }
        ensures { IfOk result (λ k. Reads notes.now self.old self.new k (noted (count_of self.old)
            (point.empty (scope_at (annotation_view notes.now) (seen_of self.old) node)
            (element_type ((annotation_view notes.now).types node))))) }
    {
        let element = notes.element_type(notes.type_of(node));
        let scope = self.scope_at(notes, node)?;
        let point = self.put(notes, Point::Empty(scope, element))?;
        Ok(point)
    }

    // The point of a constructor's value with these fields.
    pub(crate) fn built(
        &mut self,
        notes: &Notes<'_>,
        node: u32,
        fields: &[Atom],
    ) -> Result<usize, AllocError>
        requires { Stands notes.now self.old }
        ensures { IfOk result (λ k. Reads notes.now self.old self.new k (noted (count_of self.old)
            (built (scope_at (annotation_view notes.now) (seen_of self.old) node) ((annotation_view notes.now).types node)
            (atoms_view fields.now)))) }
    {
        let number = notes.type_of(node);
        let scope = self.scope_at(notes, node)?;
        match fields {
            [] => {
                let point = self.put(notes, Point::Constant(scope, number))?;
                Ok(point)
            }
            [_, ..] => {
                let point = self.put(notes, Point::Inner(scope, number))?;
                Ok(point)
            }
        }
    }
}
