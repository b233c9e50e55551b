// Definitions of a program, one after another.
ghost use Rattle.std.specs.Prelude.{◌≡◌, ◌∷◌, [], All, IfOk, OnOk, drop, length, map};
ghost use Rattle.lq_meaning_normal_tree.specs.BlockView.{block_view, definition_form_view, definition_view, definitions_view};
ghost use Rattle.lq_refined_instances.specs.Views.{scopes_view};
ghost use Rattle.lq_base_names.specs.declared.name.Binder.{Binder};
ghost use Rattle.lq_refined_templates.specs.Programs.BlockView as made;
ghost use Rattle.lq_refined_templates.specs.Programs.PointView.{points_view};
ghost use Rattle.lq_refined_templates.specs.Points.Reading.{program_of};
ghost use Rattle.lq_text_tree.specs.Items.{let_of};
ghost use Rattle.lq_text_tree.specs.Pattern as pattern;
ghost use Rattle.lq_text_tree.specs.PatternView.{pat_view};
ghost use Rattle.lq_generate_reading.specs.Visibility.Notes.{annotation_view, types_in, IsRight};
ghost use Rattle.lq_generate_reading.specs.Visibility.Scopes.{Longer};
ghost use Rattle.lq_generate_reading.specs.Reading.Items.{defined_point_read, items_onto, program_read, ItemReads};
ghost use Rattle.lq_generate_reading.specs.Reading.There.{IsThere};

use crate::reading::functions::number_of;
use crate::reading::state::State;
use crate::visibility::{Bound, Notes};
use lq_base_names::{Binder, Place};
use lq_meaning_normal_tree::{Block, Definition, DefinitionNode};
use lq_refined_instances::Scopes;
use lq_refined_templates::programs::{Item, Operation, Point};
use lq_text_tree::{Pat, PatNode};
use std::alloc::{AllocError, Global};

/// A program as the typing rules have it, with its points in the order of the text, and the scopes of which these speak.
#[derive(Drop)]
pub struct Reading {
    pub items: Vec<Item>,
    pub points: Vec<Point>,
    pub scopes: Scopes,
}

impl State {
    ghost use Rattle.lq_generate_reading.specs.Reading.State.{Reads, Stands};
    ghost use Rattle.lq_generate_reading.specs.Reading.Through.{Through};

    // The point of a definition: that of the function that its block ends in, or a new one of the block's number.
    fn defined_point(
        &mut self,
        notes: &Notes<'_>,
        name: Binder,
        number: u32,
        block: &lq_refined_templates::programs::Block,
    ) -> Result<usize, AllocError>
        requires { Stands notes.now self.old }
        ensures { IfOk result (λ k. Reads notes.now self.old self.new k (defined_point_read notes.now self.old name.0 number (made.block_view block.now))) }
    {
        match &block.last {
            Operation::Fun(point, _, _) => Ok(*point),
            _ => {
                let point = self.template(notes, false, number, notes.type_of_binder(name))?;
                Ok(point)
            }
        }
    }

    // A definition of a name, which is bound from here on.
    fn defined(
        &mut self,
        notes: &Notes<'_>,
        place: Place,
        name: Binder,
        block: &Block,
    ) -> Result<Item, AllocError>
        requires { Stands notes.now self.old }
        ensures { IfOk result (λ i. ItemReads notes.now self.old self.new (made.item_view i)
            (let_of (pattern.pattern place (pattern.bind name.0)) (block_view block.now))) }
    {
        let made = self.block(notes, false, block)?;
        let point = self.defined_point(notes, name, number_of(block), &made)?;
        self.bind(notes, name, None)?;
        Ok(Item::Define(name, place, point, made))
    }

    // A definition of a pattern.
    fn value(
        &mut self,
        notes: &Notes<'_>,
        pattern: &Pat<Binder>,
        block: &Block,
    ) -> Result<Item, AllocError>
        requires { Stands notes.now self.old }
        ensures { IfOk result (λ i. ItemReads notes.now self.old self.new (made.item_view i)
            (let_of (pat_view Binder (λ x. x.0) pattern.now) (block_view block.now))) }
    {
        match &pattern.node {
            PatNode::Bind(name) => {
                let item = self.defined(notes, pattern.place, *name, block)?;
                Ok(item)
            }
            PatNode::Unit => {
                let made = self.block(notes, true, block)?;
                Ok(Item::RunUnit(made))
            }
            PatNode::Any => {
                let made = self.block(notes, false, block)?;
                Ok(Item::RunAny(made))
            }
            PatNode::Tuple(_) => {
                let made = self.block(notes, false, block)?;
                Ok(Item::RunAny(made))
            }
            PatNode::Build(_, _, _) => {
                let made = self.block(notes, false, block)?;
                Ok(Item::RunAny(made))
            }
        }
    }

    // A definition.
    fn item(&mut self, notes: &Notes<'_>, definition: &Definition) -> Result<Item, AllocError>
        requires { Stands notes.now self.old }
        ensures { IfOk result (λ i. ItemReads notes.now self.old self.new (made.item_view i) (definition_form_view definition.now.node)) }
    {
        match &definition.node {
            DefinitionNode::Value(pattern, block) => {
                let item = self.value(notes, pattern, block)?;
                Ok(item)
            }
            DefinitionNode::Function(name, function) => {
                self.bind(notes, *name, None)?;
                let (point, body) = self.recursive(notes, *name, function)?;
                let parameter = function.parameter.binder;
                Ok(Item::DefineFunction(*name, point, parameter, Box::into_inner(body)))
            }
        }
    }

    // Definitions in order, whose names stay bound.
    fn items(
        &mut self,
        notes: &Notes<'_>,
        definitions: &[Definition],
    ) -> Result<Vec<Item>, AllocError>
        requires { Stands notes.now self.old }
        ensures { IfOk result (λ is. Through notes.now self.old self.new (items_onto is.items)
            (program_read notes.now self.old (definitions_view definitions.now)) (program_read notes.now self.new [])) }
    {
        let mut made = Vec::new(self.alloc);
        for definition in definitions {
            let item = self.item(notes, definition)?;
            made.push(item)?;
        }
        Ok(made)
    }
}

/// Reads a normal program as the typing rules have it, with its points. The scopes of the points come behind these.
pub fn read(
    alloc: Global,
    definitions: &[Definition],
    notes: &Notes<'_>,
    scopes: Scopes,
) -> Result<Reading, AllocError>
    requires { IsRight notes.now }
    ensures program { IfOk result (λ r. made.program_view r.items.items
        ≡ (program_of (annotation_view notes.now) (definitions_view definitions.now)).read) }
    ensures points { IfOk result (λ r. points_view (scopes_view r.scopes) (types_in notes.now) r.points.items
        ≡ (program_of (annotation_view notes.now) (definitions_view definitions.now)).points) }
    ensures there { IfOk result (λ r. All (IsThere (length (scopes_view r.scopes)) (length (types_in notes.now))) r.points.items) }
    ensures grown { IfOk result (λ r. Longer (scopes_view scopes) (scopes_view r.scopes)) }
{
    let mut state = State {
        alloc,
        scopes,
        bound: Bound::new(alloc),
        points: Vec::new(alloc),
    };
    let items = state.items(notes, definitions)?;
    Ok(Reading {
        items,
        points: state.points,
        scopes: state.scopes,
    })
}
