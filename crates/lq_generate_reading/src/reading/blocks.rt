// Blocks, with what stands in them.
ghost use Rattle.std.specs.Prelude.{◌≡◌, ◌<◌, ◌≤◌, ◌∷◌, ◌++◌, [], true, cond, IfOk, OnOk, drop, length, map, take};
ghost use Rattle.lq_meaning_normal_tree.specs.AtomView.{atom_view};
ghost use Rattle.lq_meaning_normal_tree.specs.BlockView.{binding_view, block_view, branch_view, local_view, operation_node_view, recursive_view};
ghost use Rattle.lq_refined_templates.specs.Programs.BlockView as made;
ghost use Rattle.lq_refined_templates.specs.Programs.PureView.{pure_view, use_view};
ghost use Rattle.lq_text_tree.specs.Tree as form;
ghost use Rattle.lq_text_tree.specs.TreeView.{cases_of};

use crate::reading::functions::{function_names, type_of_match};
use crate::reading::idling::idle_from;
use crate::reading::patterns::{is_checked, pattern_names, pattern_of};
use crate::reading::state::State;
use crate::visibility::Notes;
use lq_base_names::Binder;
use lq_meaning_normal_tree::{
    Atom, Binding, Block, Bound, Branch, Local, Operation, OperationNode, Recursive,
};
use lq_refined_templates::programs::{Arm, Pure, Use};
use std::alloc::AllocError;

impl State {
    ghost use Rattle.lq_refined_templates.specs.Points.Reading.{block_of, expecting, function_names};
    ghost use Rattle.lq_refined_templates.specs.Points.Point.{whole};
    ghost use Rattle.lq_refined_templates.specs.Points.Seen.{scope_at, seen};
    ghost use Rattle.lq_types_table.specs.Nodes.{at as type_at};
    ghost use Rattle.lq_generate_reading.specs.Visibility.Notes.{annotation_view, types_in};
    ghost use Rattle.lq_generate_reading.specs.Reading.Blocks.{arm_read, arms_read, block_read, body_read, choice_head_read, match_head_read, own_read, patterns_view, recursive_read, Binds, BindsAll};
    ghost use Rattle.lq_generate_reading.specs.Reading.Names.{Idles};
    ghost use Rattle.lq_generate_reading.specs.Reading.State.{count_of, noted, seen_of, Reads, Stands};

    // Turns the points from a mark on into idle ones, unless they stay.
    fn settle(&mut self, notes: &Notes<'_>, mark: usize, stay: bool) -> Result<(), AllocError>
        requires stands { Stands notes.now self.old }
        requires mark { mark ≤ count_of self.old }
        ensures { OnOk result (Idles notes.now self.old self.new mark stay) }
    {
        let _notes = notes;
        if !stay {
            idle_from(self.alloc, &mut self.points, mark)?;
        }
        Ok(())
    }

    // The point of a function of this node and type, written with these names of its arguments.
    fn function_point(
        &mut self,
        notes: &Notes<'_>,
        idle: bool,
        node: u32,
        parameter: Local,
        body: &Block,
        number: u32,
    ) -> Result<usize, AllocError>
        requires stands { Stands notes.now self.old }
        requires there { number < length (types_in notes.now) }
        ensures { IfOk result (λ k. Reads notes.now self.old self.new k (noted (count_of self.old)
            (expecting idle (whole (scope_at (annotation_view notes.now) (seen_of self.old) node)
            (function_names (annotation_view notes.now) (local_view parameter) (block_view body.now)) (type_at (types_in notes.now) number))))) }
    {
        let names = function_names(self.alloc, notes, parameter.binder, body)?;
        let point = self.whole(notes, idle, node, names, number)?;
        Ok(point)
    }

    // The point of a match and the variable that it is on, whose node has this number.
    fn match_head(
        &mut self,
        notes: &Notes<'_>,
        idle: bool,
        id: u32,
        branches: &[Branch],
        used: u32,
        local: Local,
    ) -> Result<(usize, Use), AllocError>
        requires { Stands notes.now self.old }
        ensures { IfOk result (λ r. Reads notes.now self.old self.new (r.0, use_view r.1) (match_head_read notes.now self.old idle id
            (form.tree used local.place (form.use_of local.binder.0)) (cases_of (map branch_view branches.now)))) }
    {
        let number = type_of_match(notes, id, branches);
        let point = self.template(notes, idle, id, number)?;
        let used = self.use_at(notes, used, local.binder)?;
        Ok((point, used))
    }

    // The point of an `if`, and its condition.
    fn choice_head(
        &mut self,
        notes: &Notes<'_>,
        idle: bool,
        id: u32,
        condition: &Atom,
    ) -> Result<(usize, Pure), AllocError>
        requires { Stands notes.now self.old }
        ensures { IfOk result (λ r. Reads notes.now self.old self.new (r.0, pure_view r.1)
            (choice_head_read notes.now self.old idle id (atom_view condition.now))) }
    {
        let point = self.own(notes, idle, id)?;
        let condition = self.pure(notes, condition)?;
        Ok((point, condition))
    }

    // A block, and whether a type is expected of its last operation.
    #[cycle(block)]
    pub(crate) fn block(
        &mut self,
        notes: &Notes<'_>,
        expected: bool,
        block: &Block,
    ) -> Result<lq_refined_templates::programs::Block, AllocError>
        requires { Stands notes.now self.old }
        ensures { IfOk result (λ b. Reads notes.now self.old self.new (made.block_view b)
            (block_read notes.now self.old expected (block_view block.now))) }
    {
        let depth = self.depth();
        let bindings = self.bindings(notes, &block.bindings)?;
        let last = self.operation(notes, expected, &block.last)?;
        self.back_to(notes, depth);
        Ok(lq_refined_templates::programs::Block {
            bindings,
            place: block.last.place,
            last,
        })
    }

    // The same in a box.
    #[cycle(block)]
    fn boxed_block(
        &mut self,
        notes: &Notes<'_>,
        block: &Block,
    ) -> Result<Box<lq_refined_templates::programs::Block>, AllocError>
        requires { Stands notes.now self.old }
        ensures { IfOk result (λ b. Reads notes.now self.old self.new (made.block_view b.value)
            (block_read notes.now self.old true (block_view block.now))) }
    {
        let made = self.block(notes, true, block)?;
        let boxed = Box::new(self.alloc, made)?;
        Ok(boxed)
    }

    // Bindings in order, whose names stay bound.
    #[cycle(block)]
    fn bindings(
        &mut self,
        notes: &Notes<'_>,
        bindings: &[Binding],
    ) -> Result<Vec<lq_refined_templates::programs::Binding>, AllocError>
        requires { Stands notes.now self.old }
        ensures { IfOk result (λ bs. BindsAll notes.now self.old self.new (made.bindings_view bs.items) (map binding_view bindings.now)) }
    {
        let mut made = Vec::new(self.alloc);
        for binding in bindings {
            let one = self.binding(notes, binding)?;
            made.push(one)?;
        }
        Ok(made)
    }

    // A binding, whose name stays bound.
    #[cycle(block)]
    fn binding(
        &mut self,
        notes: &Notes<'_>,
        binding: &Binding,
    ) -> Result<lq_refined_templates::programs::Binding, AllocError>
        requires { Stands notes.now self.old }
        ensures { IfOk result (λ b. Binds notes.now self.old self.new (made.binding_view b) (binding_view binding.now)) }
    {
        match &binding.bound {
            Bound::Value(local, operation) => {
                let made = self.operation(notes, false, operation)?;
                self.bind(notes, local.binder, Some(binding.id))?;
                Ok(lq_refined_templates::programs::Binding::Value(
                    local.binder,
                    operation.place,
                    made,
                ))
            }
            Bound::Function(name, function) => {
                self.bind(notes, *name, Some(binding.id))?;
                let (point, body) = self.recursive(notes, *name, function)?;
                let parameter = function.parameter.binder;
                Ok(lq_refined_templates::programs::Binding::Function(*name, point, parameter, body))
            }
        }
    }

    // The point and the body of a recursive function whose name is bound.
    #[cycle(block)]
    pub(crate) fn recursive(
        &mut self,
        notes: &Notes<'_>,
        name: Binder,
        function: &Recursive,
    ) -> Result<(usize, Box<lq_refined_templates::programs::Block>), AllocError>
        requires { Stands notes.now self.old }
        ensures { IfOk result (λ r. Reads notes.now self.old self.new (r.0, made.block_view r.1.value)
            (recursive_read notes.now self.old name.0 (recursive_view function.now))) }
    {
        let number = notes.type_of_binder(name);
        let parameter = function.parameter;
        let point = self.function_point(
            notes,
            false,
            function.id,
            parameter,
            &function.body,
            number,
        )?;
        let body = self.body(notes, parameter.binder, &function.body)?;
        Ok((point, body))
    }

    // A body, where its parameter is bound.
    #[cycle(block)]
    fn body(
        &mut self,
        notes: &Notes<'_>,
        parameter: Binder,
        body: &Block,
    ) -> Result<Box<lq_refined_templates::programs::Block>, AllocError>
        requires { Stands notes.now self.old }
        ensures { IfOk result (λ b. Reads notes.now self.old self.new (made.block_view b.value)
            (body_read notes.now self.old parameter.0 (block_view body.now))) }
    {
        let depth = self.depth();
        self.bind(notes, parameter, None)?;
        let made = self.boxed_block(notes, body)?;
        self.back_to(notes, depth);
        Ok(made)
    }

    // An operation, and whether a type is expected of it.
    #[cycle(block)]
    fn operation(
        &mut self,
        notes: &Notes<'_>,
        expected: bool,
        operation: &Operation,
    ) -> Result<lq_refined_templates::programs::Operation, AllocError>
        requires { Stands notes.now self.old }
        ensures { IfOk result (λ o. Reads notes.now self.old self.new (made.operation_view o)
            (own_read notes.now self.old expected operation.now.id (operation_node_view operation.now.node))) }
    {
        let id = operation.id;
        match &operation.node {
            OperationNode::Fun(local, body) => {
                let number = notes.type_of(id);
                let point = self.function_point(notes, expected, id, *local, body, number)?;
                let body = self.body(notes, local.binder, body)?;
                Ok(lq_refined_templates::programs::Operation::Fun(point, local.binder, body))
            }
            OperationNode::If(condition, then, otherwise) => {
                let (point, condition) = self.choice_head(notes, expected, id, condition)?;
                let then = self.boxed_block(notes, then)?;
                let otherwise = self.boxed_block(notes, otherwise)?;
                Ok(lq_refined_templates::programs::Operation::If(point, condition, then, otherwise))
            }
            OperationNode::Match(used, local, branches) => {
                let (point, used) = self.match_head(notes, expected, id, branches, *used, *local)?;
                let arms = self.arms(notes, branches)?;
                Ok(lq_refined_templates::programs::Operation::Match(point, used, arms))
            }
            node => {
                let made = self.simple(notes, id, node)?;
                Ok(made)
            }
        }
    }

    // Arms in order.
    #[cycle(block)]
    fn arms(&mut self, notes: &Notes<'_>, branches: &[Branch]) -> Result<Vec<Arm>, AllocError>
        requires { Stands notes.now self.old }
        ensures { IfOk result (λ as_. Reads notes.now self.old self.new (made.arms_view as_.items)
            (arms_read notes.now self.old [] (cases_of (map branch_view branches.now)))) }
    {
        let mut made = Vec::new(self.alloc);
        for branch in branches {
            let arm = self.arm(notes, branch, &made)?;
            made.push(arm)?;
        }
        Ok(made)
    }

    // An arm behind others. The points of one that no rule checks are idle.
    #[cycle(block)]
    fn arm(&mut self, notes: &Notes<'_>, branch: &Branch, before: &[Arm]) -> Result<Arm, AllocError>
        requires { Stands notes.now self.old }
        ensures { IfOk result (λ a. Reads notes.now self.old self.new (made.arm_view a)
            (arm_read notes.now self.old (patterns_view before.now) (branch_view branch.now))) }
    {
        let pattern = pattern_of(self.alloc, &branch.pattern)?;
        let checked = is_checked(before, &pattern);
        let mark = self.count();
        let depth = self.depth();
        self.bind_all(notes, pattern_names(&pattern))?;
        let body = self.block(notes, true, &branch.body)?;
        self.back_to(notes, depth);
        self.settle(notes, mark, checked)?;
        Ok(Arm { pattern, body })
    }
}
