// Operations over operands alone.
ghost use Rattle.std.specs.Prelude.{◌≡◌, IfOk};
ghost use Rattle.lq_meaning_normal_tree.specs.AtomView.{atom_view};
ghost use Rattle.lq_meaning_normal_tree.specs.BlockView.{atoms_view, operation_node_view, quotient_of};
ghost use Rattle.lq_refined_rules.specs.Checks.Tree.{Pure as PureTree};
ghost use Rattle.lq_refined_templates.specs.Programs.BlockView.{operation_view, quotient_view};
ghost use Rattle.lq_refined_templates.specs.Points.Reading.{quotient_of as quotient_tree};
ghost use Rattle.lq_text_tree.specs.Tree as form;
ghost use Rattle.lq_text_tree.specs.declared.expr.Arguments.{Arguments};

use crate::reading::state::State;
use crate::visibility::Notes;
use lq_base_names::Name;
use lq_meaning_normal_tree::{Atom, OperationNode, Quotient};
use lq_refined_templates::programs::{Operation, Pure};
use std::alloc::AllocError;

// A quotient that truncates, or its remainder.
fn quotient(op: Quotient) -> lq_refined_templates::programs::Quotient
    ensures { (a b : PureTree) → quotient_view result a b ≡ quotient_tree (quotient_of op) a b }
{
    match op {
        Quotient::Div => lq_refined_templates::programs::Quotient::Div,
        Quotient::Mod => lq_refined_templates::programs::Quotient::Mod,
    }
}

impl State {
    ghost use Rattle.lq_generate_reading.specs.Reading.Operations.{operation_read};
    ghost use Rattle.lq_generate_reading.specs.Reading.State.{Reads, Stands};

    // A constructor's value.
    fn build(
        &mut self,
        notes: &Notes<'_>,
        id: u32,
        name: Name,
        fields: &[Atom],
    ) -> Result<Operation, AllocError>
        requires { Stands notes.now self.old }
        ensures { IfOk result (λ o. (w : Arguments) → Reads notes.now self.old self.new (operation_view o)
            (operation_read notes.now self.old id (form.build name.0 w (atoms_view fields.now)))) }
    {
        let point = self.built(notes, id, fields)?;
        let fields = self.pures(notes, fields)?;
        Ok(Operation::Build(point, name, fields))
    }

    // `Array.make n e`
    fn make(
        &mut self,
        notes: &Notes<'_>,
        id: u32,
        count: &Atom,
        element: &Atom,
    ) -> Result<Operation, AllocError>
        requires { Stands notes.now self.old }
        ensures { IfOk result (λ o. Reads notes.now self.old self.new (operation_view o)
            (operation_read notes.now self.old id (form.make (atom_view count.now) (atom_view element.now)))) }
    {
        let point = self.elements(notes, id)?;
        let (count, element) = self.two(notes, count, element)?;
        Ok(Operation::Make(point, count, element))
    }

    // `a.(i)`
    fn fetch(
        &mut self,
        notes: &Notes<'_>,
        id: u32,
        array: &Atom,
        index: &Atom,
    ) -> Result<Operation, AllocError>
        requires { Stands notes.now self.old }
        ensures { IfOk result (λ o. Reads notes.now self.old self.new (operation_view o)
            (operation_read notes.now self.old id (form.fetch (atom_view array.now) (atom_view index.now)))) }
    {
        let _id = id;
        let array = self.variable(notes, array)?;
        let index = self.pure(notes, index)?;
        Ok(Operation::Fetch(array, index))
    }

    // `a.(i) <- e`
    fn store(
        &mut self,
        notes: &Notes<'_>,
        id: u32,
        array: &Atom,
        index: &Atom,
        element: &Atom,
    ) -> Result<Operation, AllocError>
        requires { Stands notes.now self.old }
        ensures { IfOk result (λ o. Reads notes.now self.old self.new (operation_view o)
            (operation_read notes.now self.old id (form.store (atom_view array.now) (atom_view index.now) (atom_view element.now)))) }
    {
        let _id = id;
        let array = self.variable(notes, array)?;
        let (index, element) = self.two(notes, index, element)?;
        Ok(Operation::Store(array, index, element))
    }

    // `Map.add k e m`
    fn map_add(
        &mut self,
        notes: &Notes<'_>,
        id: u32,
        key: &Atom,
        element: &Atom,
        map: &Atom,
    ) -> Result<Operation, AllocError>
        requires { Stands notes.now self.old }
        ensures { IfOk result (λ o. Reads notes.now self.old self.new (operation_view o)
            (operation_read notes.now self.old id (form.map_add (atom_view key.now) (atom_view element.now) (atom_view map.now)))) }
    {
        let point = self.own(notes, false, id)?;
        let (key, element, map) = self.three(notes, key, element, map)?;
        Ok(Operation::MapAdd(point, key, element, map))
    }

    // An operation over operands alone. Functions, branches and matches are none: each has blocks of its own.
    pub(crate) fn simple(
        &mut self,
        notes: &Notes<'_>,
        id: u32,
        node: &OperationNode,
    ) -> Result<Operation, AllocError>
        requires { Stands notes.now self.old }
        ensures { IfOk result (λ o. Reads notes.now self.old self.new (operation_view o)
            (operation_read notes.now self.old id (operation_node_view node.now))) }
    {
        match node {
            OperationNode::Pure(node) => {
                let pure = self.pure_node(notes, id, node)?;
                Ok(Operation::Pure(pure))
            }
            OperationNode::Tuple(parts) => {
                let parts = self.pures(notes, parts)?;
                Ok(Operation::Tuple(parts))
            }
            OperationNode::Build(name, _, fields) => {
                let made = self.build(notes, id, *name, fields)?;
                Ok(made)
            }
            OperationNode::Call(function, argument) => {
                let (function, argument) = self.two(notes, function, argument)?;
                Ok(Operation::Call(function, argument))
            }
            OperationNode::Divide(op, first, second) => {
                let (first, second) = self.two(notes, first, second)?;
                Ok(Operation::Divide(quotient(*op), first, second))
            }
            OperationNode::Assert(condition) => {
                let condition = self.pure(notes, condition)?;
                Ok(Operation::Assert(condition))
            }
            OperationNode::AssertFalse => {
                let point = self.own(notes, false, id)?;
                Ok(Operation::AssertFalse(point))
            }
            OperationNode::Make(count, element) => {
                let made = self.make(notes, id, count, element)?;
                Ok(made)
            }
            OperationNode::Fetch(array, index) => {
                let made = self.fetch(notes, id, array, index)?;
                Ok(made)
            }
            OperationNode::Store(array, index, element) => {
                let made = self.store(notes, id, array, index, element)?;
                Ok(made)
            }
            OperationNode::Print(number) => {
                let number = self.pure(notes, number)?;
                Ok(Operation::Print(number))
            }
            OperationNode::Read(operand) => {
                let operand = self.pure(notes, operand)?;
                Ok(Operation::Read(operand))
            }
            OperationNode::MapEmpty => {
                let point = self.no_elements(notes, id)?;
                Ok(Operation::MapEmpty(point))
            }
            OperationNode::MapAdd(key, element, map) => {
                let made = self.map_add(notes, id, key, element, map)?;
                Ok(made)
            }
            OperationNode::MapFind(key, map) => {
                let (key, map) = self.two(notes, key, map)?;
                Ok(Operation::MapFind(key, map))
            }
            OperationNode::Fun(_, _) => Ok(Operation::Pure(Pure::Unit)),
            OperationNode::If(_, _, _) => Ok(Operation::Pure(Pure::Unit)),
            OperationNode::Match(_, _, _) => Ok(Operation::Pure(Pure::Unit)),
        }
    }
}
