// Pure expressions. They are read by recursion into all parts, whose frames are kept small.
ghost use Rattle.std.specs.Prelude.{◌≡◌, IfOk};
ghost use Rattle.lq_meaning_normal_tree.specs.AtomView.{atom_node_view, atom_view, operator_of};
ghost use Rattle.lq_refined_rules.specs.Checks.Tree.{Pure as PureTree};
ghost use Rattle.lq_refined_templates.specs.Programs.PureView.{pure_view, pures_view, ring_view, use_view};
ghost use Rattle.lq_refined_templates.specs.Points.Pure.{arithmetic_of};

use crate::reading::state::State;
use crate::visibility::Notes;
use lq_base_names::Binder;
use lq_meaning_normal_tree::{Atom, AtomNode, RingOp};
use lq_refined_templates::programs::{Point, Pure, Use};
use std::alloc::AllocError;

// A sum, a difference or a product.
fn ring_of(op: RingOp) -> lq_refined_templates::programs::RingOp
    ensures { (a b : PureTree) → ring_view result a b ≡ arithmetic_of (operator_of op) a b }
{
    match op {
        RingOp::Add => lq_refined_templates::programs::RingOp::Add,
        RingOp::Sub => lq_refined_templates::programs::RingOp::Sub,
        RingOp::Mul => lq_refined_templates::programs::RingOp::Mul,
    }
}

impl State {
    ghost use Rattle.std.specs.Prelude.{All, length};
    ghost use Rattle.lq_meaning_normal_tree.specs.BlockView.{atoms_view};
    ghost use Rattle.lq_refined_templates.specs.Points.Annotation.{arguments_at};
    ghost use Rattle.lq_types_table.specs.Heads.{each};
    ghost use Rattle.lq_types_table.specs.Nodes.{at as type_at};
    ghost use Rattle.lq_generate_reading.specs.Visibility.Notes.{annotation_view, types_in};
    ghost use Rattle.lq_generate_reading.specs.Reading.Pures.{pair_read, pure_form_read, pure_read, pures_read, triple_read, use_read, variable_read};
    ghost use Rattle.lq_generate_reading.specs.Reading.State.{Reads, Stands};

    // A use of a name at a node.
    pub(crate) fn use_at(
        &mut self,
        notes: &Notes<'_>,
        node: u32,
        name: Binder,
    ) -> Result<Use, AllocError>
        requires { Stands notes.now self.old }
        ensures { IfOk result (λ u. Reads notes.now self.old self.new (use_view u) (use_read notes.now self.old node name.0)) }
    {
        match notes.arguments_at(node, name) {
            Some(types) => {
                let scope = self.scope_at(notes, node)?;
                let types = Vec::from_slice(self.alloc, types)?;
                let point = self.put(notes, Point::Each(scope, types))?;
                Ok(Use {
                    name,
                    type_arguments: Some(point),
                })
            }
            None => Ok(Use {
                name,
                type_arguments: None,
            }),
        }
    }

    // An operand that is a variable.
    pub(crate) fn variable(&mut self, notes: &Notes<'_>, atom: &Atom) -> Result<Use, AllocError>
        requires { Stands notes.now self.old }
        ensures { IfOk result (λ u. Reads notes.now self.old self.new (use_view u) (variable_read notes.now self.old (atom_view atom.now))) }
    {
        match atom.node {
            AtomNode::Use(name) => {
                let used = self.use_at(notes, atom.id, name)?;
                Ok(used)
            }
            _ => Ok(Use {
                name: Binder(0),
                type_arguments: None,
            }),
        }
    }

    // A pure expression.
    #[cycle(pure)]
    pub(crate) fn pure(&mut self, notes: &Notes<'_>, atom: &Atom) -> Result<Pure, AllocError>
        requires { Stands notes.now self.old }
        ensures { IfOk result (λ e. Reads notes.now self.old self.new (pure_view e) (pure_read notes.now self.old (atom_view atom.now))) }
    {
        let pure = self.pure_node(notes, atom.id, &atom.node)?;
        Ok(pure)
    }

    // The same of a node with this number.
    #[cycle(pure)]
    pub(crate) fn pure_node(
        &mut self,
        notes: &Notes<'_>,
        id: u32,
        node: &AtomNode,
    ) -> Result<Pure, AllocError>
        requires { Stands notes.now self.old }
        ensures { IfOk result (λ e. Reads notes.now self.old self.new (pure_view e) (pure_form_read notes.now self.old id (atom_node_view node.now))) }
    {
        match node {
            AtomNode::Whole(number) => Ok(Pure::Whole(*number)),
            AtomNode::Flag(flag) => Ok(Pure::Flag(*flag)),
            AtomNode::Unit => Ok(Pure::Unit),
            AtomNode::Use(name) => {
                let used = self.use_at(notes, id, *name)?;
                Ok(Pure::Use(used))
            }
            AtomNode::Ring(op, a, b) => {
                let (a, b) = self.boxes(notes, a, b)?;
                Ok(Pure::Ring(ring_of(*op), a, b))
            }
            AtomNode::Neg(a) => {
                let a = self.boxed(notes, a)?;
                Ok(Pure::Neg(a))
            }
            AtomNode::Compare(op, a, b) => {
                let (a, b) = self.boxes(notes, a, b)?;
                Ok(Pure::Compare(*op, a, b))
            }
            AtomNode::Not(a) => {
                let a = self.boxed(notes, a)?;
                Ok(Pure::Not(a))
            }
            AtomNode::And(a, b) => {
                let (a, b) = self.boxes(notes, a, b)?;
                Ok(Pure::And(a, b))
            }
            AtomNode::Or(a, b) => {
                let (a, b) = self.boxes(notes, a, b)?;
                Ok(Pure::Or(a, b))
            }
            AtomNode::Length(a) => {
                let a = self.boxed(notes, a)?;
                Ok(Pure::Length(a))
            }
        }
    }

    // The same in a box.
    #[cycle(pure)]
    fn boxed(&mut self, notes: &Notes<'_>, atom: &Atom) -> Result<Box<Pure>, AllocError>
        requires { Stands notes.now self.old }
        ensures { IfOk result (λ e. Reads notes.now self.old self.new (pure_view e.value) (pure_read notes.now self.old (atom_view atom.now))) }
    {
        let pure = self.pure(notes, atom)?;
        let boxed = Box::new(self.alloc, pure)?;
        Ok(boxed)
    }

    // Two pure expressions in boxes.
    #[cycle(pure)]
    fn boxes(
        &mut self,
        notes: &Notes<'_>,
        first: &Atom,
        second: &Atom,
    ) -> Result<(Box<Pure>, Box<Pure>), AllocError>
        requires { Stands notes.now self.old }
        ensures { IfOk result (λ es. Reads notes.now self.old self.new (pure_view es.0.value, pure_view es.1.value)
            (pair_read notes.now self.old (atom_view first.now) (atom_view second.now))) }
    {
        let first = self.boxed(notes, first)?;
        let second = self.boxed(notes, second)?;
        Ok((first, second))
    }

    // Two operands.
    pub(crate) fn two(
        &mut self,
        notes: &Notes<'_>,
        first: &Atom,
        second: &Atom,
    ) -> Result<(Pure, Pure), AllocError>
        requires { Stands notes.now self.old }
        ensures { IfOk result (λ es. Reads notes.now self.old self.new (pure_view es.0, pure_view es.1)
            (pair_read notes.now self.old (atom_view first.now) (atom_view second.now))) }
    {
        let first = self.pure(notes, first)?;
        let second = self.pure(notes, second)?;
        Ok((first, second))
    }

    // Three operands.
    pub(crate) fn three(
        &mut self,
        notes: &Notes<'_>,
        first: &Atom,
        second: &Atom,
        third: &Atom,
    ) -> Result<(Pure, Pure, Pure), AllocError>
        requires { Stands notes.now self.old }
        ensures { IfOk result (λ es. Reads notes.now self.old self.new (pure_view es.0, pure_view es.1, pure_view es.2)
            (triple_read notes.now self.old (atom_view first.now) (atom_view second.now) (atom_view third.now))) }
    {
        let first = self.pure(notes, first)?;
        let (second, third) = self.two(notes, second, third)?;
        Ok((first, second, third))
    }

    // Operands in a row.
    pub(crate) fn pures(
        &mut self,
        notes: &Notes<'_>,
        atoms: &[Atom],
    ) -> Result<Vec<Pure>, AllocError>
        requires { Stands notes.now self.old }
        ensures { IfOk result (λ es. Reads notes.now self.old self.new (pures_view es.items) (pures_read notes.now self.old (atoms_view atoms.now))) }
    {
        let mut made = Vec::new(self.alloc);
        for atom in atoms {
            let pure = self.pure(notes, atom)?;
            made.push(pure)?;
        }
        Ok(made)
    }
}
