// Nodes with a row of parts.
ghost use Rattle.std.specs.Prelude.{◌≡◌, suc, [], ◌∷◌, map, IfOk};
ghost use Rattle.lq_meaning_normal_tree.specs.AtomView.{atom_view};
ghost use Rattle.lq_text_tree.specs.TreeView.{scoped_view, trees_view};
ghost use Rattle.lq_meaning_normalize.specs.Pass.Views.{became, lets_of, row_of};
ghost use Rattle.lq_base_names.specs.declared.name.Binder.{Binder};
ghost use Rattle.lq_text_walk.specs.Walk.Shape.{listed};
ghost use Rattle.lq_text_walk.specs.Walk.View.{row_view};
ghost use Rattle.lq_meaning_normalize.specs.Normalize.Frames.{after_link, after_part, one_part, part_of_row, row_node, row_of_parts, MakesWhole};
ghost use Rattle.lq_meaning_normalize.specs.Normalize.Parts.{parts_left};
ghost use Rattle.lq_meaning_normalize.specs.Normalize.Work.{sizes, LeavesLess};

use crate::normalize::frames::{Label, Machine, Next, Step};
use crate::normalize::parts::Parts;
use crate::pass::{Normal, Pass};
use lq_base_names::Binder;
use lq_meaning_normal_tree::{Atom, OperationNode};
use lq_text_tree::{Expr, Exprs};
use lq_text_walk::walk::Row;
use std::alloc::AllocError;

// What stands for a part of a row: the items of a list literal are bound also where they are pure.
fn part_of_row(
    pass: &mut Pass,
    head: Row,
    part: &Expr<Binder>,
    normal: Normal,
) -> Result<Atom, AllocError>
    ensures { IfOk result (λ a. row_of pass.new (a ∷ []) ≡ one_part (part_of_row (row_view head) (scoped_view part.now) (became pass.old normal))) }
{
    match head {
        Row::ListOf => {
            let operation = normal.into_operation();
            let atom = pass.name(part.id, part.place, operation)?;
            Ok(atom)
        }
        Row::Tuple | Row::Build(_, _) | Row::Chain => {
            let atom = pass.operand(part, normal)?;
            Ok(atom)
        }
    }
}

// A node of these parts. A chain without parts fails.
fn row_of_parts(
    pass: &mut Pass,
    label: Label,
    head: Row,
    parts: Vec<Atom>,
) -> Result<Normal, AllocError>
    ensures { IfOk result (λ n. became pass.new n
        ≡ row_of_parts (row_view head) label.id label.place (row_of pass.old parts.items)) }
{
    let Label { id, place } = label;
    match head {
        Row::Tuple => Ok(Normal::operation(id, place, OperationNode::Tuple(parts))),
        Row::Build(c, held) => {
            let node = OperationNode::Build(c, held, parts);
            Ok(Normal::operation(id, place, node))
        }
        Row::ListOf => {
            let list = pass.literal(id, place, parts)?;
            Ok(Normal::Operation(list))
        }
        Row::Chain => Ok(Normal::operation(id, place, OperationNode::AssertFalse)),
    }
}

impl<'a> Machine<'a> {
    // A node with a row of parts: the first is next.
    pub(crate) fn enter_row(
        &mut self,
        label: Label,
        head: Row,
        all: &'a Exprs<Binder>,
    ) -> Result<Next<'a>, AllocError>
        ensures whole { IfOk result (λ n. MakesWhole self.old self.new n (row_node (row_view head) label.id label.place
            (lets_of self.old.pass) self.old.pass.next (listed (trees_view Binder (λ b. b.0) all.now)))) }
        ensures work { IfOk result (λ n. LeavesLess self.old self.new n
            (suc (sizes (listed (trees_view Binder (λ b. b.0) all.now))))) }
    {
        let mut parts = Parts { all, next: 0 };
        let first = parts.take();
        match (first, head) {
            (None, _) => {
                let none = Vec::new(self.pass.alloc);
                let made = row_of_parts(&mut self.pass, label, head, none)?;
                Ok(Next::Made(made))
            }
            (Some(first), Row::Chain) => {
                let next = self.go_on(label, Step::Chain(parts), first)?;
                Ok(next)
            }
            (Some(first), _) => {
                let none = Vec::new(self.pass.alloc);
                let next = self.go_on(label, Step::Row(head, first, parts, none), first)?;
                Ok(next)
            }
        }
    }

    // A part of a row is made.
    pub(crate) fn part(
        &mut self,
        label: Label,
        head: Row,
        part: &Expr<Binder>,
        mut parts: Parts<'a>,
        mut done: Vec<Atom>,
        normal: Normal,
    ) -> Result<Next<'a>, AllocError>
        ensures whole { IfOk result (λ n. MakesWhole self.old self.new n (after_part (row_view head) label.id label.place
            (map atom_view done.items) (scoped_view part.now) (parts_left parts.entry) (became self.old.pass normal))) }
        ensures work { IfOk result (λ n. LeavesLess self.old self.new n (suc (sizes (parts_left parts.entry)))) }
    {
        let atom = part_of_row(&mut self.pass, head, part, normal)?;
        done.push(atom)?;
        match parts.take() {
            Some(other) => {
                let next = self.go_on(label, Step::Row(head, other, parts, done), other)?;
                Ok(next)
            }
            None => {
                let made = row_of_parts(&mut self.pass, label, head, done)?;
                Ok(Next::Made(made))
            }
        }
    }

    // A part of a chain is made: it is bound where another one comes behind it.
    pub(crate) fn link(
        &mut self,
        label: Label,
        mut parts: Parts<'a>,
        normal: Normal,
    ) -> Result<Next<'a>, AllocError>
        ensures whole { IfOk result (λ n. MakesWhole self.old self.new n (after_link label.id label.place
            (parts_left parts.entry) (became self.old.pass normal))) }
        ensures work { IfOk result (λ n. LeavesLess self.old self.new n (suc (sizes (parts_left parts.entry)))) }
    {
        let operation = normal.into_operation();
        match parts.take() {
            Some(other) => {
                self.pass.bind_made(label.id, label.place, operation)?;
                let next = self.go_on(label, Step::Chain(parts), other)?;
                Ok(next)
            }
            None => Ok(Next::Made(Normal::Operation(operation))),
        }
    }
}
