// What goes on behind the parts of a node with one, two or three parts.
ghost use Rattle.std.specs.Prelude.{◌≡◌, ◌&&◌, ◌+◌, [], true, IfOk};
ghost use Rattle.lq_meaning_normal_tree.specs.AtomView.{atom_view};
ghost use Rattle.lq_meaning_normal_tree.specs.BlockView.{block_view, lets_view};
ghost use Rattle.lq_text_tree.specs.TreeView.{scoped_view};
ghost use Rattle.lq_meaning_normalize.specs.Pass.Forming.{after_one, after_two, after_three, atom, connective, operates_as};
ghost use Rattle.lq_text_tree.specs.Tree.{tree, if_else};
ghost use Rattle.lq_meaning_normalize.specs.Pass.Views.{became, shown};
ghost use Rattle.lq_text_walk.specs.Walk.View.{one_view, two_view, three_view};
ghost use Rattle.lq_meaning_normalize.specs.Normalize.Frames.{after_left, after_middle, after_last, after_then, after_else, done, done_behind, forms, MakesWhole};
ghost use Rattle.lq_meaning_normalize.specs.Normalize.Work.{size_of, LeavesLess};

use crate::normalize::frames::{Label, Machine, Next, Operand, Step};
use crate::normalize::nested::{begin_block, end_block};
use crate::pass::{
    Normal, Pass, choice_of, is_choice, is_connective, one_node, three_node, two_node,
};
use lq_base_names::Binder;
use lq_meaning_normal_tree::{Atom, Binding, Block, OperationNode};
use lq_text_tree::Expr;
use lq_text_walk::walk::{One, Three, Two};
use std::alloc::AllocError;

fn both(first: bool, second: bool) -> bool
    ensures { result ≡ (first && second) }
{
    first && second
}

// The one part is made.
pub(crate) fn one(
    pass: &mut Pass,
    label: Label,
    head: One,
    part: &Expr<Binder>,
    normal: Normal,
) -> Result<Normal, AllocError>
    ensures { IfOk result (λ n. became pass.new n ≡ after_one (one_view head) label.id label.place (scoped_view part.now) (became pass.old normal)) }
{
    let pure = normal.is_pure();
    let atom = pass.operand(part, normal)?;
    let made = one_node(pass.alloc, label.id, label.place, head, pure, atom)?;
    Ok(made)
}

// The second part is made.
pub(crate) fn second(
    pass: &mut Pass,
    label: Label,
    head: Two,
    left: Operand,
    part: &Expr<Binder>,
    normal: Normal,
) -> Result<Normal, AllocError>
    ensures { IfOk result (λ n. became pass.new n ≡ after_left (two_view head) label.id label.place (done left) (scoped_view part.now) (became pass.old normal)) }
{
    let is_pure = normal.is_pure();
    let pure = both(left.pure, is_pure);
    let atom = pass.operand(part, normal)?;
    let made = two_node(
        pass.alloc,
        label.id,
        label.place,
        head,
        pure,
        left.atom,
        atom,
    )?;
    Ok(made)
}

// The second part of `&&` or `||` is made, as a block where not both are pure as they are written.
pub(crate) fn junction(
    pass: &mut Pass,
    label: Label,
    head: Two,
    left: Operand,
    around: Vec<Binding>,
    normal: Normal,
) -> Result<Normal, AllocError>
    ensures { IfOk result (λ n. became pass.new n ≡ connective (two_view head) label.id label.place
        (done_behind (lets_view around.items) left) (became pass.old normal)) }
{
    let is_pure = normal.is_pure();
    let pure = both(left.pure, is_pure);
    match (pure, normal) {
        (true, Normal::Atom(atom, _)) => {
            pass.bindings = around;
            let made = two_node(
                pass.alloc,
                label.id,
                label.place,
                head,
                true,
                left.atom,
                atom,
            )?;
            Ok(made)
        }
        (_, normal) => {
            let block = end_block(pass, around, normal);
            let made = choice_of(pass.alloc, label.id, label.place, head, left.atom, block)?;
            Ok(made)
        }
    }
}

// The last of three parts is made.
pub(crate) fn last(
    pass: &mut Pass,
    label: Label,
    head: Three,
    first: Atom,
    middle: Atom,
    part: &Expr<Binder>,
    normal: Normal,
) -> Result<Normal, AllocError>
    ensures { IfOk result (λ n. became pass.new n ≡ after_last (three_view head) label.id label.place (atom [] 0 true (atom_view first))
        (atom [] 0 true (atom_view middle)) (scoped_view part.now) (became pass.old normal)) }
{
    let atom = pass.operand(part, normal)?;
    let made = three_node(pass.alloc, label.id, label.place, head, first, middle, atom)?;
    Ok(made)
}

fn choice_node(label: Label, condition: Atom, then: Box<Block>, otherwise: Box<Block>) -> Normal
    ensures { shown result ≡ operates_as (tree label.id label.place
        (if_else (atom_view condition) (block_view then.value) (block_view otherwise.value))) }
{
    let node = OperationNode::If(condition, then, otherwise);
    Normal::operation(label.id, label.place, node)
}

// The second branch is made.
pub(crate) fn otherwise(
    pass: &mut Pass,
    label: Label,
    condition: Atom,
    then: Block,
    around: Vec<Binding>,
    normal: Normal,
) -> Result<Normal, AllocError>
    ensures { IfOk result (λ n. became pass.new n ≡ after_else label.id label.place (lets_view around.items)
        (atom_view condition) (block_view then) (became pass.old normal)) }
{
    let block = end_block(pass, around, normal);
    let then = Box::new(pass.alloc, then)?;
    let block = Box::new(pass.alloc, block)?;
    Ok(choice_node(label, condition, then, block))
}

impl<'a> Machine<'a> {
    // The first part is made, and the second is next.
    pub(crate) fn first(
        &mut self,
        label: Label,
        head: Two,
        part: &Expr<Binder>,
        other: &'a Expr<Binder>,
        normal: Normal,
    ) -> Result<Next<'a>, AllocError>
        ensures whole { IfOk result (λ n. MakesWhole self.old self.new n (after_two (two_view head) label.id label.place
            (scoped_view part.now) (scoped_view other.now) (became self.old.pass normal) (forms (scoped_view other.now)))) }
        ensures work { IfOk result (λ n. LeavesLess self.old self.new n (size_of (scoped_view other.now) + 2)) }
    {
        let pure = normal.is_pure();
        let atom = self.pass.operand(part, normal)?;
        let left = Operand { atom, pure };
        if is_connective(head) {
            let around = begin_block(&mut self.pass);
            let next = self.go_on(label, Step::Connective(head, left, around), other)?;
            Ok(next)
        } else {
            let next = self.go_on(label, Step::Second(head, left, other), other)?;
            Ok(next)
        }
    }

    // The first of three parts is made, and the second is next.
    pub(crate) fn first_of_three(
        &mut self,
        label: Label,
        head: Three,
        part: &Expr<Binder>,
        middle: &'a Expr<Binder>,
        last: &'a Expr<Binder>,
        normal: Normal,
    ) -> Result<Next<'a>, AllocError>
        ensures whole { IfOk result (λ n. MakesWhole self.old self.new n (after_three (three_view head) label.id label.place
            (scoped_view part.now) (scoped_view middle.now) (scoped_view last.now) (became self.old.pass normal)
            (forms (scoped_view middle.now)) (forms (scoped_view last.now)))) }
        ensures work { IfOk result (λ n. LeavesLess self.old self.new n
            (size_of (scoped_view middle.now) + (size_of (scoped_view last.now) + 3))) }
    {
        let first = self.pass.operand(part, normal)?;
        if is_choice(head) {
            let around = begin_block(&mut self.pass);
            let next = self.go_on(label, Step::Then(first, around, last), middle)?;
            Ok(next)
        } else {
            let next = self.go_on(label, Step::Middle(head, first, middle, last), middle)?;
            Ok(next)
        }
    }

    // The second of three parts is made, and the last is next.
    pub(crate) fn middle(
        &mut self,
        label: Label,
        head: Three,
        first: Atom,
        part: &Expr<Binder>,
        last: &'a Expr<Binder>,
        normal: Normal,
    ) -> Result<Next<'a>, AllocError>
        ensures whole { IfOk result (λ n. MakesWhole self.old self.new n (after_middle (three_view head) label.id label.place
            (atom [] 0 true (atom_view first)) (scoped_view part.now) (scoped_view last.now) (became self.old.pass normal))) }
        ensures work { IfOk result (λ n. LeavesLess self.old self.new n (size_of (scoped_view last.now) + 2)) }
    {
        let middle = self.pass.operand(part, normal)?;
        let next = self.go_on(label, Step::Last(head, first, middle, last), last)?;
        Ok(next)
    }

    // The first branch is made, and the second is next.
    pub(crate) fn then(
        &mut self,
        label: Label,
        condition: Atom,
        around: Vec<Binding>,
        last: &'a Expr<Binder>,
        normal: Normal,
    ) -> Result<Next<'a>, AllocError>
        ensures whole { IfOk result (λ n. MakesWhole self.old self.new n (after_then label.id label.place (lets_view around.items)
            (atom_view condition) (scoped_view last.now) (became self.old.pass normal))) }
        ensures work { IfOk result (λ n. LeavesLess self.old self.new n (size_of (scoped_view last.now) + 2)) }
    {
        let none = Vec::new(self.pass.alloc);
        let block = end_block(&mut self.pass, none, normal);
        let next = self.go_on(label, Step::Else(condition, block, around), last)?;
        Ok(next)
    }
}
