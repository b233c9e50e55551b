// Matches.
ghost use Rattle.std.specs.Prelude.{◌≡◌, suc, map, IfOk};
ghost use Rattle.lq_meaning_normal_tree.specs.BlockView.{block_view, branch_view, lets_view};
ghost use Rattle.lq_base_names.specs.declared.name.Binder.{Binder};
ghost use Rattle.lq_text_tree.specs.PatternView.{pat_view};
ghost use Rattle.lq_text_tree.specs.TreeView.{cases_of, cases_view, form_view, scoped_view};
ghost use Rattle.std.specs.Option.{option_map};
ghost use Rattle.lq_text_tree.specs.Tree.{tree, match_on, use_of};
ghost use Rattle.lq_text_walk.specs.Walk.Shape.{listed_cases, shape_of};
ghost use Rattle.lq_meaning_normalize.specs.Pass.Forming.{formed_cases, operates_as};
ghost use Rattle.lq_meaning_normalize.specs.Pass.Views.{became, lets_of, shown};
ghost use Rattle.lq_meaning_normalize.specs.Normalize.Frames.{after_arm, after_scrutinee, looked_at, match_with, one_part, scrutinee_view, variable_in, with_tree, MakesWhole};
ghost use Rattle.lq_meaning_normalize.specs.Normalize.Parts.{arms_left};
ghost use Rattle.lq_meaning_normalize.specs.Normalize.Work.{case_sizes, LeavesLess};

use crate::normalize::frames::{Label, Machine, Next, Scrutinee, Step};
use crate::normalize::nested::{begin_block, end_block};
use crate::normalize::parts::Cases;
use crate::pass::{Normal, Pass};
use lq_base_names::{Binder, Place};
use lq_meaning_normal_tree::{Binding, Block, Branch, Local, OperationNode};
use lq_text_tree::{Arms, Expr, Pat};
use lq_text_walk::walk::{Leaf, Shape, shape_of};
use std::alloc::AllocError;

// The variable that an expression is, if it is one.
fn used(part: &Expr<Binder>) -> Option<Binder>
    ensures { option_map (λ b. b.0) result ≡ variable_in (shape_of (form_view Binder (λ b. b.0) part.now.node)) }
{
    match shape_of(&part.node) {
        Shape::Leaf(leaf) => match leaf {
            Leaf::Use(binder) => Some(binder),
            Leaf::Whole(_)
            | Leaf::Flag(_)
            | Leaf::Unit
            | Leaf::Qualified(_, _)
            | Leaf::AssertFalse
            | Leaf::MapEmpty => None,
        },
        Shape::One(_, _)
        | Shape::Two(_, _, _)
        | Shape::Three(_, _, _, _)
        | Shape::Row(_, _)
        | Shape::Fun(_, _)
        | Shape::Let(_, _, _)
        | Shape::LetRec(_, _, _)
        | Shape::Match(_, _) => None,
    }
}

fn scrutinee_of(id: u32, place: Place, binder: Binder) -> Scrutinee
    ensures { scrutinee_view result ≡ tree id place (use_of binder.0) }
{
    Scrutinee {
        id,
        local: Local { place, binder },
    }
}

fn match_node(label: Label, scrutinee: Scrutinee, branches: Vec<Branch>) -> Normal
    ensures { shown result ≡ operates_as (tree label.id label.place
        (match_on (scrutinee_view scrutinee) (cases_of (map branch_view branches.items)))) }
{
    let node = OperationNode::Match(scrutinee.id, scrutinee.local, branches);
    Normal::operation(label.id, label.place, node)
}

fn branch_of(pattern: Pat<Binder>, body: Block) -> Branch
    ensures { branch_view result ≡ record { pattern = pat_view Binder (λ b. b.0) pattern; body = block_view body } }
{
    Branch { pattern, body }
}

// What a match looks at: what is no variable is bound.
fn scrutinee(pass: &mut Pass, part: &Expr<Binder>, normal: Normal) -> Result<Scrutinee, AllocError>
    ensures { IfOk result (λ x. with_tree pass.new (scrutinee_view x)
        ≡ one_part (looked_at (scoped_view part.now) (became pass.old normal))) }
{
    match used(part) {
        Some(binder) => Ok(scrutinee_of(part.id, part.place, binder)),
        None => {
            let operation = normal.into_operation();
            let binder = pass.bind_made(part.id, part.place, operation)?;
            Ok(scrutinee_of(part.id, part.place, binder))
        }
    }
}

impl<'a> Machine<'a> {
    // What a match looks at is made, and its first arm is next.
    pub(crate) fn scrutinee(
        &mut self,
        label: Label,
        part: &Expr<Binder>,
        all: &'a Arms<Binder>,
        normal: Normal,
    ) -> Result<Next<'a>, AllocError>
        ensures whole { IfOk result (λ n. MakesWhole self.old self.new n (after_scrutinee label.id label.place
            (scoped_view part.now) (listed_cases (cases_view Binder (λ b. b.0) all.now)) (became self.old.pass normal))) }
        ensures work { IfOk result (λ n. LeavesLess self.old self.new n
            (suc (case_sizes (listed_cases (cases_view Binder (λ b. b.0) all.now))))) }
    {
        let scrutinee = scrutinee(&mut self.pass, part, normal)?;
        let done = Vec::new(self.pass.alloc);
        let next = self.next_arm(label, scrutinee, Cases { all, next: 0 }, done)?;
        Ok(next)
    }

    // The next arm, or the match where all arms are done.
    fn next_arm(
        &mut self,
        label: Label,
        scrutinee: Scrutinee,
        mut cases: Cases<'a>,
        done: Vec<Branch>,
    ) -> Result<Next<'a>, AllocError>
        ensures whole { IfOk result (λ n. MakesWhole self.old self.new n (match_with label.id label.place
            (lets_of self.old.pass) (scrutinee_view scrutinee) (map branch_view done.items)
            (formed_cases self.old.pass.next (cases_of (arms_left cases.entry))))) }
        ensures work { IfOk result (λ n. LeavesLess self.old self.new n (suc (case_sizes (arms_left cases.entry)))) }
    {
        match cases.take() {
            Some(arm) => {
                let pattern = self.pass.name_pattern(&arm.pattern)?;
                let around = begin_block(&mut self.pass);
                let step = Step::Arm(scrutinee, pattern, cases, done, around);
                let next = self.go_on(label, step, &arm.body)?;
                Ok(next)
            }
            None => Ok(Next::Made(match_node(label, scrutinee, done))),
        }
    }

    // The body of an arm is made.
    pub(crate) fn arm(
        &mut self,
        label: Label,
        scrutinee: Scrutinee,
        pattern: Pat<Binder>,
        cases: Cases<'a>,
        mut done: Vec<Branch>,
        around: Vec<Binding>,
        normal: Normal,
    ) -> Result<Next<'a>, AllocError>
        ensures whole { IfOk result (λ n. MakesWhole self.old self.new n (after_arm label.id label.place
            (lets_view around.items) (scrutinee_view scrutinee) (map branch_view done.items)
            (pat_view Binder (λ b. b.0) pattern) (arms_left cases.entry) (became self.old.pass normal))) }
        ensures work { IfOk result (λ n. LeavesLess self.old self.new n (suc (case_sizes (arms_left cases.entry)))) }
    {
        let body = end_block(&mut self.pass, around, normal);
        let branch = branch_of(pattern, body);
        done.push(branch)?;
        let next = self.next_arm(label, scrutinee, cases, done)?;
        Ok(next)
    }
}
