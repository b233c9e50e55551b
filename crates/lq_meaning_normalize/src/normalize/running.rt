// The pass over a tree: a loop over a list of what is left, so that trees may be as deep as memory allows.
ghost use Rattle.std.specs.Prelude.{◌≡◌, [], IfOk};
ghost use Rattle.lq_meaning_normal_tree.specs.BlockView.{block_view};
ghost use Rattle.lq_text_tree.specs.TreeView.{scoped_view};
ghost use Rattle.lq_meaning_normalize.specs.Pass.Forming.{block_of, formed};
ghost use Rattle.lq_meaning_normalize.specs.Pass.Views.{became, lets_of};
ghost use Rattle.lq_meaning_normalize.specs.Normalize.Frames.{next_view, plugged, step_at, whole, MakesWhole};
ghost use Rattle.lq_meaning_normalize.specs.Normalize.Work.{next_weight, size_of, weight, LeavesLess};

use crate::normalize::bodies::{body, matched_body, settle};
use crate::normalize::frames::{Frame, Label, Machine, Next, Step};
use crate::normalize::nested::end_block;
use crate::normalize::operands::{junction, last, one, otherwise, second};
use crate::pass::{Normal, Pass};
use lq_base_names::Binder;
use lq_meaning_normal_tree::Block;
use lq_text_tree::Expr;
use lq_text_walk::walk::{Shape, shape_of};
use std::alloc::{AllocError, Global};

impl<'a> Machine<'a> {
    // A tree is next: its first part is entered, or it is made where it has none.
    fn enter(&mut self, source: &'a Expr<Binder>) -> Result<Next<'a>, AllocError>
        ensures whole { IfOk result (λ n. MakesWhole self.old self.new n
            (formed (lets_of self.old.pass) self.old.pass.next (scoped_view source.now))) }
        ensures work { IfOk result (λ n. LeavesLess self.old self.new n (size_of (scoped_view source.now))) }
    {
        let label = Label {
            id: source.id,
            place: source.place,
        };
        match shape_of(&source.node) {
            Shape::Leaf(leaf) => Ok(Next::Made(Normal::leaf(label.id, label.place, leaf))),
            Shape::One(head, a) => {
                let next = self.go_on(label, Step::One(head, a), a)?;
                Ok(next)
            }
            Shape::Two(head, a, b) => {
                let next = self.go_on(label, Step::First(head, a, b), a)?;
                Ok(next)
            }
            Shape::Three(head, a, b, c) => {
                let next = self.go_on(label, Step::Three(head, a, b, c), a)?;
                Ok(next)
            }
            Shape::Row(head, parts) => {
                let next = self.enter_row(label, head, parts)?;
                Ok(next)
            }
            Shape::Fun(p, b) => {
                let next = self.enter_function(label, p, b)?;
                Ok(next)
            }
            Shape::Let(p, e, b) => {
                let next = self.go_on(label, Step::Bound(p, b), e)?;
                Ok(next)
            }
            Shape::LetRec(f, r, e) => {
                let next = self.enter_recursive(label, *f, r, e)?;
                Ok(next)
            }
            Shape::Match(e, arms) => {
                let next = self.go_on(label, Step::Scrutinee(e, arms), e)?;
                Ok(next)
            }
        }
    }

    // What is left of a node, once its part is made.
    fn resume(&mut self, frame: Frame<'a>, normal: Normal) -> Result<Next<'a>, AllocError>
        ensures whole { IfOk result (λ n. MakesWhole self.old self.new n
            (step_at frame.entry.label frame.entry.step (became self.old.pass normal))) }
        ensures work { IfOk result (λ n. LeavesLess self.old self.new n (weight frame.entry.step)) }
    {
        let label = frame.label;
        let pass = &mut self.pass;
        Ok(Next::Made(match frame.step {
            Step::One(head, part) => one(pass, label, head, part, normal)?,
            Step::First(head, a, b) => return self.first(label, head, a, b, normal),
            Step::Second(head, left, b) => second(pass, label, head, left, b, normal)?,
            Step::Connective(head, left, around) => {
                junction(pass, label, head, left, around, normal)?
            }
            Step::Three(head, a, b, c) => {
                return self.first_of_three(label, head, a, b, c, normal);
            }
            Step::Middle(head, x, b, c) => return self.middle(label, head, x, b, c, normal),
            Step::Last(head, x, y, c) => last(pass, label, head, x, y, c, normal)?,
            Step::Then(condition, around, c) => {
                return self.then(label, condition, around, c, normal);
            }
            Step::Else(condition, then, around) => {
                otherwise(pass, label, condition, then, around, normal)?
            }
            Step::Row(head, part, parts, done) => {
                return self.part(label, head, part, parts, done, normal);
            }
            Step::Chain(parts) => return self.link(label, parts, normal),
            Step::Body(parameter, around) => body(pass, label, parameter, around, normal)?,
            Step::Bound(pattern, b) => return self.bound(label, pattern, b, normal),
            Step::Under(local, pattern, around) => {
                matched_body(pass, local, pattern, around, normal)?
            }
            Step::Settle => settle(pass, normal),
            Step::Function(name, inner, parameter, around, rest) => {
                return self.function(label, name, inner, parameter, around, rest, normal);
            }
            Step::Scrutinee(part, arms) => return self.scrutinee(label, part, arms, normal),
            Step::Arm(scrutinee, pattern, cases, done, around) => {
                return self.arm(label, scrutinee, pattern, cases, done, around, normal);
            }
        }))
    }

    // What a tree becomes.
    #[tactic(auto, using(crate::proofs::NormalizeLemmas::Plugging::plugged_more, crate::proofs::NormalizeLemmas::Plugging::weights_more))]
    fn run(&mut self, source: &'a Expr<Binder>) -> Result<Normal, AllocError>
        ensures { IfOk result (λ n. became self.new.pass n ≡ plugged self.old.frames.items
            (formed (lets_of self.old.pass) self.old.pass.next (scoped_view source.now))) }
    {
        let mut next = Next::Enter(source);
        loop {
            next = match next {
                Next::Enter(part) => self.enter(part)?,
                Next::Made(normal) => match self.frames.pop() {
                    Some(frame) => self.resume(frame, normal)?,
                    None => return Ok(normal),
                },
            };
        }
    }
}

// The block that a tree becomes, with made names from this one on, and the next one.
pub(crate) fn block_of(
    alloc: Global,
    next: u32,
    source: &Expr<Binder>,
) -> Result<(Block, u32), AllocError>
    ensures block { IfOk result (λ r. block_view r.0 ≡ block_of (formed [] next (scoped_view source.now))) }
    ensures next { IfOk result (λ r. r.1 ≡ (formed [] next (scoped_view source.now)).next) }
{
    let bindings = Vec::new(alloc);
    let frames = Vec::new(alloc);
    let pass = Pass {
        alloc,
        next,
        bindings,
    };
    let mut machine = Machine { pass, frames };
    let made = machine.run(source)?;
    let Machine {
        mut pass,
        frames: _frames,
    } = machine;
    let none = Vec::new(alloc);
    let block = end_block(&mut pass, none, made);
    Ok((block, pass.next))
}
