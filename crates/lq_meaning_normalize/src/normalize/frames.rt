// What is left to do of a tree, as frames around the part that is being made.
ghost use Rattle.std.specs.Prelude.{◌≡◌, ◌+◌, IfOk};
ghost use Rattle.lq_text_tree.specs.TreeView.{scoped_view};
ghost use Rattle.lq_meaning_normalize.specs.Pass.Forming.{formed};
ghost use Rattle.lq_meaning_normalize.specs.Pass.Views.{lets_of};
ghost use Rattle.lq_meaning_normalize.specs.Normalize.Frames.{plugged, step_at, whole};
ghost use Rattle.lq_meaning_normalize.specs.Normalize.Work.{size_of, weight, weights, work};

use crate::normalize::parts::{Cases, Parts};
use crate::pass::{Normal, Pass};
use lq_base_names::{Binder, Place};
use lq_meaning_normal_tree::{Atom, Binding, Block, Branch, Local};
use lq_text_tree::{Arms, Expr, Pat};
use lq_text_walk::walk::{One, Row, Three, Two};
use std::alloc::AllocError;

// The number and the place of a node.
#[derive(Clone, Copy)]
pub(crate) struct Label {
    pub(crate) id: u32,
    pub(crate) place: Place,
}

// A parameter, and the pattern that its body matches it with, where it has parts.
#[derive(Drop)]
pub(crate) struct Parameter {
    pub(crate) local: Local,
    pub(crate) pattern: Option<Pat<Binder>>,
}

// What a match looks at: the number of its node, and the variable.
#[derive(Clone, Copy)]
pub(crate) struct Scrutinee {
    pub(crate) id: u32,
    pub(crate) local: Local,
}

// A pure expression that is done, and whether it is pure as it is written.
#[derive(Drop)]
pub(crate) struct Operand {
    pub(crate) atom: Atom,
    pub(crate) pure: bool,
}

// What is left to do of a node once one of its parts is made. A list of bindings is what was bound around the part, where that has
// bindings of its own.
#[derive(Drop)]
pub(crate) enum Step<'a> {
    One(One, &'a Expr<Binder>),
    // both parts: the first is being made
    First(Two, &'a Expr<Binder>, &'a Expr<Binder>),
    Second(Two, Operand, &'a Expr<Binder>),
    // the second part of `&&` or `||`
    Connective(Two, Operand, Vec<Binding>),
    // three parts: the first is being made
    Three(Three, &'a Expr<Binder>, &'a Expr<Binder>, &'a Expr<Binder>),
    Middle(Three, Atom, &'a Expr<Binder>, &'a Expr<Binder>),
    Last(Three, Atom, Atom, &'a Expr<Binder>),
    // the two branches of an `if`
    Then(Atom, Vec<Binding>, &'a Expr<Binder>),
    Else(Atom, Block, Vec<Binding>),
    // the part that is being made, the others, and what is done
    Row(Row, &'a Expr<Binder>, Parts<'a>, Vec<Atom>),
    Chain(Parts<'a>),
    // the body of a function
    Body(Parameter, Vec<Binding>),
    // what a let binds; its body where that is a match; and any body that isn't
    Bound(&'a Pat<Binder>, &'a Expr<Binder>),
    Under(Local, Pat<Binder>, Vec<Binding>),
    Settle,
    // the body of a recursive function, with its name and its label, and what follows
    Function(Binder, Label, Parameter, Vec<Binding>, &'a Expr<Binder>),
    Scrutinee(&'a Expr<Binder>, &'a Arms<Binder>),
    // the body of an arm, with its pattern; the other arms, and those that are done
    Arm(Scrutinee, Pat<Binder>, Cases<'a>, Vec<Branch>, Vec<Binding>),
}

// What is left to do of the node with this label.
#[derive(Drop)]
pub(crate) struct Frame<'a> {
    pub(crate) label: Label,
    pub(crate) step: Step<'a>,
}

// What comes next: a part to be made, or what a part became.
#[derive(Drop)]
pub(crate) enum Next<'a> {
    Enter(&'a Expr<Binder>),
    Made(Normal),
}

// The pass, and what is left around the part that is being made, the innermost last.
#[derive(Drop)]
pub(crate) struct Machine<'a> {
    pub(crate) pass: Pass,
    pub(crate) frames: Vec<Frame<'a>>,
}

impl<'a> Machine<'a> {
    // A part is made next, and then this is left to do.
    pub(crate) fn go_on(
        &mut self,
        label: Label,
        step: Step<'a>,
        part: &'a Expr<Binder>,
    ) -> Result<Next<'a>, AllocError>
        ensures whole { IfOk result (λ n. whole self.new n ≡ plugged self.old.frames.items (step_at label step.entry
            (formed (lets_of self.old.pass) self.old.pass.next (scoped_view part.now)))) }
        ensures work { IfOk result (λ n. work self.new n
            ≡ weights self.old.frames.items + (weight step.entry + size_of (scoped_view part.now))) }
    {
        self.frames.push(Frame { label, step })?;
        Ok(Next::Enter(part))
    }
}
