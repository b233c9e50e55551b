// Terms with their names bound.
ghost use Rattle.std.specs.Prelude.{◌≡◌, ◌∷◌, ◌++◌, map, IfOk, OnOk};
ghost use Rattle.lq_text_tree.specs.PredView.{pred_view};
ghost use Rattle.lq_text_qualifiers.specs.Faults.Predicates.{form_of};
ghost use Rattle.lq_text_qualifiers.specs.Sorting.Making.{term_of};
ghost use Rattle.lq_text_qualifiers.specs.Sorting.Tasks.{below, enter, term_made, term_parts, top_term};
ghost use Rattle.lq_text_qualifiers.specs.Sorting.Views.{setting_view, tasks_view, term_view, terms_view};

use crate::sorting::setting::{Setting, number_of, variable_of};
use crate::sorting::sorted::ScopedTerm;
use lq_text_tree::{PredExpr, PredNode};
use std::alloc::{AllocError, Global};

/// A tree that is still to be entered, or one whose parts are on the stack.
#[derive(Clone, Copy)]
pub(crate) enum Task<'a> {
    Enter(&'a PredExpr),
    Make(&'a PredExpr),
}

// The last term.
fn pop_term(terms: &mut Vec<ScopedTerm>) -> ScopedTerm
    ensures top { term_view result ≡ top_term (terms_view terms.old.items) }
    ensures below { terms_view terms.new.items ≡ below (terms_view terms.old.items) }
{
    match terms.pop() {
        Some(last) => last,
        None => ScopedTerm::Whole(0),
    }
}

// The parts of a term are to be entered, the first next.
fn enter_parts<'a>(tasks: &mut Vec<Task<'a>>, source: &'a PredExpr) -> Result<(), AllocError>
    ensures { OnOk result (tasks_view tasks.new.items
        ≡ map enter (term_parts (form_of (pred_view source.now))) ++ tasks_view tasks.old.items) }
{
    match &source.node {
        PredNode::Arith(_, first, second) => {
            tasks.push(Task::Enter(second))?;
            tasks.push(Task::Enter(first))?;
        }
        PredNode::Neg(part) => tasks.push(Task::Enter(part))?,
        PredNode::Flag(_)
        | PredNode::Whole(_)
        | PredNode::Use(_)
        | PredNode::Placeholder(_)
        | PredNode::Apply(_, _)
        | PredNode::Qualified(_, _, _)
        | PredNode::Compare(_, _, _)
        | PredNode::Not(_)
        | PredNode::And(_, _)
        | PredNode::Or(_, _)
        | PredNode::Iff(_, _) => {}
    }
    Ok(())
}

// A term of its parts, which are on the stack.
fn made(
    alloc: Global,
    setting: &Setting<'_>,
    terms: &mut Vec<ScopedTerm>,
    source: &PredExpr,
) -> Result<ScopedTerm, AllocError>
    ensures { IfOk result (λ t. term_view t ∷ terms_view terms.new.items
        ≡ term_made (setting_view setting.now) (form_of (pred_view source.now)) (terms_view terms.old.items)) }
{
    match &source.node {
        PredNode::Whole(n) => Ok(ScopedTerm::Whole(*n)),
        PredNode::Use(_) | PredNode::Placeholder(_) => {
            Ok(ScopedTerm::Var(variable_of(setting, source)))
        }
        PredNode::Apply(name, argument) => {
            let number = number_of(setting.measures, *name);
            Ok(ScopedTerm::Measure(number, variable_of(setting, argument)))
        }
        PredNode::Qualified(_, _, argument) => {
            Ok(ScopedTerm::Length(variable_of(setting, argument)))
        }
        PredNode::Arith(op, _, _) => {
            let second = Box::new(alloc, pop_term(terms))?;
            let first = Box::new(alloc, pop_term(terms))?;
            Ok(ScopedTerm::Arith(*op, first, second))
        }
        PredNode::Neg(_) => Ok(ScopedTerm::Neg(Box::new(alloc, pop_term(terms))?)),
        PredNode::Flag(_)
        | PredNode::Compare(_, _, _)
        | PredNode::Not(_)
        | PredNode::And(_, _)
        | PredNode::Or(_, _)
        | PredNode::Iff(_, _) => Ok(ScopedTerm::Whole(0)),
    }
}

// The same, put on the stack.
fn make(
    alloc: Global,
    setting: &Setting<'_>,
    terms: &mut Vec<ScopedTerm>,
    source: &PredExpr,
) -> Result<(), AllocError>
    ensures { OnOk result (terms_view terms.new.items
        ≡ term_made (setting_view setting.now) (form_of (pred_view source.now)) (terms_view terms.old.items)) }
{
    let whole = made(alloc, setting, terms, source)?;
    terms.push(whole)?;
    Ok(())
}

/// What a term becomes in this setting. In time linear in the term but for looking up names; no stack of calls.
pub(crate) fn term_of(
    alloc: Global,
    setting: &Setting<'_>,
    source: &PredExpr,
) -> Result<ScopedTerm, AllocError>
    ensures { IfOk result (λ t. term_view t ≡ term_of (setting_view setting.now) (pred_view source.now)) }
{
    let mut tasks = Vec::new(alloc);
    let mut terms = Vec::new(alloc);
    tasks.push(Task::Enter(source))?;
    while let Some(task) = tasks.pop() {
        match task {
            Task::Enter(part) => {
                tasks.push(Task::Make(part))?;
                enter_parts(&mut tasks, part)?;
            }
            Task::Make(part) => make(alloc, setting, &mut terms, part)?,
        }
    }
    Ok(pop_term(&mut terms))
}
