// Predicates with their names bound.
ghost use Rattle.std.specs.Prelude.{◌≡◌, ◌∷◌, ◌++◌, map, IfOk, OnOk};
ghost use Rattle.lq_text_tree.specs.PredView.{pred_view};
ghost use Rattle.lq_text_qualifiers.specs.Faults.Predicates.{form_of};
ghost use Rattle.lq_text_qualifiers.specs.Sorting.Making.{predicate_of};
ghost use Rattle.lq_text_qualifiers.specs.Sorting.Tasks.{below, enter, predicate_made, predicate_parts, top_predicate};
ghost use Rattle.lq_text_qualifiers.specs.Sorting.Views.{predicate_view, predicates_view, setting_view, tasks_view};

use crate::sorting::setting::{Setting, variable_of};
use crate::sorting::sorted::ScopedPred;
use crate::sorting::terms::{Task, term_of};
use lq_text_tree::{PredExpr, PredNode};
use std::alloc::{AllocError, Global};

// The last predicate.
fn pop_predicate(predicates: &mut Vec<ScopedPred>) -> ScopedPred
    ensures top { predicate_view result ≡ top_predicate (predicates_view predicates.old.items) }
    ensures below { predicates_view predicates.new.items ≡ below (predicates_view predicates.old.items) }
{
    match predicates.pop() {
        Some(last) => last,
        None => ScopedPred::Flag(false),
    }
}

// The predicates of which a predicate is made are to be entered, the first next.
fn enter_parts<'a>(tasks: &mut Vec<Task<'a>>, source: &'a PredExpr) -> Result<(), AllocError>
    ensures { OnOk result (tasks_view tasks.new.items
        ≡ map enter (predicate_parts (form_of (pred_view source.now))) ++ tasks_view tasks.old.items) }
{
    match &source.node {
        PredNode::And(first, second) | PredNode::Or(first, second) | PredNode::Iff(first, second) =>
            {
                tasks.push(Task::Enter(second))?;
                tasks.push(Task::Enter(first))?;
            }
        PredNode::Not(part) => tasks.push(Task::Enter(part))?,
        PredNode::Flag(_)
        | PredNode::Whole(_)
        | PredNode::Use(_)
        | PredNode::Placeholder(_)
        | PredNode::Apply(_, _)
        | PredNode::Qualified(_, _, _)
        | PredNode::Arith(_, _, _)
        | PredNode::Neg(_)
        | PredNode::Compare(_, _, _) => {}
    }
    Ok(())
}

// A predicate of its parts, which are on the stack.
fn made(
    alloc: Global,
    setting: &Setting<'_>,
    predicates: &mut Vec<ScopedPred>,
    source: &PredExpr,
) -> Result<ScopedPred, AllocError>
    ensures { IfOk result (λ p. predicate_view p ∷ predicates_view predicates.new.items
        ≡ predicate_made (setting_view setting.now) (form_of (pred_view source.now))
        (predicates_view predicates.old.items)) }
{
    match &source.node {
        PredNode::Flag(b) => Ok(ScopedPred::Flag(*b)),
        PredNode::Use(_) | PredNode::Placeholder(_) => {
            Ok(ScopedPred::Holds(variable_of(setting, source)))
        }
        PredNode::Compare(op, first, second) => {
            let first = term_of(alloc, setting, first)?;
            let second = term_of(alloc, setting, second)?;
            Ok(ScopedPred::Compare(*op, first, second))
        }
        PredNode::Not(_) => Ok(ScopedPred::Not(Box::new(alloc, pop_predicate(predicates))?)),
        PredNode::And(_, _) => {
            let second = Box::new(alloc, pop_predicate(predicates))?;
            let first = Box::new(alloc, pop_predicate(predicates))?;
            Ok(ScopedPred::And(first, second))
        }
        PredNode::Or(_, _) => {
            let second = Box::new(alloc, pop_predicate(predicates))?;
            let first = Box::new(alloc, pop_predicate(predicates))?;
            Ok(ScopedPred::Or(first, second))
        }
        PredNode::Iff(_, _) => {
            let second = Box::new(alloc, pop_predicate(predicates))?;
            let first = Box::new(alloc, pop_predicate(predicates))?;
            Ok(ScopedPred::Iff(first, second))
        }
        PredNode::Whole(_)
        | PredNode::Apply(_, _)
        | PredNode::Qualified(_, _, _)
        | PredNode::Arith(_, _, _)
        | PredNode::Neg(_) => Ok(ScopedPred::Flag(false)),
    }
}

// The same, put on the stack.
fn make(
    alloc: Global,
    setting: &Setting<'_>,
    predicates: &mut Vec<ScopedPred>,
    source: &PredExpr,
) -> Result<(), AllocError>
    ensures { OnOk result (predicates_view predicates.new.items
        ≡ predicate_made (setting_view setting.now) (form_of (pred_view source.now))
        (predicates_view predicates.old.items)) }
{
    let whole = made(alloc, setting, predicates, source)?;
    predicates.push(whole)?;
    Ok(())
}

/// What a predicate becomes in this setting. In time linear in the predicate but for looking up names; no stack of calls.
pub(crate) fn predicate_of(
    alloc: Global,
    setting: &Setting<'_>,
    source: &PredExpr,
) -> Result<ScopedPred, AllocError>
    ensures { IfOk result (λ p. predicate_view p
        ≡ predicate_of (setting_view setting.now) (pred_view source.now)) }
{
    let mut tasks = Vec::new(alloc);
    let mut predicates = Vec::new(alloc);
    tasks.push(Task::Enter(source))?;
    while let Some(task) = tasks.pop() {
        match task {
            Task::Enter(part) => {
                tasks.push(Task::Make(part))?;
                enter_parts(&mut tasks, part)?;
            }
            Task::Make(part) => make(alloc, setting, &mut predicates, part)?,
        }
    }
    Ok(pop_predicate(&mut predicates))
}
