// Patterns of arms, and which arms a rule checks.
ghost use Rattle.std.specs.Prelude.{◌≡◌, ◌++◌, IfOk, OnOk};
ghost use Rattle.lq_refined_rules.specs.Checks.Tree.{is_arm_of, names_of};
ghost use Rattle.lq_base_names.specs.declared.name.Binder.{Binder};
ghost use Rattle.lq_refined_templates.specs.Programs.BlockView.{pattern_view};
ghost use Rattle.lq_refined_templates.specs.Points.Reading.{are_builds, is_build, is_checked, none_is_arm_of, pattern_of};
ghost use Rattle.lq_text_tree.specs.Pattern.{bound_in, bound_in_all, bound_in_form};
ghost use Rattle.lq_text_tree.specs.PatternView.{pat_form_view, pat_view, pats_view};
ghost use Rattle.lq_generate_reading.specs.Visibility.Stack.{names_view};
ghost use Rattle.lq_generate_reading.specs.Reading.Blocks.{patterns_view};

use lq_base_names::{Binder, Name};
use lq_refined_templates::programs::{Arm, Pattern};
use lq_text_tree::{Pat, PatNode, Pats};
use std::alloc::{AllocError, Global};
use std::slice;

// The names that a pattern binds, behind others.
#[cycle(names)]
fn push_names(names: &mut Vec<Binder>, pattern: &Pat<Binder>) -> Result<(), AllocError>
    ensures { OnOk result (names_view names.new.items ≡ names_view names.old.items ++ bound_in (pat_view Binder (λ b. b.0) pattern.now)) }
{
    push_form(names, &pattern.node)
}

#[cycle(names)]
fn push_form(names: &mut Vec<Binder>, form: &PatNode<Binder>) -> Result<(), AllocError>
    ensures { OnOk result (names_view names.new.items ≡ names_view names.old.items ++ bound_in_form (pat_form_view Binder (λ b. b.0) form.now)) }
{
    match form {
        PatNode::Any | PatNode::Unit => Ok(()),
        PatNode::Bind(binder) => {
            names.push(*binder)?;
            Ok(())
        }
        PatNode::Tuple(row) => push_row(names, row),
        PatNode::Build(_, _, row) => push_row(names, row),
    }
}

#[cycle(names)]
fn push_row(names: &mut Vec<Binder>, row: &Pats<Binder>) -> Result<(), AllocError>
    ensures { OnOk result (names_view names.new.items ≡ names_view names.old.items ++ bound_in_all (pats_view Binder (λ b. b.0) row.now)) }
{
    for at in 0..row.len() {
        if let Some(pattern) = row.get(at) {
            push_names(names, pattern)?;
        }
    }
    Ok(())
}

// The names that the patterns of a row bind.
fn names_in(alloc: Global, row: &Pats<Binder>) -> Result<Vec<Binder>, AllocError>
    ensures { IfOk result (λ names. names_view names.items ≡ bound_in_all (pats_view Binder (λ b. b.0) row.now)) }
{
    let mut names = Vec::new(alloc);
    push_row(&mut names, row)?;
    Ok(names)
}

// The pattern of an arm.
pub(crate) fn pattern_of(alloc: Global, pattern: &Pat<Binder>) -> Result<Pattern, AllocError>
    ensures { IfOk result (λ q. pattern_view q ≡ pattern_of (pat_view Binder (λ b. b.0) pattern.now)) }
{
    match &pattern.node {
        PatNode::Any => Ok(Pattern::Any),
        PatNode::Bind(binder) => Ok(Pattern::Name(*binder)),
        PatNode::Unit => Ok(Pattern::Unit),
        PatNode::Tuple(row) => {
            let names = names_in(alloc, row)?;
            Ok(Pattern::Tuple(names))
        }
        PatNode::Build(name, _, row) => {
            let names = names_in(alloc, row)?;
            Ok(Pattern::Build(*name, names))
        }
    }
}

/// The names that a pattern binds.
pub(crate) fn pattern_names(pattern: &Pattern) -> &[Binder]
    ensures { names_view result.now ≡ names_of (pattern_view pattern.now) }
{
    match pattern {
        Pattern::Any => &[],
        Pattern::Name(name) => slice::from_ref(name),
        Pattern::Unit => &[],
        Pattern::Tuple(names) => names,
        Pattern::Build(_, names) => names,
    }
}

fn is_build(pattern: &Pattern) -> bool
    ensures { result ≡ is_build (pattern_view pattern.now) }
{
    matches!(pattern, Pattern::Build(_, _))
}

fn is_arm_of(name: Name, pattern: &Pattern) -> bool
    ensures { result ≡ is_arm_of name.0 (pattern_view pattern.now) }
{
    match pattern {
        Pattern::Build(other, _) => other.0 == name.0,
        Pattern::Any | Pattern::Name(_) | Pattern::Unit | Pattern::Tuple(_) => false,
    }
}

// Whether all arms are of constructors.
fn are_builds(arms: &[Arm]) -> bool
    ensures { result ≡ are_builds (patterns_view arms.now) }
{
    for arm in arms {
        if !is_build(&arm.pattern) {
            return false;
        }
    }
    true
}

// Whether no arm is of a constructor.
fn none_is_arm_of(name: Name, arms: &[Arm]) -> bool
    ensures { result ≡ none_is_arm_of name.0 (patterns_view arms.now) }
{
    for arm in arms {
        if is_arm_of(name, &arm.pattern) {
            return false;
        }
    }
    true
}

// Whether a rule checks the arm of a pattern behind these arms.
pub(crate) fn is_checked(arms: &[Arm], pattern: &Pattern) -> bool
    ensures { result ≡ is_checked (patterns_view arms.now) (pattern_view pattern.now) }
{
    match pattern {
        Pattern::Any | Pattern::Name(_) => are_builds(arms),
        Pattern::Unit | Pattern::Tuple(_) => arms.is_empty(),
        Pattern::Build(name, _) => none_is_arm_of(*name, arms),
    }
}
