// The symbols of scopes, listed from the last to the first.
ghost use Rattle.std.specs.Prelude.{◌≡◌, ◌<◌, ◌⊎◌, ◌++◌, ◌∷◌, [], ◌&&◌, not, map, reverse, IfOk, OnOk, IfSome, MatchOption, if◌then◌else◌};
ghost use Rattle.lq_text_qualifiers.specs.Sorting.Views.{asked_view};
ghost use Rattle.lq_refined_instances.specs.Listed.{is_among, is_wanted, not_among, wanted, with_hidden};
ghost use Rattle.lq_refined_instances.specs.Scopes.{is_once, scope_in, without};
ghost use Rattle.lq_logic_predicates.specs.Sum.{same_symbol};
ghost use Rattle.lq_refined_instances.specs.Seen.{hidden_view, visible_view};
ghost use Rattle.lq_refined_instances.specs.Views.{scopes_view};

use crate::scope::{Visible, is_same};
use crate::scopes::{Addition, Scopes};
use indexmap::IndexSet;
use lq_logic_predicates::{Symbol, Term};
use lq_text_qualifiers::sorting::Shape;
use std::alloc::{AllocError, Global};

// How far a scope is listed: those symbols that were found, the last first, the scope with those that are left, and what is hidden of it.
#[derive(Drop)]
struct Walked {
    left: u64,
    hidden: IndexSet<Symbol>,
    found: Vec<Visible>,
}

// No symbols.
fn no_symbols(alloc: Global) -> IndexSet<Symbol>
    ensures { result.keys ≡ [] }
{
    IndexSet::new(alloc)
}

// Whether a symbol isn't among some.
fn is_shown(hidden: &IndexSet<Symbol>, symbol: Symbol) -> bool
    ensures { result ≡ not (is_among hidden.now.keys symbol) }
{
    !hidden.contains(&symbol)
}

// Adds a symbol that is hidden, if one is.
fn hide(hidden: &mut IndexSet<Symbol>, more: Option<Visible>) -> Result<(), AllocError>
    ensures { OnOk result (hidden.new.keys ≡ with_hidden hidden.old.keys (hidden_view more)) }
{
    match more {
        Some(visible) => {
            hidden.insert(visible.symbol)?;
            Ok(())
        }
        None => Ok(()),
    }
}

// Adds a symbol that was found, if it was.
fn find(found: &mut Vec<Visible>, visible: Visible, is_found: bool) -> Result<(), AllocError>
    ensures { OnOk result (found.new.items
        ≡ (if is_found then found.old.items ++ visible ∷ [] else found.old.items)) }
{
    if is_found {
        found.push(visible)?;
    }
    Ok(())
}

impl Walked {
    // Takes the last symbol of what is left, if it is wanted.
    fn take(&mut self, addition: Addition, shape: Option<Shape>) -> Result<(), AllocError>
        ensures left { OnOk result (self.new.left ≡ addition.parent) }
        ensures hidden { OnOk result (self.new.hidden.keys
            ≡ with_hidden self.old.hidden.keys (hidden_view addition.hidden)) }
        ensures found { OnOk result (self.new.found.items
            ≡ (if is_wanted (asked_view shape) (visible_view addition.visible)
            && not (is_among self.old.hidden.keys addition.visible.symbol)
            then self.old.found.items ++ addition.visible ∷ [] else self.old.found.items)) }
    {
        let visible = addition.visible;
        let is_found = is_wanted(shape, visible) && is_shown(&self.hidden, visible.symbol);
        find(&mut self.found, visible, is_found)?;
        hide(&mut self.hidden, addition.hidden)?;
        self.left = addition.parent;
        Ok(())
    }
}

// Whether a symbol is of the shape that is wanted, if one is.
fn is_wanted(shape: Option<Shape>, visible: Visible) -> bool
    ensures { result ≡ is_wanted (asked_view shape) (visible_view visible) }
{
    match shape {
        Some(wanted) => is_same(wanted, visible.shape),
        None => true,
    }
}

/// The last symbol of a scope, unless the scope is the one to stop at.
pub(crate) fn last_before(scopes: &Scopes, at: u64, stop: u64) -> Option<Addition>
    ensures visible { MatchOption result ((at ≡ stop) ⊎ (scope_in (scopes_view scopes.now) at ≡ []))
        (λ a. scope_in (scopes_view scopes.now) at ≡ without (hidden_view a.hidden)
        (scope_in (scopes_view scopes.now) a.parent) ++ visible_view a.visible ∷ []) }
    ensures earlier { IfSome result (λ a. a.parent < at) }
{
    if at == stop {
        return None;
    }
    scopes.last(at)
}

// The wanted symbols of a scope that were added behind those of an outer one.
fn walk(
    alloc: Global,
    scopes: &Scopes,
    at: u64,
    shape: Option<Shape>,
    stop: u64,
) -> Result<Walked, AllocError>
    ensures shown { IfOk result (λ w. wanted (asked_view shape) (scope_in (scopes_view scopes.now) at)
        ≡ not_among w.hidden.keys (wanted (asked_view shape) (scope_in (scopes_view scopes.now) w.left))
        ++ map visible_view (reverse w.found.items)) }
    ensures ended { IfOk result (λ w. (w.left ≡ stop)
        ⊎ (scope_in (scopes_view scopes.now) w.left ≡ [])) }
{
    let mut walk = Walked {
        left: at,
        hidden: no_symbols(alloc),
        found: Vec::new(alloc),
    };
    while let Some(addition) = last_before(scopes, walk.left, stop) {
        walk.take(addition, shape)?;
    }
    Ok(walk)
}

// Those symbols of a scope that aren't hidden.
fn unhidden(
    alloc: Global,
    scope: &[Visible],
    hidden: &IndexSet<Symbol>,
) -> Result<Vec<Visible>, AllocError>
    ensures { IfOk result (λ left. map visible_view left.items
        ≡ not_among hidden.now.keys (map visible_view scope.now)) }
{
    let mut left = Vec::new(alloc);
    for visible in scope {
        if is_shown(hidden, visible.symbol) {
            left.push(*visible)?;
        }
    }
    Ok(left)
}

/// The symbols of a shape in a scope, or all, where those of another scope are known.
pub(crate) fn listed(
    alloc: Global,
    scopes: &Scopes,
    at: u64,
    shape: Option<Shape>,
    near: u64,
    known: &[Visible],
) -> Result<Vec<Visible>, AllocError>
    requires { map visible_view known.now
        ≡ wanted (asked_view shape) (scope_in (scopes_view scopes.now) near) }
    ensures { IfOk result (λ items. map visible_view items.items
        ≡ wanted (asked_view shape) (scope_in (scopes_view scopes.now) at)) }
{
    let mut walked = walk(alloc, scopes, at, shape, near)?;
    let mut items = Vec::new(alloc);
    if walked.left == near {
        items = unhidden(alloc, known, &walked.hidden)?;
    }
    walked.found.reverse();
    items.extend_from_slice(&walked.found)?;
    Ok(items)
}

/// Whether one symbol of a list is this one, and of its shape.
pub(crate) fn is_single(
    alloc: Global,
    items: &[Visible],
    visible: Visible,
) -> Result<bool, AllocError>
    ensures { IfOk result (λ single. single
        ≡ is_once (visible_view visible) (map visible_view items.now)) }
{
    let mut same = Vec::new(alloc);
    for item in items {
        if is_same_symbol(visible.symbol, item.symbol) {
            same.push(*item)?;
        }
    }
    Ok(same.len() == 1 && is_same(visible.shape, same[0].shape))
}

// Whether two symbols are one.
fn is_same_symbol(first: Symbol, second: Symbol) -> bool
    ensures { result ≡ same_symbol first second }
{
    Term::Var(first) == Term::Var(second)
}
