// Environments in which names that subtypings bring have types.
ghost use Rattle.std.specs.Prelude.{◌≡◌, suc, ◌<◌, ◌∷◌, All, IfOk, length};
ghost use Rattle.lq_refined_subtyping.specs.Contexts.Growing.{HasMore};
ghost use Rattle.lq_refined_substitution.specs.Implications.Views.{count_of as implication_count, environment_at, environment_lists, implications_of};
ghost use Rattle.lq_refined_types.specs.Types.Context.{name, Context, hypotheses_of};
ghost use Rattle.lq_refined_subtyping.specs.Table.Forms.{binder_view, each};
ghost use Rattle.lq_refined_subtyping.specs.Table.Whole.{count_of, refined_at, types_of, Grows};
ghost use Rattle.lq_refined_substitution.specs.Substitution.Views.{scopes_view};
ghost use Rattle.lq_refined_types.specs.Subtyping.Subtype.{with_binder, with_fields};

use crate::contexts::{TypedName, named};
use crate::table::RefinedTypes;
use lq_base_names::Binder;
use lq_logic_predicates::Symbol;
use lq_refined_substitution::implications::Implications;
use lq_refined_substitution::substitution::Scopes;
use std::alloc::{AllocError, Global};

/// The number of an environment in which the symbol has the type besides what is known in this one. The type may still have something to be
/// done to it. What is looked at meanwhile is let go again.
pub fn with_name(
    alloc: Global,
    list: &mut Implications,
    types: &mut RefinedTypes,
    scopes: &Scopes,
    symbol: Symbol,
    at: usize,
    env: u64,
) -> Result<u64, AllocError>
    requires env { env < length (environment_lists list.old) }
    requires at { at < count_of types.old }
    ensures facts { IfOk result (λ n. (Γ : Context) → hypotheses_of (scopes_view scopes.now) Γ ≡ environment_at list.old env
        → hypotheses_of (scopes_view scopes.now) (name symbol (refined_at (scopes_view scopes.now) types.old at) ∷ Γ)
        ≡ environment_at list.new n) }
    ensures there { IfOk result (λ n. n < length (environment_lists list.new)) }
    ensures environments { HasMore (environment_lists list.old) (environment_lists list.new) }
    ensures implications { implications_of list.new ≡ implications_of list.old }
    ensures count { implication_count list.new ≡ implication_count list.old }
    ensures grows { Grows types.old types.new }
{
    let len = types.len();
    let exposed = types.expose(alloc, scopes, at)?;
    let name = TypedName {
        scopes,
        types,
        symbol,
        at: exposed,
    };
    let added = named(alloc, list, &name, env);
    let TypedName {
        scopes: _,
        types: _,
        symbol: _,
        at: _,
    } = name;
    types.truncate(len);
    added
}

/// The same of a function's name for its argument, where it has one.
pub fn with_binder(
    alloc: Global,
    list: &mut Implications,
    types: &mut RefinedTypes,
    scopes: &Scopes,
    binder: Option<Binder>,
    at: usize,
    env: u64,
) -> Result<u64, AllocError>
    requires env { env < length (environment_lists list.old) }
    requires at { at < count_of types.old }
    ensures facts { IfOk result (λ n. (Γ : Context) → hypotheses_of (scopes_view scopes.now) Γ ≡ environment_at list.old env
        → hypotheses_of (scopes_view scopes.now) (with_binder (binder_view binder) (refined_at (scopes_view scopes.now) types.old at) Γ)
        ≡ environment_at list.new n) }
    ensures there { IfOk result (λ n. n < length (environment_lists list.new)) }
    ensures environments { HasMore (environment_lists list.old) (environment_lists list.new) }
    ensures implications { implications_of list.new ≡ implications_of list.old }
    ensures count { implication_count list.new ≡ implication_count list.old }
    ensures grows { Grows types.old types.new }
{
    match binder {
        Some(x) => with_name(alloc, list, types, scopes, Symbol::Bound(x), at, env),
        None => Ok(env),
    }
}

// The position behind this one. Past 2^32 - 1 it answers that there is no memory.
pub(crate) fn next_position(position: u32) -> Result<u32, AllocError>
    ensures { IfOk result (λ next. next ≡ suc position) }
{
    match position.checked_add(1) {
        Some(next) => Ok(next),
        None => Err(AllocError),
    }
}

// The number of an environment in which the fields of a constructor have these types, the first as `#1`.
pub(crate) fn with_fields(
    alloc: Global,
    list: &mut Implications,
    types: &mut RefinedTypes,
    scopes: &Scopes,
    fields: &[usize],
    env: u64,
) -> Result<u64, AllocError>
    requires env { env < length (environment_lists list.old) }
    requires fields { All (λ p. p < count_of types.old) fields.now }
    ensures facts { IfOk result (λ n. (Γ : Context) → hypotheses_of (scopes_view scopes.now) Γ ≡ environment_at list.old env
        → hypotheses_of (scopes_view scopes.now) (with_fields 0 (each (types_of (scopes_view scopes.now) types.old) fields.now) Γ)
        ≡ environment_at list.new n) }
    ensures there { IfOk result (λ n. n < length (environment_lists list.new)) }
    ensures environments { HasMore (environment_lists list.old) (environment_lists list.new) }
    ensures implications { implications_of list.new ≡ implications_of list.old }
    ensures count { implication_count list.new ≡ implication_count list.old }
    ensures grows { Grows types.old types.new }
{
    let mut at = env;
    let mut position = 0;
    for field in fields {
        position = next_position(position)?;
        at = with_name(
            alloc,
            list,
            types,
            scopes,
            Symbol::Position(position),
            *field,
            at,
        )?;
    }
    Ok(at)
}
