// How many implications there are.
ghost use Rattle.std.specs.Prelude.{◌≡◌, ◌-◌, ◌^◌, All, List, IfOk, length, map, min};
ghost use Rattle.lq_refined_rules.specs.Checks.Basis.{Basis};
ghost use Rattle.lq_refined_rules.specs.Obligations.Obligation.{Obligation as Asking, all_implications, implications_in};
ghost use Rattle.lq_refined_types.specs.Parts.Part.{Parts as PartList};
ghost use Rattle.lq_refined_subtyping.specs.Table.Whole.{count_of, types_of, Grows};
ghost use Rattle.lq_refined_substitution.specs.Substitution.Views.{scopes_view};
ghost use Rattle.lq_generate_implications.specs.Obligations.Views.{all_stated, stated, stated_view, IsAskedThere, IsShaped};

use crate::obligations::obligation::{Asked, Obligation};
use lq_refined_substitution::substitution::Scopes;
use lq_refined_subtyping::split::implication_count;
use lq_refined_subtyping::table::RefinedTypes;
use std::alloc::{AllocError, Global};

// How many implications one obligation has.
fn count(
    alloc: Global,
    types: &mut RefinedTypes,
    scopes: &Scopes,
    obligation: &Obligation,
) -> Result<u64, AllocError>
    requires there { IsAskedThere (count_of types.old) obligation.now.asked }
    requires shaped { IsShaped (types_of (scopes_view scopes.now) types.old) obligation.now }
    ensures count { IfOk result (λ n. (P : Basis) (x : Asking) (es : List PartList)
        → stated P x ≡ stated_view es (types_of (scopes_view scopes.now) types.old) obligation.now
        → n ≡ min (length (implications_in P x)) (2 ^ 64 - 1)) }
    ensures grows { Grows types.old types.new }
{
    match &obligation.asked {
        Asked::Holds(_) => Ok(1),
        Asked::Fits(left, right) => implication_count(alloc, types, scopes, (*left, *right)),
    }
}

/// How many implications these obligations have, at most 2^64 - 1, without making them.
pub fn count_all(
    alloc: Global,
    types: &mut RefinedTypes,
    scopes: &Scopes,
    obligations: &[Obligation],
) -> Result<u64, AllocError>
    requires there { All (λ x. IsAskedThere (count_of types.old) x.asked) obligations.now }
    requires shaped { All (IsShaped (types_of (scopes_view scopes.now) types.old)) obligations.now }
    ensures count { IfOk result (λ n. (P : Basis) (xs : List Asking) (es : List PartList)
        → map (stated P) xs ≡ all_stated es (types_of (scopes_view scopes.now) types.old) obligations.now
        → n ≡ min (length (all_implications P xs)) (2 ^ 64 - 1)) }
    ensures grows { Grows types.old types.new }
{
    let mut total: u64 = 0;
    for obligation in obligations {
        let more = count(alloc, types, scopes, obligation)?;
        total = total.saturating_add(more);
    }
    Ok(total)
}
