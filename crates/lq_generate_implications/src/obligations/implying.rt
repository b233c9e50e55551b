// The implications of what is asked for.
ghost use Rattle.std.specs.Prelude.{◌≡◌, ◌<◌, List, All, OnOk, length, map};
ghost use Rattle.lq_refined_rules.specs.Checks.Basis.{Basis};
ghost use Rattle.lq_refined_subtyping.specs.Contexts.Growing.{HasMore};
ghost use Rattle.lq_refined_substitution.specs.Implications.Growing.{Continues};
ghost use Rattle.lq_refined_substitution.specs.Implications.Views.{environment_at, environment_lists, origin_view};
ghost use Rattle.lq_refined_rules.specs.Obligations.Obligation.{Obligation as Asking, all_implications, holds, implications_by, implications_in};
ghost use Rattle.lq_logic_predicates.specs.PredView.{formula_of};
ghost use Rattle.lq_refined_types.specs.Types.Context.{Context};
ghost use Rattle.lq_refined_subtyping.specs.Table.Whole.{count_of, types_of, Grows};
ghost use Rattle.lq_refined_subtyping.specs.Split.Appending.{Appends};
ghost use Rattle.lq_refined_subtyping.specs.Split.Fields.{AreThere};
ghost use Rattle.lq_refined_types.specs.Subtyping.Subtype.{facts};
ghost use Rattle.lq_generate_implications.specs.Obligations.Views.{all_stated, scopes_of, stated, stated_view, IsOver, IsShaped, IsThere};

use crate::obligations::obligation::{Asked, Obligation, Sources};
use lq_logic_predicates::Pred;
use lq_refined_substitution::implications::{Implication, Implications};
use lq_refined_substitution::substitution::{Part, Parts};
use lq_refined_subtyping::split::{Given, split};
use lq_refined_subtyping::table::RefinedTypes;
use std::alloc::{AllocError, Global};

// The one implication of a predicate that is to hold.
#[tactic(auto, using(lq_refined_substitution::specs::Implications::Growing::continuing))]
fn demand(
    alloc: Global,
    list: &mut Implications,
    pred: &Pred,
    obligation: &Obligation,
) -> Result<(), AllocError>
    requires { obligation.now.env < length (environment_lists list.old) }
    ensures added { OnOk result ((P : Basis) (Γ : Context) → facts P.setting Γ ≡ environment_at list.old obligation.now.env
        → Appends list.old list.new (implications_by P Γ (origin_view obligation.now.place obligation.now.reason)
        (holds (formula_of pred.now)))) }
    ensures environments { environment_lists list.new ≡ environment_lists list.old }
    ensures continues { Continues list.old list.new }
{
    let goal = Part::Known(pred.copy(alloc)?);
    list.push(Implication {
        env: obligation.env,
        left: Parts::new(alloc),
        goal,
        place: obligation.place,
        reason: obligation.reason,
    })
}

// The implications of what is asked for in one obligation.
#[tactic(auto, using(lq_refined_substitution::specs::Implications::Growing::continuing))]
fn imply(
    alloc: Global,
    list: &mut Implications,
    types: &mut RefinedTypes,
    sources: &Sources<'_>,
    obligation: &Obligation,
) -> Result<(), AllocError>
    requires there { IsThere (length (environment_lists list.old)) (count_of types.old) obligation.now }
    requires fields { AreThere (count_of types.old) sources.now.fields.now }
    requires shaped { IsShaped (types_of (scopes_of sources.now) types.old) obligation.now }
    ensures added { OnOk result ((P : Basis) (x : Asking) → IsOver P sources.now (types_of (scopes_of sources.now) types.old)
        → stated P x ≡ stated_view (environment_lists list.old) (types_of (scopes_of sources.now) types.old) obligation.now
        → Appends list.old list.new (implications_in P x)) }
    ensures environments { HasMore (environment_lists list.old) (environment_lists list.new) }
    ensures continues { Continues list.old list.new }
    ensures grows { Grows types.old types.new }
{
    match &obligation.asked {
        Asked::Holds(pred) => demand(alloc, list, pred, obligation),
        Asked::Fits(left, right) => {
            let given = Given {
                scopes: sources.scopes,
                fields: sources.fields,
                origin: (obligation.place, obligation.reason),
            };
            let made = split(alloc, list, types, &given, (*left, *right), obligation.env);
            let Given {
                scopes: _,
                fields: _,
                origin: _,
            } = given;
            made
        }
    }
}

/// Adds the implications of what is asked for, obligation by obligation: of a predicate one, of two types those of their subtyping. Where
/// memory is refused, some of them may stand there, behind all that there were; environments and types only grow.
#[tactic(auto, using(lq_refined_substitution::specs::Implications::Growing::continuing))]
pub fn imply_all(
    alloc: Global,
    list: &mut Implications,
    types: &mut RefinedTypes,
    sources: &Sources<'_>,
    obligations: &[Obligation],
) -> Result<(), AllocError>
    requires there { All (IsThere (length (environment_lists list.old)) (count_of types.old)) obligations.now }
    requires fields { AreThere (count_of types.old) sources.now.fields.now }
    requires shaped { All (IsShaped (types_of (scopes_of sources.now) types.old)) obligations.now }
    ensures added { OnOk result ((P : Basis) (xs : List Asking) → IsOver P sources.now (types_of (scopes_of sources.now) types.old)
        → map (stated P) xs ≡ all_stated (environment_lists list.old) (types_of (scopes_of sources.now) types.old) obligations.now
        → Appends list.old list.new (all_implications P xs)) }
    ensures environments { HasMore (environment_lists list.old) (environment_lists list.new) }
    ensures continues { Continues list.old list.new }
    ensures grows { Grows types.old types.new }
{
    for obligation in obligations {
        imply(alloc, list, types, sources, obligation)?;
    }
    Ok(())
}
