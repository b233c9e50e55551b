// Names that are bound in environments, and guards.
ghost use Rattle.std.specs.Prelude.{◌≡◌, ◌<◌, ◌∷◌, IfOk, OnOk, OnErr, length};
ghost use Rattle.lq_refined_rules.specs.Checks.Operation.{bind};
ghost use Rattle.lq_refined_rules.specs.Checks.Pure.{formula_of};
ghost use Rattle.lq_refined_subtyping.specs.Contexts.Growing.{HasMore};
ghost use Rattle.lq_refined_substitution.specs.Implications.Views.{count_of as implication_count, environment_lists, implications_of};
ghost use Rattle.lq_refined_types.specs.Parts.Part.{known};
ghost use Rattle.lq_refined_templates.specs.Programs.PureView.{pure_view};
ghost use Rattle.lq_logic_predicates.specs.Formula.{negation};
ghost use Rattle.lq_logic_predicates.specs.PredView.{formula_of as formula_view};
ghost use Rattle.lq_refined_types.specs.Types.Context.{guard, Context};
ghost use Rattle.lq_refined_subtyping.specs.declared.table.table.RefinedTypes.{RefinedTypes as TypeRows};
ghost use Rattle.lq_refined_subtyping.specs.Table.Whole.{count_of, refined_at, Grows};
ghost use Rattle.lq_generate_operations.specs.Basis.Basis.{scopes_of};
ghost use Rattle.lq_generate_operations.specs.Basis.Knowing.{AreBelow};
ghost use Rattle.lq_generate_operations.specs.Basis.Names.{bound, IsLonger};
ghost use Rattle.lq_generate_operations.specs.declared.basis.basis.Basis.{Basis as Held};
ghost use Rattle.lq_generate_operations.specs.declared.basis.names.Names.{Names as TypedNames};
ghost use Rattle.lq_generate_operations.specs.Operations.Over.{IsContext};

use crate::basis::{Basis, Names, formula};
use lq_base_names::Binder;
use lq_logic_predicates::{Pred, Symbol};
use lq_refined_substitution::implications::Implications;
use lq_refined_substitution::substitution::Part;
use lq_refined_subtyping::split::with_name;
use lq_refined_subtyping::table::RefinedTypes;
use lq_refined_templates::programs::Pure;
use std::alloc::{AllocError, Global};

/// Binds a name with the type of a number, and answers the number of the environment in which it has this type.
pub fn bind(
    alloc: Global,
    list: &mut Implications,
    types: &mut RefinedTypes,
    basis: &Basis<'_>,
    names: &mut Names,
    name: Binder,
    at: usize,
    env: u64,
) -> Result<u64, AllocError>
    requires env { env < length (environment_lists list.old) }
    requires at { at < count_of types.old }
    requires names { AreBelow (count_of types.old) names.old }
    ensures context { IfOk result (λ n. (Γ : Context) → IsContext Γ names.old basis.now types.old list.old env
        → IsContext (bind name.0 (refined_at (scopes_of basis.now) types.old at) Γ) names.new basis.now types.new list.new n) }
    ensures bound { OnOk result (bound names.new ≡ (name.0, at) ∷ bound names.old) }
    ensures kept { OnErr result (bound names.new ≡ bound names.old) }
    ensures longer { IsLonger names.old names.new }
    ensures below { AreBelow (count_of types.new) names.new }
    ensures there { IfOk result (λ n. n < length (environment_lists list.new)) }
    ensures environments { HasMore (environment_lists list.old) (environment_lists list.new) }
    ensures implications { implications_of list.new ≡ implications_of list.old }
    ensures count { implication_count list.new ≡ implication_count list.old }
    ensures grows { Grows types.old types.new }
{
    let added = with_name(
        alloc,
        list,
        types,
        basis.scopes,
        Symbol::Bound(name),
        at,
        env,
    )?;
    names.bind(name, at)?;
    Ok(added)
}

// The number of an environment in which a predicate holds.
fn with_guard(list: &mut Implications, pred: Pred, env: u64) -> Result<u64, AllocError>
    requires { env < length (environment_lists list.old) }
    ensures context { IfOk result (λ n. (b : Held) (names : TypedNames) (types : TypeRows) (Γ : Context)
        → IsContext Γ names b types list.old env → IsContext (guard (known (formula_view pred)) ∷ Γ) names b types list.new n) }
    ensures there { IfOk result (λ n. n < length (environment_lists list.new)) }
    ensures environments { HasMore (environment_lists list.old) (environment_lists list.new) }
    ensures implications { implications_of list.new ≡ implications_of list.old }
    ensures count { implication_count list.new ≡ implication_count list.old }
{
    list.add_env(env, Part::Known(pred))
}

/// The number of the environment in which a condition holds.
pub fn when(
    alloc: Global,
    list: &mut Implications,
    condition: &Pure,
    env: u64,
) -> Result<u64, AllocError>
    requires { env < length (environment_lists list.old) }
    ensures context { IfOk result (λ n. (b : Held) (names : TypedNames) (types : TypeRows) (Γ : Context)
        → IsContext Γ names b types list.old env
        → IsContext (guard (known (formula_of (pure_view condition.now))) ∷ Γ) names b types list.new n) }
    ensures there { IfOk result (λ n. n < length (environment_lists list.new)) }
    ensures environments { HasMore (environment_lists list.old) (environment_lists list.new) }
    ensures implications { implications_of list.new ≡ implications_of list.old }
    ensures count { implication_count list.new ≡ implication_count list.old }
{
    let pred = formula(alloc, condition)?;
    with_guard(list, pred, env)
}

/// The number of the environment in which a condition doesn't hold.
pub fn unless(
    alloc: Global,
    list: &mut Implications,
    condition: &Pure,
    env: u64,
) -> Result<u64, AllocError>
    requires { env < length (environment_lists list.old) }
    ensures context { IfOk result (λ n. (b : Held) (names : TypedNames) (types : TypeRows) (Γ : Context)
        → IsContext Γ names b types list.old env
        → IsContext (guard (known (negation (formula_of (pure_view condition.now)))) ∷ Γ) names b types list.new n) }
    ensures there { IfOk result (λ n. n < length (environment_lists list.new)) }
    ensures environments { HasMore (environment_lists list.old) (environment_lists list.new) }
    ensures implications { implications_of list.new ≡ implications_of list.old }
    ensures count { implication_count list.new ≡ implication_count list.old }
{
    let pred = formula(alloc, condition)?;
    let pred = Pred::Not(Box::new(alloc, pred)?);
    with_guard(list, pred, env)
}
