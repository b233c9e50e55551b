// The results of two function types.
ghost use Rattle.std.specs.Prelude.{◌≡◌, ◌<◌, IfOk, length};
ghost use Rattle.lq_refined_subtyping.specs.Contexts.Growing.{HasMore};
ghost use Rattle.lq_refined_substitution.specs.Implications.Views.{count_of as implication_count, environment_at, environment_lists, implications_of};
ghost use Rattle.lq_refined_types.specs.Types.Context.{Context, hypotheses_of};
ghost use Rattle.lq_refined_types.specs.Types.Operations.{renamed};
ghost use Rattle.lq_refined_types.specs.Types.Refined.{kind};
ghost use Rattle.lq_refined_subtyping.specs.Table.Forms.{binder_view};
ghost use Rattle.lq_refined_subtyping.specs.Table.Whole.{count_of, refined_at, Grows};
ghost use Rattle.lq_refined_substitution.specs.Substitution.Views.{scopes_view};
ghost use Rattle.lq_refined_types.specs.Subtyping.Subtype.{shared, with_binder};

use crate::split::environments::with_binder;
use crate::table::RefinedTypes;
use lq_base_names::Binder;
use lq_refined_substitution::implications::Implications;
use lq_refined_substitution::substitution::Scopes;
use std::alloc::{AllocError, Global};

// A function type: its name for the argument, and the numbers of the types of the argument and the result.
#[derive(Clone, Copy, Debug)]
pub(crate) struct Function {
    pub(crate) binder: Option<Binder>,
    pub(crate) argument: usize,
    pub(crate) result: usize,
}

// The left result of two function types, and the environment of the results.
#[derive(Clone, Copy, Debug)]
pub(crate) struct Results {
    pub(crate) left: usize,
    pub(crate) env: u64,
}

// The name that the results share for the argument: the right one's, else the left one's.
fn shared(left: Option<Binder>, right: Option<Binder>) -> Option<Binder>
    ensures { binder_view result ≡ shared (binder_view left) (binder_view right) }
{
    match right {
        Some(_) => right,
        None => left,
    }
}

// The left result with the shared name for its argument, and the number of an environment in which that name has the right argument's type.
pub(crate) fn results_under(
    alloc: Global,
    list: &mut Implications,
    types: &mut RefinedTypes,
    scopes: &Scopes,
    left: Function,
    right: Function,
    env: u64,
) -> Result<Results, AllocError>
    requires env { env < length (environment_lists list.old) }
    requires left_argument { left.argument < count_of types.old }
    requires left_result { left.result < count_of types.old }
    requires right_argument { right.argument < count_of types.old }
    ensures refined { IfOk result (λ made. refined_at (scopes_view scopes.now) types.new made.left
        ≡ renamed (scopes_view scopes.now) (binder_view left.binder) (shared (binder_view left.binder) (binder_view right.binder))
        (kind (refined_at (scopes_view scopes.now) types.old left.argument))
        (refined_at (scopes_view scopes.now) types.old left.result)) }
    ensures facts { IfOk result (λ made. (Γ : Context) → hypotheses_of (scopes_view scopes.now) Γ ≡ environment_at list.old env
        → hypotheses_of (scopes_view scopes.now) (with_binder (shared (binder_view left.binder) (binder_view right.binder))
        (refined_at (scopes_view scopes.now) types.old right.argument) Γ) ≡ environment_at list.new made.env) }
    ensures there { IfOk result (λ made. made.left < count_of types.new) }
    ensures env { IfOk result (λ made. made.env < length (environment_lists list.new)) }
    ensures environments { HasMore (environment_lists list.old) (environment_lists list.new) }
    ensures implications { implications_of list.new ≡ implications_of list.old }
    ensures count { implication_count list.new ≡ implication_count list.old }
    ensures grows { Grows types.old types.new }
{
    let name = shared(left.binder, right.binder);
    let kind = types.kind(left.argument);
    let renamed = types.renamed(alloc, left.binder, name, kind, left.result)?;
    let env = with_binder(alloc, list, types, scopes, name, right.argument, env)?;
    Ok(Results { left: renamed, env })
}
