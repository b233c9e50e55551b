// The implications between the tops of two types.
ghost use Rattle.std.specs.Prelude.{◌≡◌, ◌<◌, IfOk, OnOk, length};
ghost use Rattle.lq_refined_substitution.specs.Implications.Growing.{Continues};
ghost use Rattle.lq_refined_substitution.specs.Implications.Views.{environment_at, environment_lists};
ghost use Rattle.lq_refined_types.specs.Types.Context.{Context};
ghost use Rattle.lq_refined_subtyping.specs.Table.Whole.{count_of, refined_at, Grows, IsNode};
ghost use Rattle.lq_refined_substitution.specs.Substitution.Views.{scopes_view};
ghost use Rattle.lq_refined_types.specs.Subtyping.Splitting.{tops};
ghost use Rattle.lq_refined_types.specs.Subtyping.Subtype.{facts};
ghost use Rattle.lq_text_tree.specs.Types.{Signature};
ghost use Rattle.lq_refined_subtyping.specs.Split.Appending.{Appends};
ghost use Rattle.lq_refined_subtyping.specs.Split.Given.{origin_of, scopes_of, setting_of};

use crate::split::given::Given;
use crate::table::RefinedTypes;
use lq_refined_substitution::implications::Implications;
use lq_refined_substitution::substitution::Scopes;
use std::alloc::{AllocError, Global};

// The numbers of the same two types where they stand as one level.
pub(crate) fn exposed(
    alloc: Global,
    types: &mut RefinedTypes,
    scopes: &Scopes,
    sides: (usize, usize),
) -> Result<(usize, usize), AllocError>
    requires left { sides.0 < count_of types.old }
    requires right { sides.1 < count_of types.old }
    ensures left { IfOk result (λ made. refined_at (scopes_view scopes.now) types.new made.0
        ≡ refined_at (scopes_view scopes.now) types.old sides.0) }
    ensures right { IfOk result (λ made. refined_at (scopes_view scopes.now) types.new made.1
        ≡ refined_at (scopes_view scopes.now) types.old sides.1) }
    ensures left_node { IfOk result (λ made. IsNode types.new made.0) }
    ensures right_node { IfOk result (λ made. IsNode types.new made.1) }
    ensures left_there { IfOk result (λ made. made.0 < count_of types.new) }
    ensures right_there { IfOk result (λ made. made.1 < count_of types.new) }
    ensures grows { Grows types.old types.new }
{
    let left = types.expose(alloc, scopes, sides.0)?;
    let right = types.expose(alloc, scopes, sides.1)?;
    Ok((left, right))
}

// Adds the implications of the tops of two types, in an environment.
pub(crate) fn tops(
    alloc: Global,
    list: &mut Implications,
    types: &RefinedTypes,
    given: &Given<'_>,
    sides: (usize, usize),
    env: u64,
) -> Result<(), AllocError>
    requires env { env < length (environment_lists list.old) }
    requires left { sides.0 < count_of types.now }
    requires right { sides.1 < count_of types.now }
    requires left_node { IsNode types.now sides.0 }
    requires right_node { IsNode types.now sides.1 }
    ensures added { OnOk result ((g : Signature) (Γ : Context)
        → facts (setting_of given.now g) Γ ≡ environment_at list.old env → Appends list.old list.new
        (tops (setting_of given.now g) (origin_of given.now) Γ (refined_at (scopes_of given.now) types.now sides.0)
        (refined_at (scopes_of given.now) types.now sides.1))) }
    ensures environments { environment_lists list.new ≡ environment_lists list.old }
    ensures continues { Continues list.old list.new }
{
    crate::contexts::tops(alloc, list, types, env, sides, given.origin)
}
