// The implications between the tops of two types.
ghost use Rattle.std.specs.Prelude.{◌≡◌, ◌<◌, ◌+◌, ◌-◌, ◌^◌, ◌++◌, length, map, min, take, IfOk, OnOk};
ghost use Rattle.lq_refined_types.specs.Parts.Part.{Scopes as ScopeLists};
ghost use Rattle.lq_refined_types.specs.Types.Refined.{top};
ghost use Rattle.lq_refined_subtyping.specs.Table.Whole.{count_of, refined_at, IsNode};
ghost use Rattle.lq_refined_substitution.specs.Substitution.Views.{part_view, parts_view};
ghost use Rattle.lq_refined_types.specs.Subtyping.Implication.{goals};
ghost use Rattle.lq_refined_substitution.specs.Implications.Growing.{Continues};
ghost use Rattle.lq_refined_substitution.specs.Implications.Views.{count_of as implication_count, environment_at, environment_lists, implications_of, origin_view};

use crate::table::RefinedTypes;
use lq_base_names::Place;
use lq_refined_substitution::implications::{Implications, Reason};
use lq_refined_substitution::substitution::{Part, Parts};
use std::alloc::{AllocError, Global};

// The parts of a slice.
fn collected(alloc: Global, parts: &[Part]) -> Result<Parts, AllocError>
    ensures { IfOk result (λ made. parts_view made ≡ map part_view parts.now) }
{
    let mut made = Parts::new(alloc);
    for part in parts {
        made.push(part.copy(alloc)?)?;
    }
    Ok(made)
}

/// Adds the implications by which the top of the left type is to have what the top of the right one asks for, in an environment: one for
/// each part on the right that isn't written `true`.
#[tactic(auto, using(lq_refined_substitution::specs::Implications::Growing::continuing))]
pub fn tops(
    alloc: Global,
    list: &mut Implications,
    types: &RefinedTypes,
    env: u64,
    sides: (usize, usize),
    origin: (Place, Reason),
) -> Result<(), AllocError>
    requires env { env < length (environment_lists list.old) }
    requires left { sides.0 < count_of types.now }
    requires right { sides.1 < count_of types.now }
    requires left_node { IsNode types.now sides.0 }
    requires right_node { IsNode types.now sides.1 }
    ensures added { OnOk result ((scopes : ScopeLists) → implications_of list.new ≡ take 262144 (implications_of list.old
        ++ goals (environment_at list.old env) (top (refined_at scopes types.now sides.0))
        (top (refined_at scopes types.now sides.1)) (origin_view origin.0 origin.1))) }
    ensures counted { OnOk result ((scopes : ScopeLists) → implication_count list.new ≡ min (implication_count list.old
        + length (goals (environment_at list.old env) (top (refined_at scopes types.now sides.0))
        (top (refined_at scopes types.now sides.1)) (origin_view origin.0 origin.1))) (2 ^ 64 - 1)) }
    ensures environments { environment_lists list.new ≡ environment_lists list.old }
    ensures continues { Continues list.old list.new }
{
    let left = collected(alloc, types.node(sides.0).parts())?;
    let right = types.node(sides.1).parts();
    list.imply(alloc, env, &left, right, origin)
}
