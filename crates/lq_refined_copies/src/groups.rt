// Unknowns that are alike and follow one another, so that one of them is counted for all.
ghost use Rattle.std.specs.Prelude.{◌≡◌, ◌∷◌, ◌++◌, [], true, map, List, IfOk};
ghost use Rattle.lq_refined_instances.specs.Scopes.{Scope};
ghost use Rattle.lq_refined_instances.specs.Views.{unknown_view};
ghost use Rattle.lq_refined_copies.specs.Groups.{group_view, groups_view};

use crate::columns::is_same;
use lq_refined_instances::Unknown;
use lq_text_qualifiers::sorting::Shape;
use std::alloc::{AllocError, Global};

/// An unknown, and how many like it there are.
#[derive(Clone, Copy, Debug)]
pub(crate) struct Group {
    pub(crate) unknown: Unknown,
    pub(crate) times: u64,
}

// Whether two unknowns have one scope and one shape.
fn is_alike(first: Unknown, second: Unknown) -> bool
    ensures { result ≡ true → (Γs : List Scope) → unknown_view Γs first ≡ unknown_view Γs second }
{
    if first.scope != second.scope {
        return false;
    }
    is_same(first.shape, second.shape)
}

// The last group with one unknown more, or another one, where the last is put to the others.
fn with_unknown(groups: &mut Vec<Group>, last: Group, unknown: Unknown) -> Result<Group, AllocError>
    ensures { IfOk result (λ g. (Γs : List Scope) → groups_view Γs groups.new.items ++ group_view Γs g
        ≡ (groups_view Γs groups.old.items ++ group_view Γs last) ++ unknown_view Γs unknown ∷ []) }
{
    if last.times < u64::MAX {
        if is_alike(last.unknown, unknown) {
            return Ok(Group {
                unknown: last.unknown,
                times: last.times + 1,
            });
        }
    }
    groups.push(last)?;
    Ok(Group { unknown, times: 1 })
}

/// Unknowns by groups, in their order.
pub(crate) fn groups_of(alloc: Global, unknowns: &[Unknown]) -> Result<Vec<Group>, AllocError>
    ensures { IfOk result (λ groups. (Γs : List Scope)
        → groups_view Γs groups.items ≡ map (unknown_view Γs) unknowns.now) }
{
    let mut groups = Vec::new(alloc);
    let mut last = Group {
        unknown: Unknown {
            scope: 0,
            shape: Shape::Int,
        },
        times: 0,
    };
    for unknown in unknowns {
        last = with_unknown(&mut groups, last, *unknown)?;
    }
    groups.push(last)?;
    Ok(groups)
}
