// How many implications a subtyping has, without making them.
ghost use Rattle.std.specs.Prelude.{◌≡◌, ◌<◌, ◌≤◌, ◌-◌, ◌^◌, [], ◌∷◌, ◌++◌, false, All, IfOk, length, map, min};
ghost use Rattle.lq_refined_types.specs.Types.Context.{Context};
ghost use Rattle.lq_refined_types.specs.Types.Refined.{erased};
ghost use Rattle.lq_refined_subtyping.specs.Table.Forms.{each, form_rows, form_type, matrix_view};
ghost use Rattle.lq_refined_subtyping.specs.Table.Whole.{count_of, refined_at, types_of, Grows};
ghost use Rattle.lq_refined_substitution.specs.Substitution.Views.{part_view, scopes_view};
ghost use Rattle.lq_refined_types.specs.Subtyping.Implication.{Origin};
ghost use Rattle.lq_refined_types.specs.Subtyping.Splitting.{split};
ghost use Rattle.lq_refined_types.specs.Subtyping.Subtype.{Setting};
ghost use Rattle.lq_refined_subtyping.specs.Split.Counting.{all_on_left, all_on_right, asked, cells_asked, on_left, on_right};

use crate::table::{Form, Matrix, RefinedTypes};
use lq_refined_substitution::substitution::{Part, Scopes};
use std::alloc::{AllocError, Global};

// How many implications a type makes on the right of a subtyping and on the left, at most 2^64 - 1.
#[derive(Clone, Copy, Debug)]
struct Tally {
    right: u64,
    left: u64,
}

// One for a part that isn't written `true`.
fn asked_once(part: &Part) -> u64
    ensures count { result ≡ asked (part_view part.now ∷ []) }
    ensures small { result ≤ 1 }
{
    if part.is_truth() { 0 } else { 1 }
}

// The parts that aren't written `true`.
fn asked(parts: &[Part]) -> u64
    ensures { result ≡ asked (map part_view parts.now) }
{
    let mut count: u64 = 0;
    for part in parts {
        count += asked_once(part);
    }
    count
}

// Those of all entries of a matrix.
fn cells_asked(matrix: &Matrix) -> u64
    ensures { result ≡ min (cells_asked (matrix_view matrix.now)) (2 ^ 64 - 1) }
{
    let mut count: u64 = 0;
    for cell in matrix.as_slice() {
        count = count.saturating_add(asked(cell.parts.as_slice()));
    }
    count
}

#[cycle(counts)]
fn counts(
    alloc: Global,
    types: &mut RefinedTypes,
    scopes: &Scopes,
    at: usize,
) -> Result<Tally, AllocError>
    requires { at < count_of types.old }
    ensures right { IfOk result (λ made. made.right
        ≡ min (on_right (refined_at (scopes_view scopes.now) types.old at)) (2 ^ 64 - 1)) }
    ensures left { IfOk result (λ made. made.left
        ≡ min (on_left (refined_at (scopes_view scopes.now) types.old at)) (2 ^ 64 - 1)) }
    ensures grows { Grows types.old types.new }
{
    let exposed = types.expose(alloc, scopes, at)?;
    let node = types.node(exposed);
    let own = asked(node.parts());
    let form = node.form.copy(alloc)?;
    let inner = form_counts(alloc, types, scopes, &form)?;
    Ok(Tally {
        right: own.saturating_add(inner.right),
        left: inner.left,
    })
}

// Of a type of this form without parts at its top.
#[cycle(counts)]
fn form_counts(
    alloc: Global,
    types: &mut RefinedTypes,
    scopes: &Scopes,
    form: &Form,
) -> Result<Tally, AllocError>
    requires { All (λ p. p < count_of types.old) (form_rows form.now) }
    ensures right { IfOk result (λ made. made.right
        ≡ min (on_right (form_type (types_of (scopes_view scopes.now) types.old) form.now [])) (2 ^ 64 - 1)) }
    ensures left { IfOk result (λ made. made.left
        ≡ min (on_left (form_type (types_of (scopes_view scopes.now) types.old) form.now [])) (2 ^ 64 - 1)) }
    ensures grows { Grows types.old types.new }
{
    match form {
        Form::Int | Form::Bool | Form::Unit | Form::Variable(_) => Ok(Tally { right: 0, left: 0 }),
        Form::Function(_, a, b) => {
            let argument = counts(alloc, types, scopes, *a)?;
            let result = counts(alloc, types, scopes, *b)?;
            Ok(Tally {
                right: argument.left.saturating_add(result.right),
                left: argument.right.saturating_add(result.left),
            })
        }
        Form::Tuple(row) => row_counts(alloc, types, scopes, row),
        Form::Array(element) => {
            let inner = counts(alloc, types, scopes, *element)?;
            let both = inner.right.saturating_add(inner.left);
            Ok(Tally {
                right: both,
                left: both,
            })
        }
        Form::Data(_, row, matrix) => {
            let inner = row_counts(alloc, types, scopes, row)?;
            Ok(Tally {
                right: inner.right.saturating_add(cells_asked(matrix)),
                left: inner.left,
            })
        }
        Form::Map(element) => counts(alloc, types, scopes, *element),
    }
}

// Of types in a row.
#[cycle(counts)]
fn row_counts(
    alloc: Global,
    types: &mut RefinedTypes,
    scopes: &Scopes,
    row: &[usize],
) -> Result<Tally, AllocError>
    requires { All (λ p. p < count_of types.old) row.now }
    ensures right { IfOk result (λ made. made.right
        ≡ min (all_on_right (each (types_of (scopes_view scopes.now) types.old) row.now)) (2 ^ 64 - 1)) }
    ensures left { IfOk result (λ made. made.left
        ≡ min (all_on_left (each (types_of (scopes_view scopes.now) types.old) row.now)) (2 ^ 64 - 1)) }
    ensures grows { Grows types.old types.new }
{
    let mut right: u64 = 0;
    let mut left: u64 = 0;
    for at in row {
        let one = counts(alloc, types, scopes, *at)?;
        right = right.saturating_add(one.right);
        left = left.saturating_add(one.left);
    }
    Ok(Tally { right, left })
}

/// How many implications a subtyping has, at most 2^64 - 1, in time linear in the types: an array's elements are compared both ways, so
/// arrays in arrays double them with each level. What is looked at meanwhile is let go again.
pub fn implication_count(
    alloc: Global,
    types: &mut RefinedTypes,
    scopes: &Scopes,
    sides: (usize, usize),
) -> Result<u64, AllocError>
    requires left { sides.0 < count_of types.old }
    requires right { sides.1 < count_of types.old }
    requires same { erased (refined_at (scopes_view scopes.now) types.old sides.0)
        ≡ erased (refined_at (scopes_view scopes.now) types.old sides.1) }
    ensures count { IfOk result (λ count. (P : Setting) (o : Origin) (Γ : Context) → count
        ≡ min (length (split P o Γ (refined_at (scopes_view scopes.now) types.old sides.0)
        (refined_at (scopes_view scopes.now) types.old sides.1))) (2 ^ 64 - 1)) }
    ensures grows { Grows types.old types.new }
{
    let len = types.len();
    let left = counts(alloc, types, scopes, sides.0)?;
    let right = counts(alloc, types, scopes, sides.1)?;
    types.truncate(len);
    Ok(right.right.saturating_add(left.left))
}

// Whether a subtyping of two types has implications, or the one the other way round.
pub(crate) fn has_implications(
    alloc: Global,
    types: &mut RefinedTypes,
    scopes: &Scopes,
    sides: (usize, usize),
) -> Result<bool, AllocError>
    requires left { sides.0 < count_of types.old }
    requires right { sides.1 < count_of types.old }
    requires same { erased (refined_at (scopes_view scopes.now) types.old sides.0)
        ≡ erased (refined_at (scopes_view scopes.now) types.old sides.1) }
    ensures none { IfOk result (λ has. has ≡ false → (P : Setting) (o : Origin) (Γ : Context)
        → split P o Γ (refined_at (scopes_view scopes.now) types.old sides.0) (refined_at (scopes_view scopes.now) types.old sides.1)
        ++ split P o Γ (refined_at (scopes_view scopes.now) types.old sides.1) (refined_at (scopes_view scopes.now) types.old sides.0)
        ≡ []) }
    ensures grows { Grows types.old types.new }
{
    let (left, right) = sides;
    let there = implication_count(alloc, types, scopes, (left, right))?;
    if there > 0 {
        return Ok(true);
    }
    let back = implication_count(alloc, types, scopes, (right, left))?;
    Ok(back > 0)
}
