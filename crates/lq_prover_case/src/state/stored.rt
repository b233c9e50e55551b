// The rows that stand, in their order.
ghost use Rattle.std.specs.Prelude.{◌≡◌, ◌≢◌, ◌∷◌, [], ◌++◌, ◌<◌, ◌≤◌, MatchBool, IsNone, IfOk, IfErr, IfSome, take, length, OnErr, OnOk};
ghost use Rattle.lq_prover_proof_tree.specs.Trees.TreeView.{multiplier_items, multiplier_views};
ghost use Rattle.lq_prover_differences.specs.Stops.{StopsBy};
ghost use Rattle.lq_prover_differences.specs.Table.{IsDifference, TermsBelow, constants, table_last, table_rows};
ghost use Rattle.lq_logic_rows.specs.Answers.{Stopped};
ghost use Rattle.lq_logic_rows.specs.Contradiction.{tagged, IsContradiction};
ghost use Rattle.lq_prover_case.specs.State.Stored.{IsKept, tagged_rows};

use crate::state::deciding::decide;
use lq_logic_rows::{LinearEngine, LinearRow, LinearStop, Mark};
use lq_prover_differences::DistanceTable;
use lq_prover_proof_tree::literals::copy_row;
use lq_prover_proof_tree::trees::Multipliers;
use std::alloc::{AllocError, Global};

/// A row that stands.
#[derive(Drop)]
pub(crate) struct StoredRow {
    pub(crate) tag: u64,
    pub(crate) row: LinearRow,
    /// Whether it is no difference row.
    pub(crate) odd: bool,
    /// How many rows before it are no difference rows.
    pub(crate) odd_before: usize,
}

/// A copy of a row, with its kind.
fn store(
    alloc: Global,
    row: &LinearRow,
    tag: u64,
    odd_before: usize,
) -> Result<StoredRow, AllocError>
    ensures row { IfOk result (λ s. (s.row ≡ row.now) × (s.tag ≡ tag) × (s.odd_before ≡ odd_before)) }
    ensures kind { IfOk result (λ s. MatchBool s.odd (IsDifference row.now.parts → ⊥)
        (IsDifference row.now.parts)) }
{
    Ok(StoredRow {
        tag,
        row: copy_row(alloc, row)?,
        odd: !row.is_difference(),
        odd_before,
    })
}

/// Adds a difference row to the distances, with the multipliers of the conflict that it makes.
fn admit(
    alloc: Global,
    distances: &mut DistanceTable,
    row: &LinearRow,
    tag: u64,
) -> Result<Option<Multipliers>, LinearStop>
    requires difference { IsDifference row.now.parts }
    requires below { TermsBelow distances.old.terms row.now.parts }
    requires few { length (table_rows distances.old) < u64.MAX }
    requires fresh { IsNone (tagged (table_rows distances.old) tag) }
    requires going { table_last distances.old ≢ Stopped }
    ensures stands { OnOk result (table_rows distances.new ≡ table_rows distances.old ++ (tag, row.now)
        ∷ []) }
    ensures refused { OnErr result (table_rows distances.new ≡ table_rows distances.old) }
    ensures going { table_last distances.new ≢ Stopped }
    ensures terms { distances.new.terms ≡ distances.old.terms }
    ensures clash { IfOk result (λ clash. IfSome clash (λ ms. IsContradiction (table_rows distances.new)
        (multiplier_views (multiplier_items ms)))) }
    ensures stop { IfErr result (StopsBy (constants (table_rows distances.old ++ (tag, row.now) ∷ []))) }
{
    let mark = distances.mark();
    let Ok(()) = distances.allow(mark.0 + 1) else {
        return Err(LinearStop::Memory);
    };
    match distances.assert_row(row, tag) {
        Ok(()) => {}
        Err(stop) => {
            distances.back_to(mark);
            return Err(stop);
        }
    }
    if !distances.contradicted() {
        return Ok(None);
    }
    match decide(alloc, distances) {
        Ok(clash) => Ok(clash),
        Err(stop) => {
            distances.back_to(mark);
            Err(stop)
        }
    }
}

/// Adds a row. Where it makes a conflict of the difference rows, their multipliers are the answer.
pub(crate) fn add(
    alloc: Global,
    rows: &mut Vec<StoredRow>,
    odd: &mut Vec<usize>,
    distances: &mut DistanceTable,
    row: &LinearRow,
    tag: u64,
) -> Result<Option<Multipliers>, LinearStop>
    requires kept { IsKept rows.old.items odd.old.items distances.old }
    requires below { TermsBelow distances.old.terms row.now.parts }
    requires fresh { IsNone (tagged (tagged_rows rows.old.items) tag) }
    ensures kept { IsKept rows.new.items odd.new.items distances.new }
    ensures stands { OnOk result (tagged_rows rows.new.items ≡ tagged_rows rows.old.items ++ (tag, row.now)
        ∷ []) }
    ensures refused { OnErr result (rows.new.items ≡ rows.old.items) }
    ensures terms { distances.new.terms ≡ distances.old.terms }
    ensures clash { IfOk result (λ clash. IfSome clash (λ ms. IsContradiction (tagged_rows rows.new.items)
        (multiplier_views (multiplier_items ms)))) }
    ensures stop { IfErr result (StopsBy (constants (tagged_rows rows.old.items ++ (tag, row.now) ∷ []))) }
{
    let Ok(stored) = store(alloc, row, tag, odd.len()) else {
        return Err(LinearStop::Memory);
    };
    let Ok(()) = rows.reserve(1) else {
        return Err(LinearStop::Memory);
    };
    if stored.odd {
        let Ok(()) = odd.push(rows.len()) else {
            return Err(LinearStop::Memory);
        };
        rows.push_reserved(stored);
        return Ok(None);
    }
    let clash = admit(alloc, distances, row, tag)?;
    rows.push_reserved(stored);
    Ok(clash)
}

/// Keeps so many of the first rows.
pub(crate) fn keep(
    rows: &mut Vec<StoredRow>,
    odd: &mut Vec<usize>,
    distances: &mut DistanceTable,
    count: usize,
)
    requires kept { IsKept rows.old.items odd.old.items distances.old }
    requires within { count ≤ length rows.old.items }
    ensures kept { IsKept rows.new.items odd.new.items distances.new }
    ensures rows { rows.new.items ≡ take count rows.old.items }
    ensures terms { distances.new.terms ≡ distances.old.terms }
{
    if let Some(first) = rows.get(count) {
        let odd_before = first.odd_before;
        odd.truncate(odd_before);
        distances.back_to(Mark((count - odd_before) as u64));
        rows.truncate(count);
    }
}
