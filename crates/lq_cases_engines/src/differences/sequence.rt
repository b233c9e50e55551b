// One sequence of rows that come and go.
ghost use Rattle.std.specs.Prelude.{◌≡◌, ◌<◌, ◌≤◌, ◌+◌, ◌∷◌, [], length, All, IfOk, OnOk};
ghost use Rattle.lq_logic_rows.specs.Answers.{Nothing, Held};
ghost use Rattle.lq_prover_differences.specs.Table.{table_rows, table_last, table_limits};
ghost use Rattle.lq_cases_engines.specs.Differences.Numbered.{IsKept, IsTaken};

use crate::differences::rows::{draw, row};
use lq_logic_rows::{LinearEngine, LinearRow, LinearStop, Mark, Verdict};
use lq_prover_differences::DistanceTable;
use std::alloc::Global;

/// What the checks of a sequence found.
#[derive(Drop)]
pub(crate) struct Counts {
    pub(crate) holds: u64,
    pub(crate) conflicts: u64,
    pub(crate) differ: u64,
}

/// An empty table over six terms, for forty rows.
fn empty(alloc: Global) -> Result<DistanceTable, LinearStop>
    ensures kept { IfOk result (λ table. IsKept table) }
    ensures rows { IfOk result (λ table. table_rows table ≡ []) }
{
    match DistanceTable::new(alloc, 6, 40) {
        Ok(table) => Ok(table),
        Err(_) => Err(LinearStop::Memory),
    }
}

/// Adds a row under the number of rows that stand.
fn add(table: &mut DistanceTable, row: &LinearRow) -> Result<(), LinearStop>
    requires kept { IsKept table.old }
    requires room { length (table_rows table.old) < 40 }
    requires taken { IsTaken row.now }
    ensures kept { OnOk result (IsKept table.new) }
    ensures count { OnOk result (length (table_rows table.new) ≡ length (table_rows table.old) + 1) }
{
    let Mark(tag) = table.mark();
    table.assert_row(row, tag)?;
    Ok(())
}

/// A table made anew for these rows.
fn anew(alloc: Global, rows: &[LinearRow]) -> Result<DistanceTable, LinearStop>
    requires taken { All IsTaken rows.now }
    requires room { length rows.now ≤ 40 }
    ensures { IfOk result (λ table. IsKept table) }
{
    let mut table = empty(alloc)?;
    for row in rows {
        add(&mut table, row)?;
    }
    Ok(table)
}

/// Whether two tables have the same value for each term.
fn same_values(left: &DistanceTable, right: &DistanceTable) -> bool
    requires left { table_last left.now ≡ Held }
    requires right { table_last right.now ≡ Held }
{
    for term in 0..6 {
        if left.value(term) != right.value(term) {
            return false;
        }
    }
    true
}

/// Checks a table and one made anew for its rows, and counts what they find.
fn compare(
    table: &mut DistanceTable,
    other: &mut DistanceTable,
    counts: &mut Counts,
) -> Result<(), LinearStop>
    requires kept { IsKept table.old }
    requires other { IsKept other.old }
    ensures kept { OnOk result (IsKept table.new) }
    ensures rows { table_rows table.new ≡ table_rows table.old }
{
    match (table.check()?, other.check()?) {
        (Verdict::Holds, Verdict::Holds) => {
            counts.holds = counts.holds.wrapping_add(1);
            if !same_values(table, other) {
                counts.differ = counts.differ.wrapping_add(1);
            }
        }
        (Verdict::Conflict, Verdict::Conflict) => counts.conflicts = counts
            .conflicts
            .wrapping_add(1),
        (Verdict::Holds, Verdict::Conflict) | (Verdict::Conflict, Verdict::Holds) => {
            counts.differ = counts.differ.wrapping_add(1)
        }
    }
    Ok(())
}

/// Goes back to where so many rows stood.
fn back(table: &mut DistanceTable, left: u64)
    requires kept { IsKept table.old }
    requires left { left ≤ length (table_rows table.old) }
    ensures kept { IsKept table.new }
    ensures count { length (table_rows table.new) ≡ left }
{
    table.back_to(Mark(left));
}

/// Adds a row, or goes back to one of the numbers of rows that stood.
fn step(
    alloc: Global,
    seed: &mut u64,
    table: &mut DistanceTable,
    rows: &mut Vec<LinearRow>,
) -> Result<(), LinearStop>
    requires kept { IsKept table.old }
    requires count { length (table_rows table.old) ≡ length rows.old.items }
    requires room { length rows.old.items ≤ 40 }
    requires taken { All IsTaken rows.old.items }
    ensures kept { OnOk result (IsKept table.new) }
    ensures count { OnOk result (length (table_rows table.new) ≡ length rows.new.items) }
    ensures room { OnOk result (length rows.new.items ≤ 40) }
    ensures taken { OnOk result (All IsTaken rows.new.items) }
{
    let count = rows.len();
    if count == 40 || draw(seed, 4) == 0 {
        let left = draw(seed, count as u64 + 1);
        back(table, left);
        rows.truncate(left as usize);
        return Ok(());
    }
    let Ok(row) = row(alloc, seed) else {
        return Err(LinearStop::Memory);
    };
    add(table, &row)?;
    let Ok(()) = rows.push(row) else {
        return Err(LinearStop::Memory);
    };
    Ok(())
}

/// Thirty steps, each followed by a check.
pub(crate) fn sequence(alloc: Global, seed: &mut u64) -> Result<Counts, LinearStop> {
    let mut counts = Counts {
        holds: 0,
        conflicts: 0,
        differ: 0,
    };
    let mut table = empty(alloc)?;
    let mut rows: Vec<LinearRow> = Vec::new(alloc);
    for _ in 0..30 {
        step(alloc, seed, &mut table, &mut rows)?;
        let mut other = anew(alloc, &rows)?;
        compare(&mut table, &mut other, &mut counts)?;
    }
    Ok(counts)
}
