// One sequence of rows that come and go.
ghost use Rattle.std.specs.Prelude.{◌≡◌, ◌≤◌, ◌+◌, ◌∷◌, [], length, All, IfOk, OnOk};
ghost use Rattle.lq_prover_simplex.specs.Table.{table_rows};
ghost use Rattle.lq_cases_engines.specs.Simplex.Numbered.{IsKept, IsTaken};

use crate::simplex::evidence::{contradicts, solves};
use crate::simplex::rows::{draw, row};
use lq_logic_rows::{LinearEngine, LinearRow, LinearStop, Mark, Verdict};
use lq_prover_simplex::Tableau;
use std::alloc::Global;

/// What the checks of a sequence found.
#[derive(Drop)]
pub(crate) struct Counts {
    pub(crate) holds: u64,
    pub(crate) conflicts: u64,
    /// Answers whose evidence isn't one.
    pub(crate) wrong: u64,
}

/// An empty tableau over five terms.
fn empty(alloc: Global) -> Result<Tableau, LinearStop>
    ensures kept { IfOk result (λ tableau. IsKept tableau) }
    ensures rows { IfOk result (λ tableau. table_rows tableau ≡ []) }
{
    match Tableau::new(alloc, 5, 1000) {
        Ok(tableau) => Ok(tableau),
        Err(_) => Err(LinearStop::Memory),
    }
}

/// Adds a row under the number of rows that stand.
fn add(tableau: &mut Tableau, row: &LinearRow) -> Result<(), LinearStop>
    requires kept { IsKept tableau.old }
    requires taken { IsTaken row.now }
    ensures kept { OnOk result (IsKept tableau.new) }
    ensures count { OnOk result (length (table_rows tableau.new) ≡ length (table_rows tableau.old) + 1) }
{
    let Mark(tag) = tableau.mark();
    tableau.assert_row(row, tag)?;
    Ok(())
}

/// Checks a tableau, and looks at the evidence for its answer.
fn ask(
    alloc: Global,
    tableau: &mut Tableau,
    rows: &[LinearRow],
    counts: &mut Counts,
) -> Result<(), LinearStop>
    requires { IsKept tableau.old }
    ensures kept { OnOk result (IsKept tableau.new) }
    ensures rows { table_rows tableau.new ≡ table_rows tableau.old }
{
    let evident = match tableau.check()? {
        Verdict::Holds => {
            counts.holds = counts.holds.wrapping_add(1);
            solves(tableau, rows)
        }
        Verdict::Conflict => {
            counts.conflicts = counts.conflicts.wrapping_add(1);
            contradicts(alloc, tableau, rows)
        }
    };
    if evident != Some(true) {
        counts.wrong = counts.wrong.wrapping_add(1);
    }
    Ok(())
}

/// Goes back to where so many rows stood.
fn back(tableau: &mut Tableau, left: u64)
    requires kept { IsKept tableau.old }
    requires left { left ≤ length (table_rows tableau.old) }
    ensures kept { IsKept tableau.new }
    ensures count { length (table_rows tableau.new) ≡ left }
{
    tableau.back_to(Mark(left));
}

/// Adds a row, or goes back to one of the numbers of rows that stood.
fn step(
    alloc: Global,
    seed: &mut u64,
    tableau: &mut Tableau,
    rows: &mut Vec<LinearRow>,
) -> Result<(), LinearStop>
    requires kept { IsKept tableau.old }
    requires count { length (table_rows tableau.old) ≡ length rows.old.items }
    requires taken { All IsTaken rows.old.items }
    ensures kept { OnOk result (IsKept tableau.new) }
    ensures count { OnOk result (length (table_rows tableau.new) ≡ length rows.new.items) }
    ensures taken { OnOk result (All IsTaken rows.new.items) }
{
    let count = rows.len();
    if draw(seed, 4) == 0 {
        let left = draw(seed, count as u64 + 1);
        back(tableau, left);
        rows.truncate(left as usize);
        return Ok(());
    }
    let Ok(row) = row(alloc, seed) else {
        return Err(LinearStop::Memory);
    };
    add(tableau, &row)?;
    let Ok(()) = rows.push(row) else {
        return Err(LinearStop::Memory);
    };
    Ok(())
}

/// Thirty steps, each followed by a check.
pub(crate) fn sequence(alloc: Global, seed: &mut u64) -> Result<Counts, LinearStop> {
    let mut counts = Counts {
        holds: 0,
        conflicts: 0,
        wrong: 0,
    };
    let mut tableau = empty(alloc)?;
    let mut rows: Vec<LinearRow> = Vec::new(alloc);
    for _ in 0..30 {
        step(alloc, seed, &mut tableau, &mut rows)?;
        ask(alloc, &mut tableau, &rows, &mut counts)?;
    }
    Ok(counts)
}
