// A tableau is filled with the rows that it lacks, and asked.
ghost use Rattle.std.specs.Prelude.{◌≡◌, ◌≢◌, List, Some, IfOk, IfErr, IfSome, IfNone, OnOk};
ghost use Rattle.lq_prover_proof_tree.specs.Trees.TreeView.{multiplier_items, multiplier_views};
ghost use Rattle.lq_logic_rows.specs.Answers.{Held, Stopped};
ghost use Rattle.lq_logic_rows.specs.Contradiction.{Solves, IsContradiction};
ghost use Rattle.lq_logic_rows.specs.Row.{Row};
ghost use Rattle.lq_prover_simplex.specs.Table.{Handed, table_limits, table_last, table_point, table_rows};
ghost use Rattle.lq_prover_case.specs.State.Stored.{AllBelow, AreApart, HandsMore, IsFilled, IsFront, KeepsFirst, MayBeFilled, SolvesBy, Stands, StopsInTableau, WasHanded, tagged_rows};

use crate::state::deciding::decide;
use crate::state::stored::StoredRow;
use lq_logic_rows::{LinearEngine, LinearStop, Mark};
use lq_prover_proof_tree::trees::Multipliers;
use lq_prover_simplex::Tableau;
use std::alloc::Global;

/// Hands a tableau the rows that it lacks.
fn hand(tableau: &mut Tableau, rows: &[StoredRow]) -> Result<(), LinearStop>
    requires front { IsFront (table_rows tableau.old) (tagged_rows rows.now) }
    requires below { AllBelow tableau.old.system.terms (tagged_rows rows.now) }
    requires apart { AreApart (tagged_rows rows.now) }
    requires going { table_last tableau.old ≢ Stopped }
    ensures handed { HandsMore (Stands (tagged_rows rows.now)) (Some tableau.old) (Some tableau.new) }
    ensures all { OnOk result (table_rows tableau.new ≡ tagged_rows rows.now) }
    ensures front { IsFront (table_rows tableau.new) (tagged_rows rows.now) }
    ensures going { OnOk result (table_last tableau.new ≢ Stopped) }
    ensures limits { table_limits tableau.new ≡ table_limits tableau.old }
    ensures stop { IfErr result (λ stop. (ever : List Row) → Handed tableau.old ever
        → StopsInTableau tableau.old.system.terms tableau.old.limit ever (Stands (tagged_rows rows.now)) stop) }
{
    let Mark(first) = tableau.mark();
    for at in first as usize..rows.len() {
        let stored = &rows[at];
        tableau.assert_row(&stored.row, stored.tag)?;
    }
    Ok(())
}

/// Decides the rows by a tableau that has the first ones of them.
fn decide_all(
    alloc: Global,
    tableau: &mut Tableau,
    rows: &[StoredRow],
) -> Result<Option<Multipliers>, LinearStop>
    requires filled { IsFilled tableau.old.system.terms tableau.old.limit (tagged_rows rows.now) tableau.old }
    requires below { AllBelow tableau.old.system.terms (tagged_rows rows.now) }
    requires apart { AreApart (tagged_rows rows.now) }
    ensures filled { IsFilled tableau.old.system.terms tableau.old.limit (tagged_rows rows.now) tableau.new }
    ensures some { IfOk result (λ found. IfSome found (λ ms. IsContradiction (tagged_rows rows.now)
        (multiplier_views (multiplier_items ms)))) }
    ensures none { IfOk result (λ found. IfNone found ((table_last tableau.new ≡ Held)
        × Solves (table_point tableau.new) (tagged_rows rows.now))) }
    ensures handed { HandsMore (Stands (tagged_rows rows.now)) (Some tableau.old) (Some tableau.new) }
    ensures stop { IfErr result (λ stop. (ever : List Row) → Handed tableau.old ever
        → StopsInTableau tableau.old.system.terms tableau.old.limit ever (Stands (tagged_rows rows.now)) stop) }
{
    match hand(tableau, rows) {
        Ok(()) => decide(alloc, tableau),
        Err(stop) => {
            let mark = tableau.mark();
            tableau.back_to(mark);
            Err(stop)
        }
    }
}

/// Decides the rows by a tableau, which is made where there is none.
pub(crate) fn decide_by(
    alloc: Global,
    terms: u64,
    pivots: u64,
    tableau: &mut Option<Tableau>,
    rows: &[StoredRow],
) -> Result<Option<Multipliers>, LinearStop>
    requires filled { MayBeFilled terms pivots (tagged_rows rows.now) tableau.old }
    requires below { AllBelow terms (tagged_rows rows.now) }
    requires apart { AreApart (tagged_rows rows.now) }
    ensures filled { MayBeFilled terms pivots (tagged_rows rows.now) tableau.new }
    ensures some { IfOk result (λ found. IfSome found (λ ms. IsContradiction (tagged_rows rows.now)
        (multiplier_views (multiplier_items ms)))) }
    ensures none { IfOk result (λ found. IfNone found (SolvesBy (tagged_rows rows.now) tableau.new)) }
    ensures handed { HandsMore (Stands (tagged_rows rows.now)) tableau.old tableau.new }
    ensures stop { IfErr result (λ stop. (ever : List Row) → WasHanded tableau.old ever
        → StopsInTableau terms pivots ever (Stands (tagged_rows rows.now)) stop) }
{
    if tableau.is_none() {
        let Ok(empty) = Tableau::new(alloc, terms, pivots) else {
            return Err(LinearStop::Memory);
        };
        *tableau = Some(empty);
    }
    match tableau {
        Some(tableau) => decide_all(alloc, tableau, rows),
        None => unreachable!(),
    }
}

/// Takes the rows past the first ones out of a tableau.
pub(crate) fn keep_first(tableau: &mut Option<Tableau>, mark: Mark)
    ensures { KeepsFirst mark.0 tableau.old tableau.new }
{
    if let Some(tableau) = tableau {
        if tableau.mark().0 > mark.0 {
            tableau.back_to(mark);
        }
    }
}
