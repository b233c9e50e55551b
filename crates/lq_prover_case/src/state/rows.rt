// The rows of a path.
ghost use Rattle.std.specs.Prelude.{◌≡◌, ◌≤◌, List, ◌∷◌, [], ◌++◌, true, IfOk, IfErr, IfSome, IfNone, IsNone, OnOk, OnErr, length, take};
ghost use Rattle.lq_prover_proof_tree.specs.Trees.TreeView.{multiplier_items, multiplier_views};
ghost use Rattle.lq_prover_differences.specs.Stops.{StopsBy};
ghost use Rattle.lq_prover_differences.specs.Table.{constants};
ghost use Rattle.lq_logic_rows.specs.Contradiction.{tagged, Solves, IsContradiction};
ghost use Rattle.lq_logic_rows.specs.Difference.{TermsBelow};
ghost use Rattle.lq_logic_rows.specs.Near.{IsNear};
ghost use Rattle.lq_logic_rows.specs.Row.{Row};
ghost use Rattle.lq_base_numbers.specs.Fractions.Value.{value_of};
ghost use Rattle.lq_prover_case.specs.State.RowState.{AreDifferences, AreValuesBy, MayStop, is_solved, row_point, terms_of};
ghost use Rattle.lq_prover_case.specs.State.Stored.{HandsMore, Stands, WasHanded};

use crate::state::deciding::decide;
use crate::state::filling::{decide_by, keep_first};
use crate::state::holding::all_hold;
use crate::state::stored::{StoredRow, add, keep};
use lq_base_numbers::fractions::Frac;
use lq_logic_rows::{LinearEngine, LinearRow, LinearStop, Mark};
use lq_prover_differences::DistanceTable;
use lq_prover_proof_tree::trees::Multipliers;
use lq_prover_simplex::Tableau;
use std::alloc::{AllocError, Global};
use std::marker::Model;

/// Which engine has values that solve the rows.
#[derive(Clone, Copy)]
pub(crate) enum Found {
    Nothing,
    ByDistances,
    ByTableau,
}

/// Rows that come and go, decided by both engines: difference rows by the table of distances as they come, and all rows by the tableau
/// where another row doesn't hold at the values of the distances. Until then there is no tableau.
#[derive(Drop)]
pub struct LinearRows {
    alloc: Global,
    terms: u64,
    pivots: u64,
    rows: Vec<StoredRow>,
    /// The indexes of the rows that are no difference rows.
    odd: Vec<usize>,
    distances: DistanceTable,
    /// It has the first ones of the rows.
    tableau: Option<Tableau>,
    found: Found,
}

impl Model for LinearRows {
    ghost use Rattle.std.specs.Prelude.{◌≡◌};
    ghost use Rattle.lq_prover_case.specs.State.RowState.{RowState, IsRowState};
    ghost use Rattle.lq_prover_case.specs.State.Stored.{tagged_rows};

    ghost Value = { RowState };

    ghost view = { λ s. record { rows = tagged_rows s.rows.items; found = s.found; distances = s.distances; tableau = s.tableau; pivots = s.pivots } };

    ghost invariant = { λ s. (s.distances.terms ≡ s.terms) × IsRowState s.rows.items s.odd.items s.distances s.tableau s.found s.pivots };
}

impl LinearRows {
    /// No rows, over the terms below `terms`. A check makes at most `pivots` pivots.
    pub fn new(alloc: Global, terms: u64, pivots: u64) -> Result<LinearRows, AllocError>
        ensures rows { IfOk result (λ s. s.rows ≡ []) }
        ensures limits { IfOk result (λ s. (terms_of s ≡ terms) × (s.pivots ≡ pivots)) }
        ensures handed { IfOk result (λ s. WasHanded s.tableau []) }
    {
        Ok(LinearRows {
            alloc,
            terms,
            pivots,
            rows: Vec::new(alloc),
            odd: Vec::new(alloc),
            distances: DistanceTable::new(alloc, terms, 0)?,
            tableau: None,
            found: Found::Nothing,
        })
    }

    /// Adds a row under a tag that no row that stands has. Where the difference rows have a conflict with it, their multipliers are the
    /// answer, and the row stands all the same. After a refusal the rows are as before.
    pub fn take_row(&mut self, row: &LinearRow, tag: u64) -> Result<Option<Multipliers>, LinearStop>
        requires below { TermsBelow (terms_of self.old) row.now.parts }
        requires fresh { IsNone (tagged self.old.rows tag) }
        ensures stands { OnOk result (self.new.rows ≡ self.old.rows ++ (tag, row.now) ∷ []) }
        ensures refused { OnErr result (self.new.rows ≡ self.old.rows) }
        ensures limits { (terms_of self.new ≡ terms_of self.old) × (self.new.pivots ≡ self.old.pivots) }
        ensures clash { IfOk result (λ clash. IfSome clash (λ ms. IsContradiction self.new.rows
            (multiplier_views (multiplier_items ms)))) }
        ensures handed { self.new.tableau ≡ self.old.tableau }
        ensures stop { IfErr result (StopsBy (constants (self.old.rows ++ (tag, row.now) ∷ []))) }
    {
        self.found = Found::Nothing;
        add(
            self.alloc,
            &mut self.rows,
            &mut self.odd,
            &mut self.distances,
            row,
            tag,
        )
    }

    /// How many rows stand.
    pub fn mark(&self) -> Mark
        ensures { result.0 ≡ length self.now.rows }
    {
        Mark(self.rows.len() as u64)
    }

    /// Keeps as many of the first rows as stood at the mark.
    pub fn back_to(&mut self, mark: Mark)
        requires { mark.0 ≤ length self.old.rows }
        ensures rows { self.new.rows ≡ take mark.0 self.old.rows }
        ensures limits { (terms_of self.new ≡ terms_of self.old) × (self.new.pivots ≡ self.old.pivots) }
        ensures handed { (ever : List Row) → WasHanded self.old.tableau ever → WasHanded self.new.tableau ever }
    {
        self.found = Found::Nothing;
        keep(
            &mut self.rows,
            &mut self.odd,
            &mut self.distances,
            mark.0 as usize,
        );
        keep_first(&mut self.tableau, mark);
    }

    /// The multipliers of a conflict of the rows, or None where values solve them. Of the rows that are no difference rows none is handed
    /// to the tableau as long as all hold at the values of the distances.
    pub fn check(&mut self) -> Result<Option<Multipliers>, LinearStop>
        ensures rows { self.new.rows ≡ self.old.rows }
        ensures limits { (terms_of self.new ≡ terms_of self.old) × (self.new.pivots ≡ self.old.pivots) }
        ensures some { IfOk result (λ clash. IfSome clash (λ ms. IsContradiction self.new.rows
            (multiplier_views (multiplier_items ms)))) }
        ensures none { IfOk result (λ clash. IfNone clash ((is_solved self.new ≡ true)
            × Solves (row_point self.new) self.new.rows)) }
        ensures handed { HandsMore (Stands self.old.rows) self.old.tableau self.new.tableau }
        ensures stop { IfErr result (λ stop. (ever : List Row) → WasHanded self.old.tableau ever
            → MayStop (terms_of self.old) self.old.pivots ever (Stands self.old.rows) self.old.rows stop) }
    {
        self.found = Found::Nothing;
        if let Some(clash) = decide(self.alloc, &mut self.distances)? {
            return Ok(Some(clash));
        }
        if all_hold(&self.distances, &self.rows, &self.odd) {
            self.found = Found::ByDistances;
            return Ok(None);
        }
        let clash = decide_by(
            self.alloc,
            self.terms,
            self.pivots,
            &mut self.tableau,
            &self.rows,
        )?;
        if clash.is_none() {
            self.found = Found::ByTableau;
        }
        Ok(clash)
    }

    /// Where all rows are difference rows, the values that solve them are whole numbers, and none of them and no difference of two is
    /// larger in size than the sizes of the constants sum to.
    pub fn values_are_near(&self)
        requires { is_solved self.now ≡ true }
        ensures { AreDifferences self.now.rows → IsNear (constants self.now.rows) (terms_of self.now) (row_point self.now) }
    {
        match self.found {
            Found::ByDistances => self.distances.values_are_near(),
            Found::ByTableau | Found::Nothing => {}
        }
    }

    /// The values that solve the rows are those of a configuration of the tableau, or whole numbers that are near by the sizes of the
    /// constants.
    pub fn values_are_placed(&self)
        requires { is_solved self.now ≡ true }
        ensures { (ever : List Row) → WasHanded self.now.tableau ever → AreValuesBy (terms_of self.now) ever self.now.rows
            (row_point self.now) }
    {
        match self.found {
            Found::ByDistances => self.distances.values_are_near(),
            Found::ByTableau => match &self.tableau {
                Some(tableau) => tableau.configuration(),
                None => unreachable!(),
            },
            Found::Nothing => unreachable!(),
        }
    }

    /// The value of a term, where values are known that solve the rows.
    pub fn value(&self, term: u64) -> Frac
        requires { is_solved self.now ≡ true }
        ensures { value_of result ≡ row_point self.now term }
    {
        match self.found {
            Found::ByDistances => self.distances.value(term),
            Found::ByTableau => match &self.tableau {
                Some(tableau) => tableau.value(term),
                None => unreachable!(),
            },
            Found::Nothing => unreachable!(),
        }
    }
}
