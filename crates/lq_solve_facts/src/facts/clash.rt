// Literals become facts.
ghost use Rattle.std.specs.Prelude.{◌≡◌, ℕ, IsTrue};
ghost use Rattle.lq_prover_case.specs.State.RowState.{terms_of};
ghost use Rattle.lq_prover_proof_tree.specs.Trees.Met.{AllHold};
ghost use Rattle.lq_logic_rows.specs.Difference.{TermsBelow};
ghost use Rattle.lq_logic_rows.specs.Row.{RowHolds, Valuation};
ghost use Rattle.lq_logic_predicates.specs.Points.{Point};
ghost use Rattle.lq_solve_facts.specs.Facts.Facts.{Grows, facts_of};

use lq_logic_predicates::Symbol;
use lq_logic_rows::LinearRow;
use lq_prover_case::state::PathState;
use lq_prover_proof_tree::trees::proved_paths_have_no_point;

/// Whether the terms of a row are below a number.
#[tactic(auto, using(crate::proofs::FactsLemmas::Below::below_next, crate::proofs::FactsLemmas::Below::below_all))]
fn is_below(parts: &[(u64, i128)], room: u64) -> bool
    ensures { IsTrue result → TermsBelow room parts.now }
{
    for part in parts {
        if part.0 >= room {
            return false;
        }
    }
    true
}

/// Takes a row as the next fact, where its terms are below the number. The answer is whether it is known to clash.
pub(crate) fn take_row(state: &mut PathState, room: u64, row: &LinearRow) -> bool
    requires { terms_of state.old.rows ≡ room }
    ensures held { (v : Valuation) (p : Point) → AllHold v p (facts_of state.old) → RowHolds v row.now
        → AllHold v p (facts_of state.new) }
    ensures clash { IsTrue result → (v : Valuation) (p : Point) → AllHold v p (facts_of state.old)
        → RowHolds v row.now → ⊥ }
    ensures grows { Grows (facts_of state.old) (facts_of state.new) }
    ensures limits { terms_of state.new.rows ≡ terms_of state.old.rows }
{
    proved_paths_have_no_point();
    if !is_below(row.parts(), room) {
        return false;
    }
    match state.take_row(row) {
        Ok(Some(_clash)) => true,
        Ok(None) => false,
        Err(_) => false,
    }
}

/// Takes as the next fact that a flag has a value. The answer is whether it is known to clash.
pub(crate) fn take_flag(state: &mut PathState, flag: Symbol, value: bool) -> bool
    ensures held { (v : Valuation) (p : Point) → AllHold v p (facts_of state.old) → p.holds flag ≡ value
        → AllHold v p (facts_of state.new) }
    ensures clash { IsTrue result → (v : Valuation) (p : Point) → AllHold v p (facts_of state.old)
        → p.holds flag ≡ value → ⊥ }
    ensures grows { Grows (facts_of state.old) (facts_of state.new) }
    ensures limits { terms_of state.new.rows ≡ terms_of state.old.rows }
{
    proved_paths_have_no_point();
    match state.take_flag(flag, value) {
        Ok(Some(_clash)) => true,
        Ok(None) => false,
        Err(_) => false,
    }
}

/// Whether the facts are known to clash.
pub(crate) fn clashes(state: &mut PathState) -> bool
    ensures clash { IsTrue result → (v : Valuation) (p : Point) → AllHold v p (facts_of state.old) → ⊥ }
    ensures same { facts_of state.new ≡ facts_of state.old }
    ensures limits { terms_of state.new.rows ≡ terms_of state.old.rows }
{
    proved_paths_have_no_point();
    match state.check() {
        Ok(Some(_clash)) => true,
        Ok(None) => false,
        Err(_) => false,
    }
}
