// Whether two terms apply one of `*`, `/` and `mod`.
ghost use Rattle.std.specs.Prelude.{◌≡◌, ◌<◌, IsTrue, length};
ghost use Rattle.lq_cases_prover.specs.Decide.Pairs.{AreAlone, IsAlone, apply_one};
ghost use Rattle.lq_logic_predicates.specs.TableView.{terms_of};
ghost use Rattle.lq_logic_predicates.specs.TermView.{sum_of};

use lq_logic_predicates::{Term, TermTable};

/// Whether two terms apply one of `*`, `/` and `mod`.
fn apply_one(first: &Term, second: &Term) -> bool
    ensures { result ≡ apply_one (sum_of first.now) (sum_of second.now) }
{
    match (first, second) {
        (Term::Mul(_, _), Term::Mul(_, _))
        | (Term::Div(_, _), Term::Div(_, _))
        | (Term::Mod(_, _), Term::Mod(_, _)) => true,
        _ => false,
    }
}

/// Whether no term before one applies the same of these.
fn is_alone(table: &TermTable, at: u64) -> bool
    requires { at < length (terms_of table.now) }
    ensures { IsTrue result → IsAlone (terms_of table.now) at }
{
    for earlier in 0..at {
        if apply_one(table.term(earlier), table.term(at)) {
            return false;
        }
    }
    true
}

/// Whether no two terms of a table apply one of `*`, `/` and `mod`.
pub(crate) fn are_alone(table: &TermTable) -> bool
    ensures { IsTrue result → AreAlone (terms_of table.now) }
{
    for at in 0..table.len() {
        if !is_alone(table, at) {
            return false;
        }
    }
    true
}
