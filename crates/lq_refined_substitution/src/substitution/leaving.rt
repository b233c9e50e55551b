// What stays as it is where something is put for symbols.
ghost use Rattle.std.specs.Prelude.{◌≡◌, map, IsTrue};
ghost use Rattle.lq_refined_types.specs.Parts.Substitution.{atom_by, formula_by, sum_by};
ghost use Rattle.lq_logic_predicates.specs.PredView.{formula_of};
ghost use Rattle.lq_logic_predicates.specs.TermView.{sum_of};
ghost use Rattle.lq_refined_substitution.specs.Substitution.Composing.{put_in};
ghost use Rattle.lq_refined_substitution.specs.Substitution.Views.{atom_view, subst_view, swaps_view};

use crate::substitution::atoms::Atom;
use crate::substitution::substs::Subst;
use crate::substitution::swaps::Swap;
use lq_logic_predicates::{Pred, Term};

/// Whether a term speaks of no symbol for which a term is put.
fn leaves_term(term: &Term, by: &Subst) -> bool
    ensures { IsTrue result → sum_by (subst_view by.now) (sum_of term.now) ≡ sum_of term.now }
{
    match term {
        Term::Whole(_) => true,
        Term::Var(x) => by.term(*x).is_none(),
        Term::Neg(a) => leaves_term(a, by),
        Term::Add(a, b) => leaves_term(a, by) && leaves_term(b, by),
        Term::Sub(a, b) => leaves_term(a, by) && leaves_term(b, by),
        Term::Mul(a, b) => leaves_term(a, by) && leaves_term(b, by),
        Term::Div(a, b) => leaves_term(a, by) && leaves_term(b, by),
        Term::Mod(a, b) => leaves_term(a, by) && leaves_term(b, by),
        Term::Length(a) => leaves_term(a, by),
        Term::Measure(_, a) => leaves_term(a, by),
    }
}

/// Whether a predicate speaks of no symbol for which something is put at its place.
fn leaves_pred(pred: &Pred, by: &Subst) -> bool
    ensures { IsTrue result → formula_by (subst_view by.now) (formula_of pred.now) ≡ formula_of pred.now }
{
    match pred {
        Pred::True | Pred::False => true,
        Pred::Flag(x) => by.pred(*x).is_none(),
        Pred::Compare(_, a, b) => leaves_term(a, by) && leaves_term(b, by),
        Pred::Same(a, b) => leaves_term(a, by) && leaves_term(b, by),
        Pred::Not(p) => leaves_pred(p, by),
        Pred::And(p, q) => leaves_pred(p, by) && leaves_pred(q, by),
        Pred::Or(p, q) => leaves_pred(p, by) && leaves_pred(q, by),
        Pred::Iff(p, q) => leaves_pred(p, by) && leaves_pred(q, by),
    }
}

/// Whether an atom does.
fn leaves_atom(atom: &Atom, by: &Subst) -> bool
    ensures { IsTrue result → atom_by (subst_view by.now) (atom_view atom.now) ≡ atom_view atom.now }
{
    match atom {
        Atom::Term(term) => leaves_term(term, by),
        Atom::Pred(pred) => leaves_pred(pred, by),
    }
}

/// Whether what replacements put for symbols stays as it is.
pub(crate) fn leaves_each(swaps: &[Swap], by: &Subst) -> bool
    ensures { IsTrue result → map (put_in (subst_view by.now)) (swaps_view swaps.now) ≡ swaps_view swaps.now }
{
    for swap in swaps {
        if !leaves_atom(&swap.atom, by) {
            return false;
        }
    }
    true
}
