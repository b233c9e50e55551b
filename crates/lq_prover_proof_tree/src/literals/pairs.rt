// The first row for two applications of one function that can't be gathered.
ghost use Rattle.std.specs.Prelude.{◌≡◌, ◌<◌, IfOk, IfSome, IfNone, true, false, map, length};
ghost use Rattle.lq_logic_predicates.specs.Comparison.{CanGather};
ghost use Rattle.lq_logic_predicates.specs.Literals.{condition_rows, pair_rows, all_pairs};
ghost use Rattle.lq_logic_predicates.specs.PredView.{formula_of};
ghost use Rattle.lq_logic_predicates.specs.TableView.{terms_of};
ghost use Rattle.lq_logic_predicates.specs.TermView.{sum_of};
ghost use Rattle.lq_prover_proof_tree.specs.Literals.Gathered.{AllGathered, IsFirstPast};
ghost use Rattle.lq_prover_proof_tree.specs.Literals.RowView.{row_view, row_views, rows_at};
ghost use Rattle.lq_prover_proof_tree.specs.Literals.Sources.{row_source, row_formula};

use crate::literals::parts::is_application;
use lq_base_names::CompareOp;
use lq_logic_predicates::{GatherError, Pred, Term, TermTable, gather};
use std::alloc::{AllocError, Global};

// A row on two terms: that they are equal, or that the first is at least 1 below the second.
#[derive(Clone, Copy)]
pub(crate) struct PairRow<'a> {
    pub(crate) equal: bool,
    pub(crate) left: &'a Term,
    pub(crate) right: &'a Term,
}

impl PairRow<'_> {
    // Whether the row can't be gathered.
    fn is_past(&self, alloc: Global, table: &mut TermTable) -> Result<bool, AllocError>
        ensures past { IfOk result (λ past. past ≡ true → CanGather (row_view self.now) → ⊥) }
        ensures fits { IfOk result (λ past. past ≡ false → CanGather (row_view self.now)) }
    {
        let added = if self.equal { 0 } else { 1 };
        match gather(alloc, self.left, self.right, added, self.equal, table) {
            Ok(_row) => Ok(false),
            Err(GatherError::Past) => Ok(true),
            Err(GatherError::Memory) => Err(AllocError),
        }
    }

    // The row as a predicate.
    fn pred(&self, alloc: Global) -> Result<Pred, AllocError>
        ensures { IfOk result (λ pred. formula_of pred ≡ row_formula (row_view self.now)) }
    {
        let op = if self.equal {
            CompareOp::Eq
        } else {
            CompareOp::Lt
        };
        let left = self.left.copy(alloc)?;
        let right = self.right.copy(alloc)?;
        Ok(Pred::Compare(op, left, right))
    }
}

fn equal<'a>(left: &'a Term, right: &'a Term) -> PairRow<'a>
    ensures { (result.equal ≡ true) × (result.left.now ≡ left.now) × (result.right.now ≡ right.now) }
{
    PairRow {
        equal: true,
        left,
        right,
    }
}

fn below<'a>(left: &'a Term, right: &'a Term) -> PairRow<'a>
    ensures { (result.equal ≡ false) × (result.left.now ≡ left.now) × (result.right.now ≡ right.now) }
{
    PairRow {
        equal: false,
        left,
        right,
    }
}

// The first of these rows that can't be gathered.
fn first_past_row(
    alloc: Global,
    rows: &[PairRow],
    table: &mut TermTable,
) -> Result<Option<Pred>, AllocError>
    ensures some { IfOk result (λ found. IfSome found (λ pred. IsFirstPast
        (map row_source (row_views rows.now)) (formula_of pred))) }
    ensures none { IfOk result (λ found. IfNone found (AllGathered (map row_source (row_views rows.now)))) }
{
    for row in rows {
        let past = row.is_past(alloc, table)?;
        if past {
            return Ok(Some(row.pred(alloc)?));
        }
    }
    Ok(None)
}

// The rows of the condition on two applications of a function of two numbers, each before its arguments.
fn condition<'a>(
    first: &'a Term,
    a: &'a Term,
    b: &'a Term,
    second: &'a Term,
    c: &'a Term,
    d: &'a Term,
) -> [PairRow<'a>; 7]
    ensures { row_views result ≡ condition_rows (sum_of first.now) (sum_of a.now) (sum_of b.now)
        (sum_of second.now) (sum_of c.now) (sum_of d.now) }
{
    [
        equal(a, c),
        equal(b, d),
        equal(first, second),
        below(a, c),
        below(c, a),
        below(b, d),
        below(d, b),
    ]
}

// The first row of two terms that can't be gathered.
fn first_past_of_two(
    alloc: Global,
    first: &Term,
    second: &Term,
    table: &mut TermTable,
) -> Result<Option<Pred>, AllocError>
    ensures some { IfOk result (λ found. IfSome found (λ pred. IsFirstPast
        (map row_source (pair_rows (sum_of first.now) (sum_of second.now))) (formula_of pred))) }
    ensures none { IfOk result (λ found. IfNone found (AllGathered
        (map row_source (pair_rows (sum_of first.now) (sum_of second.now))))) }
{
    match (first, second) {
        (Term::Mul(a, b), Term::Mul(c, d)) => {
            first_past_row(alloc, &condition(first, a, b, second, c, d), table)
        }
        (Term::Div(a, b), Term::Div(c, d)) => {
            first_past_row(alloc, &condition(first, a, b, second, c, d), table)
        }
        (Term::Mod(a, b), Term::Mod(c, d)) => {
            first_past_row(alloc, &condition(first, a, b, second, c, d), table)
        }
        (Term::Length(_), Term::Length(_)) => {
            first_past_row(alloc, &[equal(first, second)], table)
        }
        (Term::Measure(f, _), Term::Measure(g, _)) => {
            if *f != *g {
                return Ok(None);
            }
            first_past_row(alloc, &[equal(first, second)], table)
        }
        _ => Ok(None),
    }
}

// The first row of the term at a place with a later one that can't be gathered.
fn first_past_with(
    alloc: Global,
    terms: &TermTable,
    at: u64,
    table: &mut TermTable,
) -> Result<Option<Pred>, AllocError>
    requires { at < length (terms_of terms.now) }
    ensures some { IfOk result (λ found. IfSome found (λ pred. IsFirstPast
        (map row_source (rows_at (terms_of terms.now) at)) (formula_of pred))) }
    ensures none { IfOk result (λ found. IfNone found (AllGathered
        (map row_source (rows_at (terms_of terms.now) at)))) }
{
    let term = terms.term(at);
    let count = terms.len();
    for later in at + 1..count {
        match first_past_of_two(alloc, term, terms.term(later), table)? {
            Some(pred) => return Ok(Some(pred)),
            None => {}
        }
    }
    Ok(None)
}

// The same, where a term that is no application is passed over.
fn first_past_at(
    alloc: Global,
    terms: &TermTable,
    at: u64,
    table: &mut TermTable,
) -> Result<Option<Pred>, AllocError>
    requires { at < length (terms_of terms.now) }
    ensures some { IfOk result (λ found. IfSome found (λ pred. IsFirstPast
        (map row_source (rows_at (terms_of terms.now) at)) (formula_of pred))) }
    ensures none { IfOk result (λ found. IfNone found (AllGathered
        (map row_source (rows_at (terms_of terms.now) at)))) }
{
    let applies = is_application(terms.term(at));
    if applies {
        return first_past_with(alloc, terms, at, table);
    }
    Ok(None)
}

/// The first row for two of the terms that can't be gathered, and None where each can be.
pub(crate) fn first_past_pair(
    alloc: Global,
    terms: &TermTable,
    table: &mut TermTable,
) -> Result<Option<Pred>, AllocError>
    ensures some { IfOk result (λ found. IfSome found (λ pred. IsFirstPast
        (map row_source (all_pairs (terms_of terms.now))) (formula_of pred))) }
    ensures none { IfOk result (λ found. IfNone found (AllGathered
        (map row_source (all_pairs (terms_of terms.now))))) }
{
    for at in 0..terms.len() {
        match first_past_at(alloc, terms, at, table)? {
            Some(pred) => return Ok(Some(pred)),
            None => {}
        }
    }
    Ok(None)
}
