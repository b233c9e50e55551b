// Predicates read as tightened readings.
ghost use Rattle.std.specs.Prelude.{◌≡◌, IfOk, OnOk, IsErrOf};
ghost use Rattle.lq_logic_predicates.specs.Comparison.{comparison, CanGather};
ghost use Rattle.lq_logic_predicates.specs.Relation.{relation_reading};
ghost use Rattle.lq_logic_predicates.specs.Sum.{Sum};
ghost use Rattle.lq_logic_predicates.specs.NnfView.{nnf_view, constant_reading, joined_reading};
ghost use Rattle.lq_logic_predicates.specs.PredView.{formula_of};
ghost use Rattle.lq_logic_predicates.specs.Reading.{row, comparison_reading, reading_of, formula_numbered, Gathers, AllFitIn};
ghost use Rattle.lq_logic_predicates.specs.Table.{numbered, Extends};
ghost use Rattle.lq_logic_predicates.specs.TableView.{terms_of};
ghost use Rattle.lq_logic_predicates.specs.TermView.{sum_of};

use crate::error::GatherError;
use crate::gathering::{gather, number_terms};
use crate::nnf::{Nnf, Nnfs};
use crate::pred::Pred;
use crate::table::TermTable;
use crate::term::Term;
use lq_base_names::CompareOp;
use std::alloc::{AllocError, Global};

/// The tightened reading of a predicate, or of its negation where `positive` is false: strict
/// comparisons of whole numbers get a 1, negations go down to the literals, an equivalence is read
/// "both or neither". Terms that the table lacks are added to it in the order of the predicate's
/// text. (The reading of integer comparisons over the rationals that Rondon, Kawaguchi and Jhala
/// leave to their prover, 2008.)
#[cycle(tighten)]
#[tactic(auto, using(crate::specs::Growing::growing))]
pub fn tighten(
    alloc: Global,
    pred: &Pred,
    positive: bool,
    table: &mut TermTable,
) -> Result<Nnf, GatherError>
    ensures numbered { OnOk result (terms_of table.new ≡ formula_numbered (terms_of table.old)
        (formula_of pred.now)) }
    ensures reading { IfOk result (λ nnf. Gathers (terms_of table.new)
        (reading_of positive (formula_of pred.now)) (nnf_view nnf)) }
    ensures fits { OnOk result (AllFitIn (reading_of positive (formula_of pred.now))) }
    ensures past { IsErrOf result GatherError.Past → AllFitIn (reading_of positive (formula_of pred.now))
        → ⊥ }
    ensures grows { Extends (terms_of table.old) (terms_of table.new) }
{
    match pred {
        Pred::True => Ok(constant(positive)),
        Pred::False => Ok(constant(!positive)),
        Pred::Flag(x) => Ok(Nnf::Flag(*x, positive)),
        Pred::Compare(op, left, right) => compare(alloc, *op, positive, left, right, table),
        Pred::Same(left, right) => {
            let first = left.copy(alloc)?;
            let second = right.copy(alloc)?;
            Ok(Nnf::Same(first, second, positive))
        }
        Pred::Not(inner) => tighten(alloc, inner, !positive, table),
        Pred::And(left, right) => {
            tighten_both(alloc, positive, left, positive, right, positive, table)
        }
        Pred::Or(left, right) => {
            tighten_both(alloc, !positive, left, positive, right, positive, table)
        }
        Pred::Iff(left, right) => {
            let both = tighten_both(alloc, true, left, true, right, positive, table)?;
            let neither = tighten_both(alloc, true, left, false, right, !positive, table)?;
            Ok(joined(alloc, false, both, neither)?)
        }
    }
}

// All or any of the readings of two predicates, each with its own sign.
#[cycle(tighten)]
#[inline(never)]
#[tactic(auto, using(crate::specs::Growing::growing))]
fn tighten_both(
    alloc: Global,
    all: bool,
    left: &Pred,
    left_positive: bool,
    right: &Pred,
    right_positive: bool,
    table: &mut TermTable,
) -> Result<Nnf, GatherError>
    ensures numbered { OnOk result (terms_of table.new ≡ formula_numbered (formula_numbered (terms_of table.old)
        (formula_of left.now)) (formula_of right.now)) }
    ensures reading { IfOk result (λ nnf. Gathers (terms_of table.new) (joined_reading all
        (reading_of left_positive (formula_of left.now)) (reading_of right_positive (formula_of right.now)))
        (nnf_view nnf)) }
    ensures fits { OnOk result (AllFitIn (reading_of left_positive (formula_of left.now))
        × AllFitIn (reading_of right_positive (formula_of right.now))) }
    ensures past { IsErrOf result GatherError.Past → AllFitIn (reading_of left_positive (formula_of left.now))
        → AllFitIn (reading_of right_positive (formula_of right.now)) → ⊥ }
    ensures grows { Extends (terms_of table.old) (terms_of table.new) }
{
    let first = tighten(alloc, left, left_positive, table)?;
    let second = tighten(alloc, right, right_positive, table)?;
    Ok(joined(alloc, all, first, second)?)
}

// What always or never holds.
fn constant(holds: bool) -> Nnf
    ensures { nnf_view result ≡ constant_reading holds }
{
    if holds { Nnf::Yes } else { Nnf::No }
}

// All or any of two readings. It stands apart, as what reads a comparison does, so that each connective inside another
// takes little stack.
#[inline(never)]
fn joined(alloc: Global, all: bool, first: Nnf, second: Nnf) -> Result<Nnf, AllocError>
    ensures { IfOk result (λ nnf. nnf_view nnf ≡ joined_reading all (nnf_view first) (nnf_view second)) }
{
    let mut both = Nnfs::new(alloc)?;
    both.push(first)?;
    both.push(second)?;
    if all {
        Ok(Nnf::All(both))
    } else {
        Ok(Nnf::Any(both))
    }
}

// How two terms are to stand.
#[derive(Clone, Copy)]
enum Relation {
    AtMost,
    AtLeast,
    Below,
    Above,
    Equal,
    Apart,
}

// The relation that a comparison, or its negation, asks for.
fn asked_relation(op: CompareOp, positive: bool) -> Relation
    ensures { (a b : Sum) → comparison_reading positive op a b ≡ relation_reading result a b }
{
    if positive {
        match op {
            CompareOp::Eq => Relation::Equal,
            CompareOp::Ne => Relation::Apart,
            CompareOp::Lt => Relation::Below,
            CompareOp::Le => Relation::AtMost,
            CompareOp::Gt => Relation::Above,
            CompareOp::Ge => Relation::AtLeast,
        }
    } else {
        match op {
            CompareOp::Eq => Relation::Apart,
            CompareOp::Ne => Relation::Equal,
            CompareOp::Lt => Relation::AtLeast,
            CompareOp::Le => Relation::Above,
            CompareOp::Gt => Relation::AtMost,
            CompareOp::Ge => Relation::Below,
        }
    }
}

// The reading of a comparison or of its negation.
#[inline(never)]
#[tactic(auto, using(crate::specs::Growing::growing))]
fn compare(
    alloc: Global,
    op: CompareOp,
    positive: bool,
    left: &Term,
    right: &Term,
    table: &mut TermTable,
) -> Result<Nnf, GatherError>
    ensures numbered { OnOk result (terms_of table.new
        ≡ numbered (numbered (terms_of table.old) (sum_of left.now)) (sum_of right.now)) }
    ensures reading { IfOk result (λ nnf. Gathers (terms_of table.new)
        (comparison_reading positive op (sum_of left.now) (sum_of right.now)) (nnf_view nnf)) }
    ensures fits { OnOk result (AllFitIn (comparison_reading positive op (sum_of left.now)
        (sum_of right.now))) }
    ensures past { IsErrOf result GatherError.Past
        → AllFitIn (comparison_reading positive op (sum_of left.now) (sum_of right.now)) → ⊥ }
    ensures grows { Extends (terms_of table.old) (terms_of table.new) }
{
    let relation = asked_relation(op, positive);
    number_terms(alloc, left, table)?;
    number_terms(alloc, right, table)?;
    read(alloc, relation, left, right, table)
}

// The reading of a relation of two terms whose terms are numbered.
fn read(
    alloc: Global,
    relation: Relation,
    left: &Term,
    right: &Term,
    table: &mut TermTable,
) -> Result<Nnf, GatherError>
    requires numbered { numbered (numbered (terms_of table.old) (sum_of left.now)) (sum_of right.now)
        ≡ terms_of table.old }
    requires turned { numbered (numbered (terms_of table.old) (sum_of right.now)) (sum_of left.now)
        ≡ terms_of table.old }
    ensures same { OnOk result (terms_of table.new ≡ terms_of table.old) }
    ensures reading { IfOk result (λ nnf. Gathers (terms_of table.old)
        (relation_reading relation (sum_of left.now) (sum_of right.now)) (nnf_view nnf)) }
    ensures fits { OnOk result (AllFitIn (relation_reading relation (sum_of left.now) (sum_of right.now))) }
    ensures past { IsErrOf result GatherError.Past
        → AllFitIn (relation_reading relation (sum_of left.now) (sum_of right.now)) → ⊥ }
    ensures grows { Extends (terms_of table.old) (terms_of table.new) }
{
    match relation {
        Relation::AtMost => read_row(alloc, left, right, 0, false, table),
        Relation::AtLeast => read_row(alloc, right, left, 0, false, table),
        Relation::Below => read_row(alloc, left, right, 1, false, table),
        Relation::Above => read_row(alloc, right, left, 1, false, table),
        Relation::Equal => read_row(alloc, left, right, 0, true, table),
        Relation::Apart => {
            let first = read_row(alloc, left, right, 1, false, table)?;
            let second = read_row(alloc, right, left, 1, false, table)?;
            Ok(joined(alloc, false, first, second)?)
        }
    }
}

// One row as a reading.
fn read_row(
    alloc: Global,
    left: &Term,
    right: &Term,
    added: i128,
    equal: bool,
    table: &mut TermTable,
) -> Result<Nnf, GatherError>
    requires { numbered (numbered (terms_of table.old) (sum_of left.now)) (sum_of right.now)
        ≡ terms_of table.old }
    ensures same { OnOk result (terms_of table.new ≡ terms_of table.old) }
    ensures reading { IfOk result (λ nnf. Gathers (terms_of table.old)
        (row (comparison (sum_of left.now) (sum_of right.now) added equal)) (nnf_view nnf)) }
    ensures fits { OnOk result (CanGather (comparison (sum_of left.now) (sum_of right.now) added equal)) }
    ensures past { IsErrOf result GatherError.Past
        → CanGather (comparison (sum_of left.now) (sum_of right.now) added equal) → ⊥ }
    ensures grows { Extends (terms_of table.old) (terms_of table.new) }
{
    Ok(Nnf::Row(gather(alloc, left, right, added, equal, table)?))
}
