// The tightened readings of an implication.
ghost use Rattle.std.specs.Prelude.{◌≡◌, IfNone, IfOk, IfSome, OnSome};
ghost use Rattle.lq_prover_proof_tree.specs.Literals.Gathered.{CanBeGathered, PredicatesGather};
ghost use Rattle.lq_logic_predicates.specs.ClosedImplication.{terms_in};
ghost use Rattle.lq_logic_predicates.specs.NnfView.{nnf_view};
ghost use Rattle.lq_logic_predicates.specs.PredView.{formula_of, implication_of};
ghost use Rattle.lq_logic_predicates.specs.Reading.{AllFitIn, Gathers, all_of, formula_numbered, more, none, reading_of};
ghost use Rattle.lq_logic_predicates.specs.TableView.{terms_of};
ghost use Rattle.lq_prover_valid.specs.Openings.{IsOpeningReading};

use lq_logic_predicates::{Closed, GatherError, Nnf, Nnfs, Pred, TermTable, tighten};
use std::alloc::{AllocError, Global};

/// The reading of a predicate, or of its negation, whose terms the table has, and None where a comparison in it can't be gathered.
fn read(
    alloc: Global,
    pred: &Pred,
    positive: bool,
    table: &mut TermTable,
) -> Result<Option<Nnf>, AllocError>
    requires { formula_numbered (terms_of table.old) (formula_of pred.now) ≡ terms_of table.old }
    ensures same { IfOk result (λ found. OnSome found (terms_of table.new ≡ terms_of table.old)) }
    ensures reading { IfOk result (λ found. IfSome found (λ reading. Gathers (terms_of table.old)
        (reading_of positive (formula_of pred.now)) (nnf_view reading))) }
    ensures fits { IfOk result (λ found. OnSome found (AllFitIn (reading_of positive (formula_of pred.now)))) }
    ensures past { IfOk result (λ found. IfNone found (AllFitIn (reading_of positive (formula_of pred.now)) → ⊥)) }
{
    match tighten(alloc, pred, positive, table) {
        Ok(reading) => Ok(Some(reading)),
        Err(GatherError::Past) => Ok(None),
        Err(GatherError::Memory) => Err(AllocError),
    }
}

/// Both of two readings.
fn both(alloc: Global, first: Nnf, second: Nnf) -> Result<Nnf, AllocError>
    ensures { IfOk result (λ reading. nnf_view reading ≡ all_of (more (nnf_view first) (more (nnf_view second) none))) }
{
    let mut readings = Nnfs::new(alloc)?;
    readings.push(first)?;
    readings.push(second)?;
    Ok(Nnf::All(readings))
}

/// The two readings that a reading is both of, where it is.
pub(crate) fn halves(reading: &Nnf) -> Option<(&Nnf, &Nnf)>
    ensures { IfSome result (λ both. nnf_view reading.now
        ≡ all_of (more (nnf_view both.0.now) (more (nnf_view both.1.now) none))) }
{
    match reading {
        Nnf::All(readings) => {
            let items = readings.as_slice();
            if items.len() != 2 {
                return None;
            }
            Some((&items[0], &items[1]))
        }
        Nnf::Yes | Nnf::No | Nnf::Row(_) | Nnf::Flag(_, _) | Nnf::Same(_, _, _) | Nnf::Any(_) => {
            None
        }
    }
}

/// All of the readings of the hypotheses and the reading of the negated goal, over the terms of the implication, which the table has. None is
/// the answer where a comparison in them can't be gathered.
pub(crate) fn opening_reading(
    alloc: Global,
    implication: &Closed,
    table: &mut TermTable,
) -> Result<Option<Nnf>, AllocError>
    requires { terms_of table.old ≡ terms_in (implication_of implication.now) }
    ensures same { IfOk result (λ found. OnSome found (terms_of table.new ≡ terms_of table.old)) }
    ensures opening { IfOk result (λ found. IfSome found (λ reading. IsOpeningReading (terms_in (implication_of implication.now))
        (implication_of implication.now) (nnf_view reading))) }
    ensures gathers { IfOk result (λ found. OnSome found (PredicatesGather (implication_of implication.now))) }
    ensures past { IfOk result (λ found. IfNone found (CanBeGathered (implication_of implication.now) → ⊥)) }
{
    let mut hypotheses = Nnfs::new(alloc)?;
    for pred in implication.hypotheses.as_slice() {
        match read(alloc, pred, true, table)? {
            Some(reading) => hypotheses.push(reading)?,
            None => return Ok(None),
        }
    }
    match read(alloc, &implication.goal, false, table)? {
        Some(goal) => Ok(Some(both(alloc, Nnf::All(hypotheses), goal)?)),
        None => Ok(None),
    }
}
