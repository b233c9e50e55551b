// The first comparison of an implication that can't be gathered.
ghost use Rattle.std.specs.Prelude.{◌≡◌, All, IsTrue, IfOk, IfSome, IfNone, true, false, map};
ghost use Rattle.lq_logic_predicates.specs.ClosedImplication.{ClosedImplication, terms_in};
ghost use Rattle.lq_logic_predicates.specs.Comparison.{CanGather};
ghost use Rattle.lq_logic_predicates.specs.Literals.{literals_of};
ghost use Rattle.lq_logic_predicates.specs.PredView.{formula_of, implication_of};
ghost use Rattle.lq_logic_predicates.specs.Reading.{reading_of, AllFitIn};
ghost use Rattle.lq_logic_predicates.specs.TableView.{terms_of};
ghost use Rattle.lq_prover_proof_tree.specs.Literals.Gathered.{CanBeGathered, AllGathered, IsFirstPast, PredicatesGather};
ghost use Rattle.lq_prover_proof_tree.specs.Literals.LeafView.{leaf_view, leaf_views};
ghost use Rattle.lq_prover_proof_tree.specs.Literals.Sources.{leaf_source, sources_of};

use crate::literals::laws::sources_have_the_literals;
use crate::literals::leaf::{Leaf, Polarity, leaves_of};
use crate::literals::pairs::first_past_pair;
use lq_logic_predicates::{Closed, GatherError, Pred, TermTable, tighten};
use std::alloc::{AllocError, Global};

// Whether a comparison, or its negation, can't be gathered.
fn is_past(
    alloc: Global,
    pred: &Pred,
    positive: bool,
    table: &mut TermTable,
) -> Result<bool, AllocError>
    ensures past { IfOk result (λ past. past ≡ true
        → AllFitIn (reading_of positive (formula_of pred.now)) → ⊥) }
    ensures fits { IfOk result (λ past. past ≡ false
        → AllFitIn (reading_of positive (formula_of pred.now))) }
{
    match tighten(alloc, pred, positive, table) {
        Ok(_reading) => Ok(false),
        Err(GatherError::Past) => Ok(true),
        Err(GatherError::Memory) => Err(AllocError),
    }
}

// Whether a predicate or its negation has a comparison that can't be gathered.
fn is_either_past(alloc: Global, pred: &Pred, table: &mut TermTable) -> Result<bool, AllocError>
    ensures past { IfOk result (λ past. past ≡ true → AllFitIn (reading_of true (formula_of pred.now))
        → AllFitIn (reading_of false (formula_of pred.now)) → ⊥) }
    ensures as_true { IfOk result (λ past. past ≡ false → AllFitIn (reading_of true (formula_of pred.now))) }
    ensures as_false { IfOk result (λ past. past ≡ false
        → AllFitIn (reading_of false (formula_of pred.now))) }
{
    let is_true_past = is_past(alloc, pred, true, table)?;
    let is_false_past = is_past(alloc, pred, false, table)?;
    if is_true_past {
        return Ok(true);
    }
    Ok(is_false_past)
}

// Whether some literal of a leaf can't be gathered.
fn is_leaf_past(alloc: Global, leaf: &Leaf, table: &mut TermTable) -> Result<bool, AllocError>
    ensures past { IfOk result (λ past. past ≡ true
        → All CanGather (leaf_source (leaf_view leaf.now)).literals → ⊥) }
    ensures fits { IfOk result (λ past. past ≡ false
        → All CanGather (leaf_source (leaf_view leaf.now)).literals) }
{
    match leaf.polarity {
        Polarity::Positive => is_past(alloc, leaf.pred, true, table),
        Polarity::Negative => is_past(alloc, leaf.pred, false, table),
        Polarity::Both => is_either_past(alloc, leaf.pred, table),
    }
}

// The first leaf that can't be gathered.
fn first_past_leaf(
    alloc: Global,
    leaves: &[Leaf],
    table: &mut TermTable,
) -> Result<Option<Pred>, AllocError>
    ensures some { IfOk result (λ found. IfSome found (λ pred. IsFirstPast
        (map leaf_source (leaf_views leaves.now)) (formula_of pred))) }
    ensures none { IfOk result (λ found. IfNone found (AllGathered
        (map leaf_source (leaf_views leaves.now)))) }
{
    for leaf in leaves {
        let past = is_leaf_past(alloc, leaf, table)?;
        if past {
            return Ok(Some(leaf.pred.copy(alloc)?));
        }
    }
    Ok(None)
}

/// The first predicate of an implication with a literal that can't be gathered, and None exactly where each
/// literal can be. For two applications of one function it is `a = b`, or `a < b` where a gets the 1.
pub fn first_past(alloc: Global, implication: &Closed) -> Result<Option<Pred>, AllocError>
    ensures some { IfOk result (λ found. IfSome found (λ pred. IsFirstPast
        (sources_of (implication_of implication.now)) (formula_of pred))) }
    ensures none { IfOk result (λ found. IfNone found (CanBeGathered
        (implication_of implication.now))) }
{
    sources_have_the_literals();
    let mut table = TermTable::new(alloc)?;
    let leaves = leaves_of(alloc, implication)?;
    match first_past_leaf(alloc, leaves.as_slice(), &mut table)? {
        Some(pred) => return Ok(Some(pred)),
        None => {}
    }
    let terms = implication.terms(alloc)?;
    first_past_pair(alloc, &terms, &mut table)
}

/// The first predicate of an implication whose predicates can all be gathered: `a = b` for two applications of one function, or `a < b` where
/// a gets the 1. The terms are those of the implication. None is the answer exactly where each literal can be gathered.
pub fn first_past_application(alloc: Global, terms: &TermTable) -> Result<Option<Pred>, AllocError>
    ensures some { IfOk result (λ found. IfSome found (λ pred. (i : ClosedImplication) → terms_of terms.now ≡ terms_in i
        → PredicatesGather i → IsFirstPast (sources_of i) (formula_of pred))) }
    ensures none { IfOk result (λ found. IfNone found ((i : ClosedImplication) → terms_of terms.now ≡ terms_in i
        → PredicatesGather i → CanBeGathered i)) }
{
    let mut table = TermTable::new(alloc)?;
    first_past_pair(alloc, terms, &mut table)
}
