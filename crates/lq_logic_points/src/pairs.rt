// The pairs of terms that apply one function.
ghost use Rattle.std.specs.Prelude.{◌≡◌, ◌↔◌, ◌<◌, ◌+◌, ℕ, Bool, List, IsTrue, IfOk, IfErr, OnOk, All, length};
ghost use Rattle.lq_base_numbers.specs.Fractions.Past.{IsPast};
ghost use Rattle.lq_base_numbers.specs.declared.fractions.past.NumberPast.{NumberPast};
ghost use Rattle.lq_logic_predicates.specs.declared.symbol.Symbol.{Symbol};
ghost use Rattle.lq_logic_predicates.specs.Comparison.{CanGather};
ghost use Rattle.lq_logic_predicates.specs.Literals.{all_pairs};
ghost use Rattle.lq_logic_predicates.specs.TableView.{terms_of};
ghost use Rattle.lq_logic_points.specs.declared.agreeing.Function.{Function};
ghost use Rattle.lq_logic_points.specs.Agreeing.{AgreesBefore, AllAgree, HasAllArguments};
ghost use Rattle.lq_logic_predicates.specs.TermView.{sum_of};
ghost use Rattle.lq_logic_points.specs.Evaluation.{IsStepOf};
ghost use Rattle.lq_logic_points.specs.Function.{applied};
ghost use Rattle.lq_logic_points.specs.Nearest.{IsNearest, HasEarlier, place_of, old_place, new_place};
ghost use Rattle.lq_logic_points.specs.Values.{point_from};

use crate::agreeing::{Function, agree, function_of};
use crate::error::PointError;
use indexmap::IndexMap;
use lq_base_numbers::fractions::Frac;
use lq_logic_predicates::{Term, TermTable};
use std::alloc::{AllocError, Global};

// Keeps a place for the function that a term applies, and gives the one that was kept.
fn replace(
    latest: &mut IndexMap<Function, u64>,
    term: &Term,
    at: u64,
) -> Result<Option<u64>, AllocError>
    ensures old { IfOk result (λ old. old ≡ old_place latest.old.entries (applied (sum_of term.now))) }
    ensures new { OnOk result ((f : Function) → place_of latest.new.entries f
        ≡ new_place (applied (sum_of term.now)) at f (place_of latest.old.entries f)) }
{
    match function_of(term) {
        Some(function) => Ok(latest.insert(function, at)?),
        None => Ok(None),
    }
}

// For each term the place of the nearest one before it that applies the same function.
fn nearest_earlier(alloc: Global, terms: &TermTable) -> Result<Vec<Option<u64>>, AllocError>
    ensures length { IfOk result (λ earlier. length earlier.items ≡ length (terms_of terms.now)) }
    ensures earlier { IfOk result (λ earlier. HasEarlier (terms_of terms.now)
        (length (terms_of terms.now)) earlier.items) }
{
    let mut latest = IndexMap::new(alloc);
    let mut earlier = Vec::new(alloc);
    for at in 0..terms.len() {
        let before = replace(&mut latest, terms.term(at), at)?;
        earlier.push(before)?;
    }
    Ok(earlier)
}

// Whether the term at a place agrees with each one before it. Only those that apply the same function are
// looked at.
fn agrees_with_earlier(
    alloc: Global,
    terms: &TermTable,
    at: u64,
    earlier: &[Option<u64>],
    numbers: &[Frac],
    classes: &IndexMap<Term, u64>,
    table: &mut TermTable,
) -> Result<bool, PointError>
    requires at { at < length (terms_of terms.now) }
    requires length { length earlier.now ≡ length (terms_of terms.now) }
    requires earlier { HasEarlier (terms_of terms.now) (length (terms_of terms.now)) earlier.now }
    requires arguments { HasAllArguments (terms_of table.old) (terms_of terms.now) }
    requires fits { All CanGather (all_pairs (terms_of terms.now)) }
    requires one_each { length numbers.now ≡ length (terms_of table.old) }
    ensures same { OnOk result (terms_of table.new ≡ terms_of table.old) }
    ensures answer { IfOk result (λ answer. (flags : List (Symbol × Bool)) → IsTrue answer
        ↔ AgreesBefore (point_from (terms_of table.old) numbers.now flags classes.now.entries)
        (terms_of terms.now) at) }
    ensures past { IfErr result (λ e. (n : NumberPast) → e ≡ PointError.Past n → IsPast n) }
    ensures step { IfErr result (λ e. (n : NumberPast) → e ≡ PointError.Past n
        → IsStepOf (all_pairs (terms_of terms.now)) (terms_of table.old) numbers.now n) }
{
    let term = terms.term(at);
    let mut next = earlier[at as usize];
    while let Some(before) = next {
        let agrees = agree(alloc, terms.term(before), term, numbers, classes, table)?;
        if !agrees {
            return Ok(false);
        }
        next = earlier[before as usize];
    }
    Ok(true)
}

// Whether each two of the terms agree.
pub(crate) fn all_agree(
    alloc: Global,
    terms: &TermTable,
    numbers: &[Frac],
    classes: &IndexMap<Term, u64>,
    table: &mut TermTable,
) -> Result<bool, PointError>
    requires arguments { HasAllArguments (terms_of table.old) (terms_of terms.now) }
    requires fits { All CanGather (all_pairs (terms_of terms.now)) }
    requires one_each { length numbers.now ≡ length (terms_of table.old) }
    ensures same { OnOk result (terms_of table.new ≡ terms_of table.old) }
    ensures answer { IfOk result (λ answer. (flags : List (Symbol × Bool)) → IsTrue answer
        ↔ AllAgree (point_from (terms_of table.old) numbers.now flags classes.now.entries)
        (terms_of terms.now)) }
    ensures past { IfErr result (λ e. (n : NumberPast) → e ≡ PointError.Past n → IsPast n) }
    ensures step { IfErr result (λ e. (n : NumberPast) → e ≡ PointError.Past n
        → IsStepOf (all_pairs (terms_of terms.now)) (terms_of table.old) numbers.now n) }
{
    let earlier = nearest_earlier(alloc, terms)?;
    for at in 0..terms.len() {
        let agrees = agrees_with_earlier(
            alloc,
            terms,
            at,
            earlier.as_slice(),
            numbers,
            classes,
            table,
        )?;
        if !agrees {
            return Ok(false);
        }
    }
    Ok(true)
}
