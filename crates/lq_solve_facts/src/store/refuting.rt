// Which instances are refuted at values that solve the facts.
ghost use Rattle.std.specs.Prelude.{◌≡◌, ℕ, Bool, List, [], ◌∷◌, ◌++◌, IfOk, IfSome, OnOk, false, length, true};
ghost use Rattle.lq_solve_facts.specs.Facts.Known.{IsAt, IsSettled};
ghost use Rattle.lq_refined_types.specs.Parts.Substitution.{Subst as Swaps};
ghost use Rattle.lq_logic_predicates.specs.Formula.{Formula};
ghost use Rattle.lq_logic_predicates.specs.Points.{Point};
ghost use Rattle.lq_solve_fixpoint.specs.Weakening.Judging.{AreRefuted};
ghost use Rattle.lq_solve_facts.specs.Store.Answer.{IfHolds, IfRefuted};
ghost use Rattle.lq_solve_facts.specs.Store.Aiming.{AreRefutableBy, ChosenArePlain};
ghost use Rattle.lq_solve_facts.specs.Store.Reads.{AreReads};

use crate::facts::Known;
use crate::store::answer::Answer;
use crate::store::reading::ReadInstance;
use std::alloc::{AllocError, Global};

/// Notes the number of an instance, where it is refuted.
fn note(numbers: &mut Vec<u64>, number: u64, is_refuted: bool) -> Result<(), AllocError>
    ensures noted { OnOk result (is_refuted ≡ true → numbers.new.items ≡ numbers.old.items ++ number ∷ []) }
    ensures same { is_refuted ≡ false → numbers.new.items ≡ numbers.old.items }
{
    if is_refuted {
        numbers.push(number)?;
    }
    Ok(())
}

/// The numbers of the chosen instances whose negations are met at the values. None where this isn't known of each.
fn refuted_numbers(
    alloc: Global,
    known: &Known,
    reads: &[ReadInstance],
) -> Result<Option<Vec<u64>>, AllocError>
    requires { IsSettled known.now }
    ensures refuted { IfOk result (λ o. IfSome o (λ numbers. (chosen : ℕ → Bool) (by : Swaps) (instances : List Formula)
        → AreReads known.now chosen by instances reads.now → (p : Point) → IsAt known.now p
        → AreRefuted chosen p by instances numbers.items)) }
    ensures plain { IfOk result (λ o. IfSome o (λ numbers. (chosen : ℕ → Bool) (by : Swaps) (instances : List Formula)
        → AreReads known.now chosen by instances reads.now → ChosenArePlain chosen by (length instances) instances)) }
{
    let mut numbers = Vec::new(alloc);
    for instance in reads {
        let Some(refuted) = known.meets_read(&instance.read, false) else {
            return Ok(None);
        };
        note(&mut numbers, instance.number, refuted)?;
    }
    Ok(Some(numbers))
}

/// Refutes the conjunction of the chosen instances at the values, where each hypothesis is met there and one of the instances isn't.
pub(crate) fn refute(
    alloc: Global,
    known: &Known,
    reads: &[ReadInstance],
) -> Result<Answer, AllocError>
    requires { IsSettled known.now }
    ensures holds { IfOk result (λ a. IfHolds a ⊥) }
    ensures refuted { IfOk result (λ a. IfRefuted a (AreRefutableBy known.now reads.now)) }
{
    if !known.meets_all() {
        return Ok(Answer::Open);
    }
    let Some(numbers) = refuted_numbers(alloc, known, reads)? else {
        return Ok(Answer::Open);
    };
    known.has_point();
    if numbers.is_empty() {
        return Ok(Answer::Open);
    }
    Ok(Answer::Refuted(numbers))
}
