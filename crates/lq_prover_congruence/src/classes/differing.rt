// Terms that were told to differ.
ghost use Rattle.std.specs.Prelude.{◌≡◌, ℕ, ◌<◌, [], ◌∷◌, length, slice_index, IfSome, IfNone};
ghost use Rattle.lq_prover_congruence.specs.Classes.Steps.{IsDifference};
ghost use Rattle.lq_prover_congruence.specs.Classes.Standing.{step_of, steps_of};
ghost use Rattle.lq_prover_congruence.specs.declared.classes.steps.Step.TheVariants.{Differed};

use crate::classes::steps::{Entry, Pair, Step};

/// The two terms that an entry tells to differ.
fn told(entry: &Entry) -> Option<Pair>
    ensures some { IfSome result (λ p. step_of entry.now ≡ Differed p.left p.right ∷ []) }
    ensures none { IfNone result ((a b : ℕ) → IsDifference (step_of entry.now) a b → ⊥) }
{
    if let Entry::Done(Step::Differed(left, right)) = entry {
        return Some(Pair {
            left: *left,
            right: *right,
        });
    }
    None
}

/// The first two terms that were told to differ and have one label.
pub(crate) fn first_clash(trail: &[Entry], labels: &[u64]) -> Option<Pair>
    requires { (a b : ℕ) → IsDifference (steps_of trail.now) a b
        → (a < length labels.now) × (b < length labels.now) }
    ensures some { IfSome result (λ p. IsDifference (steps_of trail.now) p.left p.right
        × (slice_index labels.now p.left ≡ slice_index labels.now p.right)) }
    ensures none { IfNone result ((a b : ℕ) → IsDifference (steps_of trail.now) a b
        → slice_index labels.now a ≡ slice_index labels.now b → ⊥) }
{
    for entry in trail {
        if let Some(pair) = told(entry) {
            if labels[pair.left as usize] == labels[pair.right as usize] {
                return Some(pair);
            }
        }
    }
    None
}
