// Whether terms are names.
ghost use Rattle.std.specs.Prelude.{◌≡◌, ◌↔◌, ℕ, ◌<◌, [], ◌∷◌, length, IfSome, IfNone, IsTrue};
ghost use Rattle.lq_prover_congruence.specs.Classes.Chains.{IsNameIn};
ghost use Rattle.lq_prover_congruence.specs.Classes.Steps.{IsMerge};
ghost use Rattle.lq_prover_congruence.specs.Classes.Standing.{core_of, step_of, steps_of, MergesMet};
ghost use Rattle.lq_prover_congruence.specs.declared.classes.steps.Step.TheVariants.{Merged};

use crate::classes::head::Head;
use crate::classes::state::State;
use crate::classes::steps::{Entry, Pair, Step};

/// The two terms that an entry merges.
fn merged(entry: &Entry) -> Option<Pair>
    ensures some { IfSome result (λ p. (r : ℕ) × (step_of entry.now ≡ Merged p.left p.right r ∷ [])) }
    ensures none { IfNone result ((a b r : ℕ) → IsMerge (step_of entry.now) a b r → ⊥) }
{
    if let Entry::Done(Step::Merged(left, right, _)) = entry {
        return Some(Pair {
            left: *left,
            right: *right,
        });
    }
    None
}

impl State {
    /// Whether a term is a name.
    pub(crate) fn is_name(&self, term: u64) -> bool
        requires { term < length self.now.known }
        ensures { IsTrue result ↔ IsNameIn self.now.known term }
    {
        let key = self.known.key(term as usize);
        if let Head::Symbol(_) = key.head {
            return key.args.is_empty();
        }
        false
    }

    /// Whether all merges are of names.
    pub(crate) fn merges_names(&self) -> bool
        requires { MergesMet (steps_of self.now.trail.items) (core_of self.now) }
        ensures yes { IsTrue result → (a b r : ℕ) → IsMerge (steps_of self.now.trail.items) a b r
            → IsNameIn self.now.known a × IsNameIn self.now.known b }
        ensures no { ((a b r : ℕ) → IsMerge (steps_of self.now.trail.items) a b r
            → IsNameIn self.now.known a × IsNameIn self.now.known b) → IsTrue result }
    {
        for entry in &self.trail {
            let Some(pair) = merged(entry) else {
                continue;
            };
            if !self.is_name(pair.left) {
                return false;
            }
            if !self.is_name(pair.right) {
                return false;
            }
        }
        true
    }
}
