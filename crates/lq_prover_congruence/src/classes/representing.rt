// One application of each class that stands for the others.
ghost use Rattle.std.specs.Prelude.{◌≡◌, ◌≢◌, ℕ, ◌<◌, ◌≤◌, [], length, Some, IfOk, IfSome, IfNone};
ghost use Rattle.lq_prover_congruence.specs.Classes.Terms.{find_in, term_in};
ghost use Rattle.lq_prover_congruence.specs.Classes.Core.{AllFound, IsShaped, signature};
ghost use Rattle.lq_prover_congruence.specs.Classes.Standing.{core_of};
ghost use Rattle.lq_prover_congruence.specs.Classes.Implied.{Represents};

use crate::classes::pair_list::Pairs;
use crate::classes::state::State;
use crate::classes::steps::Pair;
use std::alloc::{AllocError, Global};

impl State {
    /// The application that is found under the signature of this one, where it is another.
    fn representative(&self, term: u64) -> Result<Option<u64>, AllocError>
        requires shaped { IsShaped (core_of self.now) }
        requires found { AllFound (core_of self.now) 0 0 [] }
        requires term { term < length self.now.known }
        ensures some { IfOk result (λ found. IfSome found
            (λ by. (0 < length (term_in self.now.known term).1)
            × (find_in self.now.filed (signature self.now.labels.items (term_in self.now.known term))
            ≡ Some by) × (by ≢ term))) }
        ensures none { IfOk result (λ found. IfNone found (0 < length (term_in self.now.known term).1
            → find_in self.now.filed (signature self.now.labels.items (term_in self.now.known term))
            ≡ Some term)) }
    {
        let key = self.signature(term)?;
        if key.args.is_empty() {
            return Ok(None);
        }
        let Some(by) = self.filed.find(&key) else {
            return Ok(None);
        };
        if by == term {
            return Ok(None);
        }
        Ok(Some(by))
    }

    /// Each application for which another one stands, behind that one.
    pub(crate) fn representatives(&self, alloc: Global) -> Result<Pairs, AllocError>
        requires shaped { IsShaped (core_of self.now) }
        requires found { AllFound (core_of self.now) 0 0 [] }
        ensures { IfOk result (λ pairs. Represents (core_of self.now) (length self.now.known) pairs) }
    {
        let mut pairs = Pairs::new(alloc)?;
        for term in 0..self.known.len() as u64 {
            let Some(by) = self.representative(term)? else {
                continue;
            };
            pairs.push(Pair {
                left: by,
                right: term,
            })?;
        }
        Ok(pairs)
    }
}
