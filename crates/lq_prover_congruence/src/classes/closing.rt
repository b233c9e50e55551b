// The classes closed under applications.
ghost use Rattle.std.specs.Prelude.{◌≡◌, ◌≢◌, ℕ, ◌<◌, ◌≤◌, [], length, map, slice_index, Some, IfOk, IfSome, IfNone, OnOk, OnErr};
ghost use Rattle.lq_prover_congruence.specs.Classes.Terms.{find_in, term_in};
ghost use Rattle.lq_prover_congruence.specs.Classes.Keys.{term_of};
ghost use Rattle.lq_prover_congruence.specs.Classes.Core.{AllBelow, IsShaped, signature};
ghost use Rattle.lq_prover_congruence.specs.Classes.Standing.{core_of};
ghost use Rattle.lq_prover_congruence.specs.Classes.Moves.{Files, Goes, IsAsBefore, IsClash, IsWorking};

use crate::classes::state::State;
use crate::classes::steps::Entry;
use crate::classes::table::Key;
use std::alloc::{AllocError, Global};

/// The labels of terms.
fn labels_of(alloc: Global, labels: &[u64], terms: &[u64]) -> Result<Vec<u64>, AllocError>
    requires { AllBelow (length labels.now) terms.now }
    ensures { IfOk result (λ found. found.items ≡ map (λ a. slice_index labels.now a) terms.now) }
{
    let mut found = Vec::new(alloc);
    for term in terms {
        found.push(labels[*term as usize])?;
    }
    Ok(found)
}

impl State {
    /// The head of a term with the labels of its arguments.
    pub(crate) fn signature(&self, term: u64) -> Result<Key, AllocError>
        requires shaped { IsShaped (core_of self.now) }
        requires term { term < length self.now.known }
        ensures { IfOk result (λ key. term_of key ≡ signature self.now.labels.items
            (term_in self.now.known term)) }
    {
        let key = self.known.key(term as usize);
        Ok(Key {
            head: key.head,
            args: labels_of(self.alloc, &self.labels, &key.args)?,
        })
    }

    /// The term that is found under a term's signature. Where there is none, the term is filed there.
    fn file(&mut self, term: u64) -> Result<Option<u64>, AllocError>
        requires shaped { IsShaped (core_of self.old) }
        requires term { term < length self.old.known }
        ensures found { IfOk result (λ found. IfSome found
            (λ by. (find_in self.old.filed (signature self.old.labels.items (term_in self.old.known term))
            ≡ Some by) × IsAsBefore self.old self.new)) }
        ensures filed { IfOk result (λ found. IfNone found (Files self.old self.new term)) }
        ensures err { OnErr result (IsAsBefore self.old self.new) }
    {
        let key = self.signature(term)?;
        if let Some(by) = self.filed.find(&key) {
            return Ok(Some(by));
        }
        self.trail.push(Entry::Filed)?;
        if let Err(refused) = self.filed.insert(key, term) {
            self.trail.pop();
            return Err(refused);
        }
        Ok(None)
    }

    /// Files the terms of the queue up to one whose signature another term has that has another label, and
    /// gives the two labels.
    fn next_clash(&mut self, queue: &mut Vec<u64>) -> Result<Option<(u64, u64)>, AllocError>
        requires { IsWorking self.old queue.old.items 0 0 }
        ensures goes { Goes self.old self.new }
        ensures labels { self.new.labels.items ≡ self.old.labels.items }
        ensures none { IfOk result (λ clash. IfNone clash (IsWorking self.new [] 0 0)) }
        ensures some { IfOk result (λ clash. IfSome clash (λ p. IsWorking self.new queue.new.items p.0 p.1
            × IsClash self.new p.0 p.1)) }
    {
        while let Some(term) = queue.pop() {
            if term as usize >= self.known.len() {
                continue;
            }
            if let Some(by) = self.file(term)? {
                let (left, right) = (self.labels[term as usize], self.labels[by as usize]);
                if left != right {
                    return Ok(Some((left, right)));
                }
            }
        }
        Ok(None)
    }

    /// Joins the classes of applications with one head and the same arguments, until there are none.
    pub(crate) fn close(&mut self, queue: &mut Vec<u64>) -> Result<(), AllocError>
        requires { IsWorking self.old queue.old.items 0 0 }
        ensures goes { Goes self.old self.new }
        ensures done { OnOk result (IsWorking self.new [] 0 0) }
    {
        while let Some((left, right)) = self.next_clash(queue)? {
            self.join(left, right, queue)?;
        }
        Ok(())
    }
}
