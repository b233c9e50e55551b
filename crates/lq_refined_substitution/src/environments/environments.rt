// Environments by their parents.
ghost use Rattle.lq_refined_substitution.specs.Environments.Entries.{AreBelow};

use std::alloc::{AllocError, Global};

/// An environment: its parent, and the number of the hypothesis that stands behind those of the parent.
#[derive(Clone, Copy, Debug, PartialEq, Eq)]
pub struct Environment {
    pub parent: u64,
    pub part: u64,
}

/// Environments, numbered from 0: the first is empty, and each other one names an earlier one. Nothing is copied.
#[derive(Drop)]
pub struct Environments {
    entries: Vec<Environment>,
    ghost parents: { AreBelow entries.items },
}

impl Environments {
    ghost use Rattle.std.specs.Prelude.{◌≡◌, ◌<◌, [], ◌∷◌, ◌++◌, length, IfOk, OnOk, OnErr, IfSome, MatchOption};
    ghost use Rattle.lq_refined_substitution.specs.Environments.Whole.{environments_of, hypotheses_at};

    /// The empty environment alone.
    pub fn new(alloc: Global) -> Result<Environments, AllocError>
        ensures { IfOk result (λ all. environments_of all ≡ [] ∷ []) }
    {
        Ok(Environments {
            entries: Vec::new(alloc),
        })
    }

    /// How many environments there are.
    pub fn len(&self) -> u64
        ensures { result ≡ length (environments_of self.now) }
    {
        self.entries.len() as u64 + 1
    }

    /// Adds an environment with the parent's hypotheses and this one behind them, and answers its number.
    pub fn add(&mut self, parent: u64, part: u64) -> Result<u64, AllocError>
        requires { parent < length (environments_of self.old) }
        ensures added { OnOk result (environments_of self.new ≡ environments_of self.old
            ++ (hypotheses_at self.old parent ++ part ∷ []) ∷ []) }
        ensures number { IfOk result (λ at. at ≡ length (environments_of self.old)) }
        ensures kept { OnErr result (environments_of self.new ≡ environments_of self.old) }
    {
        let at = self.entries.len() as u64 + 1;
        self.entries.push(Environment { parent, part })?;
        Ok(at)
    }

    /// The last hypothesis of an environment, with the environment of those before it; None of an empty one. So the hypotheses of one
    /// are walked through from the last to the first.
    pub fn last(&self, at: u64) -> Option<Environment>
        requires { at < length (environments_of self.now) }
        ensures hypotheses { MatchOption result (hypotheses_at self.now at ≡ [])
            (λ e. hypotheses_at self.now at ≡ hypotheses_at self.now e.parent ++ e.part ∷ []) }
        ensures earlier { IfSome result (λ e. e.parent < at) }
    {
        if at == 0 {
            return None;
        }
        Some(self.entries[at as usize - 1])
    }
}
