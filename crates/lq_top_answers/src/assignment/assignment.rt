// For each unknown, its instances.
ghost use Rattle.std.specs.Prelude.{◌≡◌, [], ◌∷◌, ◌++◌, length, map, OnOk, OnErr};
ghost use Rattle.lq_logic_predicates.specs.PredView.{formula_of, pred_items};
ghost use Rattle.lq_top_answers.specs.Assignment.Views.{assignment_view, instance_lists};

use lq_logic_predicates::{Pred, Preds};
use std::alloc::{AllocError, Global};

/// For each unknown the instances that it stands for. An unknown that isn't there stands for none.
#[derive(Debug, Drop)]
pub struct Assignment {
    pub(crate) chosen: Vec<Preds>,
}

impl Assignment {
    /// No unknowns.
    pub fn new(alloc: Global) -> Assignment
        ensures { instance_lists result ≡ [] }
    {
        Assignment {
            chosen: Vec::new(alloc),
        }
    }

    /// How many unknowns there are.
    pub fn len(&self) -> usize
        ensures { result ≡ length (instance_lists self.now) }
    {
        self.chosen.len()
    }

    /// The next unknown stands for these. Where memory is refused, the others stay as they were.
    pub fn push(&mut self, instances: Preds) -> Result<(), AllocError>
        ensures ok { OnOk result (instance_lists self.new ≡ instance_lists self.old
            ++ map formula_of (pred_items instances) ∷ []) }
        ensures err { OnErr result (instance_lists self.new ≡ instance_lists self.old) }
    {
        self.chosen.push(instances)?;
        Ok(())
    }

    /// What an unknown stands for.
    pub fn instances(&self, unknown: u64) -> &[Pred]
        ensures { map formula_of result.now ≡ assignment_view self.now unknown }
    {
        match self.chosen.get(unknown as usize) {
            Some(instances) => instances.as_slice(),
            None => &[],
        }
    }
}
