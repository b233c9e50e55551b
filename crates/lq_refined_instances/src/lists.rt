// Lists of instances.
ghost use Rattle.std.specs.Prelude.{◌≡◌, [], ◌∷◌, ◌++◌, length, map, slice_get, None, IfOk, OnOk, OnErr, if◌then◌else◌};
ghost use Rattle.std.specs.Option.{option_map};
ghost use Rattle.lq_logic_predicates.specs.PredView.{formula_of};
ghost use Rattle.lq_refined_instances.specs.Instances.{has_formula};
ghost use Rattle.lq_refined_instances.specs.Views.{list_view, instances_view};

use crate::instance::Instance;
use indexmap::IndexSet;
use lq_logic_predicates::Pred;
use std::alloc::{AllocError, Global};

/// The instances of one scope and shape. No two are equal.
#[derive(Drop)]
pub struct InstanceList {
    pub(crate) instances: IndexSet<Instance>,
}

impl InstanceList {
    pub(crate) fn new(alloc: Global) -> InstanceList
        ensures { list_view result ≡ [] }
    {
        InstanceList {
            instances: IndexSet::new(alloc),
        }
    }

    /// How many instances there are.
    pub fn len(&self) -> usize
        ensures { result ≡ length (list_view self.now) }
    {
        self.instances.len()
    }

    /// The instance at an index, and None past the last one.
    pub fn get(&self, at: usize) -> Option<&Pred>
        ensures { option_map (λ p. formula_of p.now) result ≡ slice_get (list_view self.now) at }
    {
        match self.instances.get_index(at) {
            Some(instance) => Some(&instance.predicate),
            None => None,
        }
    }

    // An instance behind the others, unless it is there.
    pub(crate) fn add(&mut self, predicate: Pred) -> Result<(), AllocError>
        ensures { OnOk result (list_view self.new
            ≡ (if has_formula (list_view self.old) (formula_of predicate) then list_view self.old
            else list_view self.old ++ formula_of predicate ∷ [])) }
    {
        self.instances.insert(Instance { predicate })?;
        Ok(())
    }
}

/// The instances of unknowns, by the unknowns' numbers.
#[derive(Drop)]
pub struct Instances {
    pub(crate) lists: Vec<InstanceList>,
}

impl Instances {
    /// Of how many unknowns there are lists.
    pub fn len(&self) -> usize
        ensures { result ≡ length (instances_view self.now) }
    {
        self.lists.len()
    }

    /// The instances of an unknown, and None past the last one.
    pub fn get(&self, at: usize) -> Option<&InstanceList>
        ensures { option_map (λ l. list_view l.now) result ≡ slice_get (instances_view self.now) at }
    {
        self.lists.get(at)
    }
}
