// Names with what is known of each.
ghost use Rattle.std.specs.Prelude.{◌≡◌, ℕ, None, OnOk};
ghost use Rattle.lq_text_qualifiers.specs.Faults.Lookups.{one, or_else};
ghost use Rattle.lq_text_qualifiers.specs.Sorting.Views.{held, names_in};

use lq_base_names::Name;
use std::alloc::{AllocError, Global};
use std::collections::BTreeMap;

/// Names with what the first definition of each says. A name is found by its number.
#[derive(Drop)]
pub(crate) struct Table<T: Copy> {
    items: BTreeMap<u32, T>,
}

impl<T: Copy> Table<T> {
    pub(crate) fn new(alloc: Global) -> Table<T>
        ensures { (x : ℕ) → held result x ≡ None }
    {
        Table {
            items: BTreeMap::new(alloc),
        }
    }

    pub(crate) fn get(&self, name: Name) -> Option<T>
        ensures { result ≡ held self.now name.0 }
    {
        self.items.get(&name.0).copied()
    }

    pub(crate) fn has(&self, name: Name) -> bool
        ensures { result ≡ names_in self.now name.0 }
    {
        self.get(name).is_some()
    }

    /// One name more, unless it is there.
    pub(crate) fn add(&mut self, name: Name, item: T) -> Result<(), AllocError>
        ensures { OnOk result ((x : ℕ) → held self.new x ≡ or_else (held self.old x) (one name.0 item x)) }
    {
        if !self.has(name) {
            self.items.insert(name.0, item)?;
        }
        Ok(())
    }
}
