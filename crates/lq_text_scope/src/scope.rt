// Names with a number each, and the last one of a name by the name's own number.
ghost use Rattle.std.specs.Prelude.{◌≡◌, ◌+◌, ◌-◌, ◌<◌, ◌^◌, [], ◌∷◌, ◌++◌, length, replicate, map, drop, None, OnOk, OnErr, slice_index_or};
ghost use Rattle.lq_text_scope.specs.Datatypes.{name_of};
ghost use Rattle.lq_text_scope.specs.Known.{arity_in, defined, has};
ghost use Rattle.lq_text_scope.specs.Views.{IsScope, entries_view};

use lq_base_names::Name;
use std::alloc::{AllocError, Global};
use std::marker::Model;

/// A name with its number, and the number that the name had before.
#[derive(Clone, Copy, Debug)]
pub(crate) struct Entry {
    pub(crate) name: Name,
    pub(crate) count: usize,
    pub(crate) former: Option<usize>,
}

/// Names with a number each. The last one of a name is found by the name's own number, so in constant time.
#[derive(Drop)]
pub struct Scope {
    last: Vec<Option<usize>>,
    entries: Vec<Entry>,
}

impl Model for Scope {
    ghost use Rattle.std.specs.Prelude.{List};
    ghost use Rattle.lq_text_scope.specs.Known.{Arity};
    ghost use Rattle.lq_text_scope.specs.Views.{IsScope, entries_view};

    ghost Value = { List Arity };

    ghost view = { λ s. entries_view s.entries.items };

    ghost invariant = { λ s. IsScope s.last.items s.entries.items };
}

// Makes the list long enough for this number.
fn reach(last: &mut Vec<Option<usize>>, number: usize) -> Result<(), AllocError>
    requires { number + 1 < 2 ^ 64 }
    ensures items { OnOk result (last.new.items ≡ last.old.items
        ++ replicate (number + 1 - length last.old.items) None) }
    ensures long { OnOk result (number < length last.new.items) }
    ensures err { OnErr result (last.new.items ≡ last.old.items) }
{
    if last.len() <= number {
        last.resize(number + 1, None)?;
    }
    Ok(())
}

impl Scope {
    /// No names.
    pub fn new(alloc: Global) -> Self
        ensures { result ≡ [] }
    {
        Scope {
            last: Vec::new(alloc),
            entries: Vec::new(alloc),
        }
    }

    /// The last number of a name.
    pub fn find(&self, name: Name) -> Option<usize>
        ensures { result ≡ arity_in self.now name.0 }
    {
        match self.last.get(name.0 as usize) {
            Some(count) => *count,
            None => None,
        }
    }

    /// Whether a name is among these.
    pub fn has(&self, name: Name) -> bool
        ensures { result ≡ has (map name_of self.now) name.0 }
    {
        self.find(name).is_some()
    }

    /// One name more.
    pub fn show(&mut self, name: Name, count: usize) -> Result<(), AllocError>
        ensures shown { OnOk result (self.new ≡ defined name.0 count ∷ self.old) }
        ensures kept { OnErr result (self.new ≡ self.old) }
    {
        let former = self.find(name);
        let number = name.0 as usize;
        reach(&mut self.last, number)?;
        self.entries.push(Entry {
            name,
            count,
            former,
        })?;
        self.last[number] = Some(count);
        Ok(())
    }

    // The last name is gone, if there is one.
    fn hide_last(&mut self)
        ensures { self.new ≡ drop 1 self.old }
    {
        if let Some(entry) = self.entries.pop() {
            self.last[entry.name.0 as usize] = entry.former;
        }
    }

    /// The last names are gone, so many or all.
    pub fn hide(&mut self, count: usize)
        ensures { self.new ≡ drop count self.old }
    {
        for _ in 0..count {
            self.hide_last();
        }
    }
}
