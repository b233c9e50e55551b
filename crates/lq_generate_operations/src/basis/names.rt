// Names with the types that they have.
ghost use Rattle.std.specs.Prelude.{◌≡◌, ℕ, ◌<◌, OnOk, vec_len};
ghost use Rattle.std.proofs.Props.{props};
ghost use Rattle.lq_generate_operations.specs.Basis.Undoing.{row_at, AreUndone, IsRight};

use lq_base_names::Binder;
use std::alloc::{AllocError, Global};

/// A name that was bound, the number of its type, and that of the type that the name had before.
#[derive(Clone, Copy, Debug)]
pub(crate) struct Bound {
    pub(crate) name: Binder,
    pub(crate) row: usize,
    pub(crate) before: Option<usize>,
}

/// Names with the numbers of the types that they have. A name that is bound again has the type that it was bound with last, until it is let
/// go; then it has the earlier one.
#[derive(Drop)]
pub struct Names {
    // by the number of a binder
    pub(crate) rows: Vec<Option<usize>>,
    // the last one at the end
    pub(crate) bindings: Vec<Bound>,
    ghost right: { IsRight rows.items bindings.items } by { Prim.hlevel props },
    ghost undone: { AreUndone bindings.items } by { Prim.hlevel props },
}

impl Names {
    ghost use Rattle.std.specs.Prelude.{◌-◌, ◌∷◌, [], drop, length, OnErr};
    ghost use Rattle.lq_generate_operations.specs.Basis.Names.{bound};
    ghost use Rattle.lq_generate_operations.specs.Basis.Undoing.{row_in};

    /// No names.
    pub fn new(alloc: Global) -> Names
        ensures { bound result ≡ [] }
    {
        Names {
            rows: Vec::new(alloc),
            bindings: Vec::new(alloc),
        }
    }

    /// How many names are bound, one that is bound twice counted twice.
    pub fn len(&self) -> usize
        ensures { result ≡ length (bound self.now) }
    {
        self.bindings.len()
    }

    /// The number of the type that a name has.
    pub fn type_of(&self, name: Binder) -> Option<usize>
        ensures { result ≡ row_in (bound self.now) name.0 }
    {
        match self.rows.get(name.0 as usize) {
            Some(row) => *row,
            None => None,
        }
    }

    /// Binds a name with the number of a type. Where memory is refused, the names stay as they were.
    pub fn bind(&mut self, name: Binder, row: usize) -> Result<(), AllocError>
        ensures ok { OnOk result (bound self.new ≡ (name.0, row) ∷ bound self.old) }
        ensures err { OnErr result (bound self.new ≡ bound self.old) }
    {
        let at = name.0 as usize;
        with_place(&mut self.rows, name)?;
        let before = self.rows[at];
        self.bindings.push(Bound { name, row, before })?;
        self.rows[at] = Some(row);
        Ok(())
    }

    // Lets the name go that was bound last.
    fn back(&mut self)
        ensures { bound self.new ≡ drop 1 (bound self.old) }
    {
        if let Some(last) = self.bindings.pop() {
            self.rows[last.name.0 as usize] = last.before;
        }
    }

    /// Lets the names go that were bound last, until there are no more than so many.
    pub fn back_to(&mut self, len: usize)
        ensures { bound self.new ≡ drop (length (bound self.old) - len) (bound self.old) }
    {
        while len < self.bindings.len() {
            self.back();
        }
    }
}

// Makes rows so many that a name has a place among them. What stands there stays.
fn with_place(rows: &mut Vec<Option<usize>>, name: Binder) -> Result<(), AllocError>
    ensures kept { (x : ℕ) → row_at rows.new.items x ≡ row_at rows.old.items x }
    ensures there { OnOk result (name.0 < vec_len rows.new) }
{
    let at = name.0 as usize;
    if rows.len() <= at {
        rows.resize(at + 1, None)?;
    }
    Ok(())
}
