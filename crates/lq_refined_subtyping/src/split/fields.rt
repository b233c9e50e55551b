// The types of constructors' fields.
ghost use Rattle.std.specs.Prelude.{◌≡◌, ℕ, []};
ghost use Rattle.lq_refined_subtyping.specs.Split.Fields.{fields_at};

use lq_base_names::Name;
use std::alloc::Global;

/// For each constructor, at the number of its name, the numbers of its fields' types, without refinements, in which the parameters are
/// variables.
#[derive(Debug, Drop)]
pub struct ConstructorFields {
    pub rows: Vec<Vec<usize>>,
}

impl ConstructorFields {
    /// No constructor has a field.
    pub fn new(alloc: Global) -> ConstructorFields
        ensures { (c : ℕ) → fields_at result c ≡ [] }
    {
        ConstructorFields {
            rows: Vec::new(alloc),
        }
    }

    /// The fields of a constructor; of one past the last row there are none.
    pub fn get(&self, constructor: Name) -> &[usize]
        ensures { result.now ≡ fields_at self.now constructor.0 }
    {
        match self.rows.get(constructor.0 as usize) {
            Some(fields) => fields.as_slice(),
            None => &[],
        }
    }
}
