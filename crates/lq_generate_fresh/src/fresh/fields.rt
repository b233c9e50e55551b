// What matrices need to know of datatypes.
ghost use Rattle.std.specs.Prelude.{◌≡◌, map};
ghost use Rattle.lq_generate_fresh.specs.Fresh.Views.{constructor_view, constructors_of};

use lq_base_names::Name;
use lq_text_qualifiers::sorting::Shape;
use std::alloc::{AllocError, Global};

/// A field of a constructor.
#[derive(Clone, Copy, Debug, PartialEq, Eq)]
pub enum Field {
    /// The datatype of the field's own constructor, with the first so many parameters in their order.
    Again(u32),
    /// A type of this shape, whatever the parameters are; of none where predicates don't speak of it.
    Shaped(Option<Shape>),
    /// A parameter, counted from 0.
    Parameter(u32),
}

/// A constructor with its fields.
#[derive(Debug, Drop)]
pub struct Constructor {
    pub(crate) name: Name,
    pub(crate) fields: Vec<Field>,
}

/// For each datatype, by its name, its constructors in their order.
#[derive(Debug, Drop)]
pub struct Datatypes {
    pub(crate) rows: Vec<Vec<Constructor>>,
}

impl Datatypes {
    /// The constructors of a datatype; of one that isn't there none.
    pub fn of(&self, name: Name) -> &[Constructor]
        ensures { map constructor_view result.now ≡ constructors_of self.now name.0 }
    {
        match self.rows.get(name.0 as usize) {
            Some(row) => row.as_slice(),
            None => &[],
        }
    }
}
