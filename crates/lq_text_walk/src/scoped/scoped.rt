// Whole scoped programs.
ghost use Rattle.std.specs.Prelude.{◌≡◌, ◌<◌, map, length, slice_get, Some};
ghost use Rattle.lq_text_walk.specs.Scoped.Scoping.{IsScoped, scoping};
ghost use Rattle.lq_text_walk.specs.Scoped.Views.{data_view, scoped_items, source_view};

use crate::scoped::datatype::DataType;
use lq_base_names::{Binder, Name};
use lq_text_tree::{Item, drop_items};

/// A program whose names are bound.
///
/// Its nodes are numbered 0, 1, .. as they end, parts before the whole, over all items in their order; its binders 0, 1, .. in the
/// order of the text. The function of a `let rec` is a node. A parameter that is written as a tuple is a binder without a source
/// name, and the function's body a match on it, so that match and what it matches are nodes too.
///
/// It is dropped by a loop down first parts, so the stack that this takes grows with the levels of the text alone.
pub struct Scoped {
    items: Vec<Item<Binder>>,
    datatypes: Vec<DataType>,
    sources: Vec<Option<Name>>,
    ghost scoped: { IsScoped (scoping (scoped_items items.items) (map data_view datatypes.items)
        (map source_view sources.items)) },
}

impl Scoped {
    ghost use Rattle.lq_text_walk.specs.Scoped.Whole.{scoped_view};

    /// A program of these items and datatypes, and with these source names of its binders: a binder that has none was made.
    pub fn new(
        items: Vec<Item<Binder>>,
        datatypes: Vec<DataType>,
        sources: Vec<Option<Name>>,
    ) -> Scoped
        requires { IsScoped (scoping (scoped_items items.items) (map data_view datatypes.items)
            (map source_view sources.items)) }
        ensures { scoped_view result ≡ scoping (scoped_items items.items) (map data_view datatypes.items)
            (map source_view sources.items) }
    {
        Scoped {
            items,
            datatypes,
            sources,
        }
    }

    /// The definitions, in order.
    pub fn items(&self) -> &[Item<Binder>]
        ensures items { scoped_items result.now ≡ (scoped_view self.now).items }
        ensures scoped { IsScoped (scoped_view self.now) }
    {
        &self.items
    }

    /// The datatypes that the program defines, in order. The predeclared ones aren't among them.
    pub fn datatypes(&self) -> &[DataType]
        ensures { map data_view result.now ≡ (scoped_view self.now).datatypes }
    {
        &self.datatypes
    }

    /// How many binders there are.
    pub fn binders(&self) -> usize
        ensures { result ≡ length (scoped_view self.now).sources }
    {
        self.sources.len()
    }

    /// The name of a binder in the source, or none of one that was made.
    pub fn source_of(&self, binder: Binder) -> Option<Name>
        requires { binder.0 < length (scoped_view self.now).sources }
        ensures { slice_get (scoped_view self.now).sources binder.0 ≡ Some (source_view result) }
    {
        self.sources[binder.0 as usize]
    }
}

impl Drop for Scoped {
    fn drop(self) {
        let Scoped {
            items,
            datatypes: _datatypes,
            sources: _sources,
        } = self;
        drop_items(items);
    }
}
