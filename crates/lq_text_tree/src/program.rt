// Whole parsed programs.
ghost use Rattle.std.specs.Prelude.{◌≡◌, ◌≤◌};
ghost use Rattle.lq_text_tree.specs.Items.{parsed_items};
ghost use Rattle.lq_text_tree.specs.Levels.{items_nesting};
ghost use Rattle.lq_base_names.specs.declared.limits.TheConstants.{LEVEL_LIMIT};

use crate::dropping::drop_items;
use crate::item::Item;
use lq_base_names::Name;

/// A parsed program: its items in order. No tree of it nests deeper than the limit of levels.
///
/// It is dropped by a loop down first parts, so the stack that this takes grows with the levels alone.
pub struct Program {
    items: Vec<Item<Name>>,
    ghost shallow: { items_nesting (parsed_items items.items) ≤ LEVEL_LIMIT },
}

impl Program {
    ghost use Rattle.lq_text_tree.specs.Texts.{program_view};

    pub fn new(items: Vec<Item<Name>>) -> Program
        requires { items_nesting (parsed_items items.items) ≤ LEVEL_LIMIT }
        ensures { program_view result ≡ parsed_items items.items }
    {
        Program { items }
    }

    /// The items, in order.
    pub fn items(&self) -> &[Item<Name>]
        ensures items { parsed_items result.now ≡ program_view self.now }
        ensures shallow { items_nesting (program_view self.now) ≤ LEVEL_LIMIT }
    {
        &self.items
    }
}

impl Drop for Program {
    fn drop(self) {
        let Program { items } = self;
        drop_items(items);
    }
}
