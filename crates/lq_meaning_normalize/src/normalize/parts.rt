// The parts of a row and the arms of a match, from one on.
ghost use Rattle.std.specs.Prelude.{◌≡◌, option_copied};
ghost use Rattle.std.specs.Option.{option_map};
ghost use Rattle.lq_text_tree.specs.TreeView.{case_view, scoped_view};
ghost use Rattle.lq_base_names.specs.declared.name.Binder.{Binder};
ghost use Rattle.lq_meaning_normalize.specs.Normalize.Parts.{parts_left, arms_left, with_rest};

use lq_base_names::Binder;
use lq_text_tree::{Arm, Arms, Expr, Exprs};

// The parts of a row, from one on.
#[derive(Clone, Copy)]
pub(crate) struct Parts<'a> {
    pub(crate) all: &'a Exprs<Binder>,
    pub(crate) next: usize,
}

// The arms of a match, from one on.
#[derive(Clone, Copy)]
pub(crate) struct Cases<'a> {
    pub(crate) all: &'a Arms<Binder>,
    pub(crate) next: usize,
}

impl<'a> Parts<'a> {
    // The next part, or none.
    pub(crate) fn take(&mut self) -> Option<&'a Expr<Binder>>
        ensures { parts_left self.old ≡ with_rest (option_map scoped_view (option_copied result)) (parts_left self.new) }
    {
        let at = self.next;
        if at >= self.all.len() {
            return None;
        }
        self.next = at + 1;
        self.all.get(at)
    }
}

impl<'a> Cases<'a> {
    // The next arm, or none.
    pub(crate) fn take(&mut self) -> Option<&'a Arm<Binder>>
        ensures { arms_left self.old ≡ with_rest (option_map (case_view Binder (λ b. b.0)) (option_copied result)) (arms_left self.new) }
    {
        let at = self.next;
        if at >= self.all.len() {
            return None;
        }
        self.next = at + 1;
        self.all.get(at)
    }
}
