// A pure expression is an operation too.
ghost use Rattle.std.specs.Prelude.{◌≡◌};
ghost use Rattle.lq_meaning_normal_tree.specs.AtomView.{atom_view};
ghost use Rattle.lq_meaning_normal_tree.specs.BlockView.{operation_view};

use crate::atom::Atom;
use crate::block::{Operation, OperationNode};

impl Atom {
    /// The operation that this expression is.
    pub fn into_operation(self) -> Operation
        ensures { operation_view result ≡ atom_view self }
    {
        Operation {
            id: self.id,
            place: self.place,
            node: OperationNode::Pure(self.node),
        }
    }
}
