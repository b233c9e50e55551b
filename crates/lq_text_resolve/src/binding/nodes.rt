// Nodes by their shape.
ghost use Rattle.std.specs.Prelude.{◌≡◌};
ghost use Rattle.lq_base_names.specs.declared.name.Binder.{Binder};
ghost use Rattle.lq_text_tree.specs.TreeView.{form_view, scoped_view};
ghost use Rattle.lq_text_walk.specs.Walk.View.{one_view, two_view, three_view};
ghost use Rattle.lq_text_resolve.specs.Binding.Views.{spread_view};
ghost use Rattle.lq_text_resolve.specs.Binding.Making.{one_form, spread, two_form, three_form};

use lq_base_names::Binder;
use lq_text_tree::{Expr, Exprs, Node};
use lq_text_walk::walk::{One, Three, Two};

type Part = Box<Expr<Binder>>;

pub(crate) fn one_node(head: One, a: Part) -> Node<Binder>
    ensures { form_view Binder (λ b. b.0) result ≡ one_form (one_view head) (scoped_view a.value) }
{
    match head {
        One::Neg => Node::Neg(a),
        One::Not => Node::Not(a),
        One::Assert => Node::Assert(a),
        One::Length => Node::Length(a),
        One::Print => Node::Print(a),
        One::Read => Node::Read(a),
    }
}

pub(crate) fn two_node(head: Two, a: Part, b: Part) -> Node<Binder>
    ensures { form_view Binder (λ b. b.0) result ≡ two_form (two_view head) (scoped_view a.value)
        (scoped_view b.value) }
{
    match head {
        Two::Call => Node::Call(a, b),
        Two::Arith(op) => Node::Arith(op, a, b),
        Two::Compare(op) => Node::Compare(op, a, b),
        Two::And => Node::And(a, b),
        Two::Or => Node::Or(a, b),
        Two::Make => Node::Make(a, b),
        Two::Fetch => Node::Fetch(a, b),
        Two::MapFind => Node::MapFind(a, b),
    }
}

pub(crate) fn three_node(head: Three, a: Part, b: Part, c: Part) -> Node<Binder>
    ensures { form_view Binder (λ b. b.0) result ≡ three_form (three_view head) (scoped_view a.value)
        (scoped_view b.value) (scoped_view c.value) }
{
    match head {
        Three::If => Node::If(a, b, c),
        Three::Store => Node::Store(a, b, c),
        Three::MapAdd => Node::MapAdd(a, b, c),
    }
}

/// A tuple's number and parts, or the tree itself.
pub(crate) fn spread(part: Expr<Binder>) -> Result<(u32, Exprs<Binder>), Expr<Binder>>
    ensures { spread_view result ≡ spread (scoped_view part) }
{
    let Expr { id, place, node } = part;
    match node {
        Node::Tuple(parts) => Ok((id, parts)),
        node => Err(Expr { id, place, node }),
    }
}
