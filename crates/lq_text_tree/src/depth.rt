// How deep a tree is.
ghost use Rattle.std.specs.Prelude.{◌≡◌, ◌<◌, ◌+◌, ◌^◌};
ghost use Rattle.lq_text_tree.specs.Depth.{depth_of, depth_below, greatest_depth, greatest_case_depth};
ghost use Rattle.lq_text_tree.specs.TreeView.{form_view, case_view, cases_view, function_view, tree_view, trees_view};

use crate::expr::{Arm, Arms, Expr, Exprs, Function, Node};
use lq_base_names::Ident;

impl<B: Ident> Expr<B> {
    /// The number of nodes on the longest path.
    #[cycle(depth)]
    pub fn depth(&self) -> u32
        requires { depth_of (tree_view B B.number self.now) < 2 ^ 32 }
        ensures { result ≡ depth_of (tree_view B B.number self.now) }
    {
        self.node.depth_below() + 1
    }
}

impl<B: Ident> Node<B> {
    #[cycle(depth)]
    fn depth_below(&self) -> u32
        requires { depth_below (form_view B B.number self.now) < 2 ^ 32 }
        ensures { result ≡ depth_below (form_view B B.number self.now) }
    {
        match self {
            Node::Whole(_) => 0,
            Node::Flag(_) => 0,
            Node::Unit => 0,
            Node::Use(_) => 0,
            Node::Qualified(_, _) => 0,
            Node::Fun(_, body) => body.depth(),
            Node::Tuple(parts) => parts.depth(),
            Node::Build(_, _, parts) => parts.depth(),
            Node::ListOf(items) => items.depth(),
            Node::Let(_, e, b) => e.depth().max(b.depth()),
            Node::LetRec(_, f, b) => f.depth().max(b.depth()),
            Node::Call(f, a) => f.depth().max(a.depth()),
            Node::Arith(_, a, b) => a.depth().max(b.depth()),
            Node::Neg(e) => e.depth(),
            Node::Compare(_, a, b) => a.depth().max(b.depth()),
            Node::Not(e) => e.depth(),
            Node::And(a, b) => a.depth().max(b.depth()),
            Node::Or(a, b) => a.depth().max(b.depth()),
            Node::If(c, a, b) => c.depth().max(a.depth().max(b.depth())),
            Node::Match(e, arms) => e.depth().max(arms.depth()),
            Node::Chain(parts) => parts.depth(),
            Node::Assert(e) => e.depth(),
            Node::AssertFalse => 0,
            Node::Make(n, e) => n.depth().max(e.depth()),
            Node::Length(a) => a.depth(),
            Node::Fetch(a, i) => a.depth().max(i.depth()),
            Node::Store(a, i, e) => a.depth().max(i.depth().max(e.depth())),
            Node::Print(e) => e.depth(),
            Node::Read(e) => e.depth(),
            Node::MapEmpty => 0,
            Node::MapAdd(k, e, m) => k.depth().max(e.depth().max(m.depth())),
            Node::MapFind(k, m) => k.depth().max(m.depth()),
        }
    }
}

impl<B: Ident> Function<B> {
    #[cycle(depth)]
    fn depth(&self) -> u32
        requires { depth_of (function_view B B.number self.now).body + 1 < 2 ^ 32 }
        ensures { result ≡ depth_of (function_view B B.number self.now).body + 1 }
    {
        self.body.depth() + 1
    }
}

impl<B: Ident> Exprs<B> {
    #[cycle(depth)]
    fn depth(&self) -> u32
        requires { greatest_depth (trees_view B B.number self.now) < 2 ^ 32 }
        ensures { result ≡ greatest_depth (trees_view B B.number self.now) }
    {
        let mut deepest = 0;
        for e in &self.items {
            deepest = e.depth().max(deepest);
        }
        deepest
    }
}

impl<B: Ident> Arm<B> {
    #[cycle(depth)]
    fn depth(&self) -> u32
        requires { depth_of (case_view B B.number self.now).body < 2 ^ 32 }
        ensures { result ≡ depth_of (case_view B B.number self.now).body }
    {
        self.body.depth()
    }
}

impl<B: Ident> Arms<B> {
    #[cycle(depth)]
    fn depth(&self) -> u32
        requires { greatest_case_depth (cases_view B B.number self.now) < 2 ^ 32 }
        ensures { result ≡ greatest_case_depth (cases_view B B.number self.now) }
    {
        let mut deepest = 0;
        for arm in &self.items {
            deepest = arm.depth().max(deepest);
        }
        deepest
    }
}
