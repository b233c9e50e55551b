// Equal trees.
ghost use Rattle.std.specs.Prelude.{◌≡◌, IfOk};
ghost use Rattle.lq_text_tree.specs.PatternView.{pat_view, pat_form_view, pats_view};
ghost use Rattle.lq_text_tree.specs.TreeView.{form_view, case_view, cases_view, function_view, tree_view, trees_view};

use crate::expr::{Arm, Arms, Expr, Exprs, Function, Node};
use crate::pattern::{Pat, PatNode, Pats};
use lq_base_names::Ident;
use std::alloc::{AllocError, Global};

impl<B: Ident> Pat<B> {
    /// An equal pattern.
    #[cycle(copy_pattern)]
    pub fn copy(&self, alloc: Global) -> Result<Pat<B>, AllocError>
        ensures { IfOk result (λ p. pat_view B B.number p ≡ pat_view B B.number self.now) }
    {
        let node = self.node.copy(alloc)?;
        Ok(Pat {
            place: self.place,
            node,
        })
    }
}

impl<B: Ident> Pat<B> {
    fn boxed(&self, alloc: Global) -> Result<Box<Pat<B>>, AllocError>
        ensures { IfOk result (λ b. pat_view B B.number b.value ≡ pat_view B B.number self.now) }
    {
        let copied = self.copy(alloc)?;
        Ok(Box::new(alloc, copied)?)
    }
}

impl<B: Ident> PatNode<B> {
    #[cycle(copy_pattern)]
    fn copy(&self, alloc: Global) -> Result<PatNode<B>, AllocError>
        ensures { IfOk result (λ n. pat_form_view B B.number n ≡ pat_form_view B B.number self.now) }
    {
        match self {
            PatNode::Any => Ok(PatNode::Any),
            PatNode::Bind(x) => Ok(PatNode::Bind(*x)),
            PatNode::Unit => Ok(PatNode::Unit),
            PatNode::Tuple(parts) => Ok(PatNode::Tuple(parts.copy(alloc)?)),
            PatNode::Build(c, place, parts) => Ok(PatNode::Build(*c, *place, parts.copy(alloc)?)),
        }
    }
}

impl<B: Ident> Pats<B> {
    #[cycle(copy_pattern)]
    pub fn copy(&self, alloc: Global) -> Result<Pats<B>, AllocError>
        ensures { IfOk result (λ ps. pats_view B B.number ps ≡ pats_view B B.number self.now) }
    {
        let mut items = Vec::new(alloc);
        for p in &self.items {
            items.push(p.copy(alloc)?)?;
        }
        Ok(Pats { items })
    }
}

impl<B: Ident> Expr<B> {
    /// An equal tree.
    #[cycle(copy)]
    pub fn copy(&self, alloc: Global) -> Result<Expr<B>, AllocError>
        ensures { IfOk result (λ e. tree_view B B.number e ≡ tree_view B B.number self.now) }
    {
        let node = self.node.copy(alloc)?;
        Ok(Expr {
            id: self.id,
            place: self.place,
            node,
        })
    }

    #[cycle(copy)]
    fn boxed(&self, alloc: Global) -> Result<Box<Expr<B>>, AllocError>
        ensures { IfOk result (λ b. tree_view B B.number b.value ≡ tree_view B B.number self.now) }
    {
        let copied = self.copy(alloc)?;
        Ok(Box::new(alloc, copied)?)
    }
}

impl<B: Ident> Node<B> {
    #[cycle(copy)]
    fn copy(&self, alloc: Global) -> Result<Node<B>, AllocError>
        ensures { IfOk result (λ n. form_view B B.number n ≡ form_view B B.number self.now) }
    {
        match self {
            Node::Whole(n) => Ok(Node::Whole(*n)),
            Node::Flag(b) => Ok(Node::Flag(*b)),
            Node::Unit => Ok(Node::Unit),
            Node::Use(x) => Ok(Node::Use(*x)),
            Node::Qualified(m, x) => Ok(Node::Qualified(*m, *x)),
            Node::Fun(p, b) => Ok(Node::Fun(p.boxed(alloc)?, b.boxed(alloc)?)),
            Node::Tuple(parts) => Ok(Node::Tuple(parts.copy(alloc)?)),
            Node::Build(c, held, parts) => Ok(Node::Build(*c, *held, parts.copy(alloc)?)),
            Node::ListOf(items) => Ok(Node::ListOf(items.copy(alloc)?)),
            Node::Let(p, e, b) => Ok(Node::Let(p.boxed(alloc)?, e.boxed(alloc)?, b.boxed(alloc)?)),
            Node::LetRec(f, r, b) => Ok(Node::LetRec(*f, r.boxed(alloc)?, b.boxed(alloc)?)),
            Node::Call(f, a) => Ok(Node::Call(f.boxed(alloc)?, a.boxed(alloc)?)),
            Node::Arith(op, a, b) => Ok(Node::Arith(*op, a.boxed(alloc)?, b.boxed(alloc)?)),
            Node::Neg(e) => Ok(Node::Neg(e.boxed(alloc)?)),
            Node::Compare(op, a, b) => Ok(Node::Compare(*op, a.boxed(alloc)?, b.boxed(alloc)?)),
            Node::Not(e) => Ok(Node::Not(e.boxed(alloc)?)),
            Node::And(a, b) => Ok(Node::And(a.boxed(alloc)?, b.boxed(alloc)?)),
            Node::Or(a, b) => Ok(Node::Or(a.boxed(alloc)?, b.boxed(alloc)?)),
            Node::If(c, a, b) => Ok(Node::If(c.boxed(alloc)?, a.boxed(alloc)?, b.boxed(alloc)?)),
            Node::Match(e, arms) => Ok(Node::Match(e.boxed(alloc)?, arms.copy(alloc)?)),
            Node::Chain(parts) => Ok(Node::Chain(parts.copy(alloc)?)),
            Node::Assert(e) => Ok(Node::Assert(e.boxed(alloc)?)),
            Node::AssertFalse => Ok(Node::AssertFalse),
            Node::Make(n, e) => Ok(Node::Make(n.boxed(alloc)?, e.boxed(alloc)?)),
            Node::Length(a) => Ok(Node::Length(a.boxed(alloc)?)),
            Node::Fetch(a, i) => Ok(Node::Fetch(a.boxed(alloc)?, i.boxed(alloc)?)),
            Node::Store(a, i, e) => Ok(Node::Store(
                a.boxed(alloc)?,
                i.boxed(alloc)?,
                e.boxed(alloc)?,
            )),
            Node::Print(e) => Ok(Node::Print(e.boxed(alloc)?)),
            Node::Read(e) => Ok(Node::Read(e.boxed(alloc)?)),
            Node::MapEmpty => Ok(Node::MapEmpty),
            Node::MapAdd(k, e, m) => Ok(Node::MapAdd(
                k.boxed(alloc)?,
                e.boxed(alloc)?,
                m.boxed(alloc)?,
            )),
            Node::MapFind(k, m) => Ok(Node::MapFind(k.boxed(alloc)?, m.boxed(alloc)?)),
        }
    }
}

impl<B: Ident> Function<B> {
    #[cycle(copy)]
    pub fn copy(&self, alloc: Global) -> Result<Function<B>, AllocError>
        ensures { IfOk result (λ f. function_view B B.number f ≡ function_view B B.number self.now) }
    {
        let parameter = self.parameter.copy(alloc)?;
        let body = self.body.boxed(alloc)?;
        Ok(Function {
            id: self.id,
            place: self.place,
            parameter,
            body,
        })
    }

    #[cycle(copy)]
    fn boxed(&self, alloc: Global) -> Result<Box<Function<B>>, AllocError>
        ensures { IfOk result (λ b. function_view B B.number b.value ≡ function_view B B.number self.now) }
    {
        let copied = self.copy(alloc)?;
        Ok(Box::new(alloc, copied)?)
    }
}

impl<B: Ident> Exprs<B> {
    #[cycle(copy)]
    pub fn copy(&self, alloc: Global) -> Result<Exprs<B>, AllocError>
        ensures { IfOk result (λ es. trees_view B B.number es ≡ trees_view B B.number self.now) }
    {
        let mut items = Vec::new(alloc);
        for e in &self.items {
            items.push(e.copy(alloc)?)?;
        }
        Ok(Exprs { items })
    }
}

impl<B: Ident> Arm<B> {
    #[cycle(copy)]
    fn copy(&self, alloc: Global) -> Result<Arm<B>, AllocError>
        ensures { IfOk result (λ arm. case_view B B.number arm ≡ case_view B B.number self.now) }
    {
        let pattern = self.pattern.copy(alloc)?;
        let body = self.body.boxed(alloc)?;
        Ok(Arm { pattern, body })
    }
}

impl<B: Ident> Arms<B> {
    #[cycle(copy)]
    pub fn copy(&self, alloc: Global) -> Result<Arms<B>, AllocError>
        ensures { IfOk result (λ arms. cases_view B B.number arms ≡ cases_view B B.number self.now) }
    {
        let mut items = Vec::new(alloc);
        for arm in &self.items {
            items.push(arm.copy(alloc)?)?;
        }
        Ok(Arms { items })
    }
}
