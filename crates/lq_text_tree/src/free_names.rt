// The names that are free in a tree.
ghost use Rattle.std.specs.Prelude.{◌≡◌, nat_eq, map, IfOk, OnOk};
ghost use Rattle.indexmap.specs.IndexSet.{insert_key, insert_all};
ghost use Rattle.lq_text_tree.specs.Finding.{noted, found_in, found_in_form, found_in_all, found_in_cases};
ghost use Rattle.lq_text_tree.specs.FreeNames.{free_names};
ghost use Rattle.lq_text_tree.specs.Pattern.{bound_in, bound_in_form, bound_in_all};
ghost use Rattle.lq_text_tree.specs.PatternView.{pat_view, pat_form_view, pats_view};
ghost use Rattle.lq_text_tree.specs.TreeView.{form_view, case_view, cases_view, function_view, tree_view, trees_view};

use crate::expr::{Arm, Arms, Expr, Exprs, Function, Node};
use crate::pattern::{Pat, PatNode, Pats};
use indexmap::IndexSet;
use lq_base_names::{Ident, Names};
use std::alloc::{AllocError, Global};

impl<B: Ident> Expr<B> {
    /// The variables that are free in the tree, each once, in the order in which they first appear.
    pub fn free_names(&self, alloc: Global) -> Result<Names<B>, AllocError>
        ensures { IfOk result (λ names. map B.number names ≡ free_names (tree_view B B.number self.now)) }
    {
        let mut bound = IndexSet::new(alloc);
        let mut found = IndexSet::new(alloc);
        self.find_free(&mut bound, &mut found)?;
        numbered(alloc, &found)
    }

    #[cycle(free_names)]
    fn find_free(
        &self,
        bound: &mut IndexSet<u32>,
        found: &mut IndexSet<u32>,
    ) -> Result<(), AllocError>
        ensures bound { OnOk result (bound.new.keys ≡ bound.old.keys) }
        ensures found { OnOk result (found.new.keys ≡ found_in bound.old.keys found.old.keys
            (tree_view B B.number self.now)) }
    {
        self.node.find_free(bound, found)
    }

    // The same where the names of a pattern are bound too.
    #[cycle(free_names)]
    fn find_under(
        &self,
        pattern: &Pat<B>,
        bound: &mut IndexSet<u32>,
        found: &mut IndexSet<u32>,
    ) -> Result<(), AllocError>
        ensures bound { OnOk result (bound.new.keys ≡ bound.old.keys) }
        ensures found { OnOk result (found.new.keys
            ≡ found_in (insert_all nat_eq bound.old.keys (bound_in (pat_view B B.number pattern.now)))
            found.old.keys (tree_view B B.number self.now)) }
    {
        let outer = bound.len();
        pattern.bind(bound)?;
        self.find_free(bound, found)?;
        bound.truncate(outer);
        Ok(())
    }

    // The same where one more name is bound.
    #[cycle(free_names)]
    fn find_under_name(
        &self,
        name: B,
        bound: &mut IndexSet<u32>,
        found: &mut IndexSet<u32>,
    ) -> Result<(), AllocError>
        ensures bound { OnOk result (bound.new.keys ≡ bound.old.keys) }
        ensures found { OnOk result (found.new.keys
            ≡ found_in (insert_key nat_eq bound.old.keys (B.number name)) found.old.keys
            (tree_view B B.number self.now)) }
    {
        let outer = bound.len();
        bound.insert(name.number())?;
        self.find_free(bound, found)?;
        bound.truncate(outer);
        Ok(())
    }
}

// The names of these numbers.
fn numbered<B: Ident>(alloc: Global, numbers: &IndexSet<u32>) -> Result<Names<B>, AllocError>
    ensures { IfOk result (λ names. map B.number names ≡ numbers.now.keys) }
{
    let mut names = Names::new(alloc)?;
    for n in numbers.as_slice() {
        names.push(B::from_number(*n))?;
    }
    Ok(names)
}

// One more name, unless it is bound or was found.
fn note(name: u32, bound: &IndexSet<u32>, found: &mut IndexSet<u32>) -> Result<(), AllocError>
    ensures { OnOk result (found.new.keys ≡ noted bound.now.keys found.old.keys name) }
{
    if !bound.contains(&name) {
        found.insert(name)?;
    }
    Ok(())
}

impl<B: Ident> Node<B> {
    #[cycle(free_names)]
    fn find_free(
        &self,
        bound: &mut IndexSet<u32>,
        found: &mut IndexSet<u32>,
    ) -> Result<(), AllocError>
        ensures bound { OnOk result (bound.new.keys ≡ bound.old.keys) }
        ensures found { OnOk result (found.new.keys ≡ found_in_form bound.old.keys found.old.keys
            (form_view B B.number self.now)) }
    {
        match self {
            Node::Whole(_) => Ok(()),
            Node::Flag(_) => Ok(()),
            Node::Unit => Ok(()),
            Node::Use(x) => note((*x).number(), bound, found),
            Node::Qualified(_, _) => Ok(()),
            Node::Fun(p, b) => b.find_under(p, bound, found),
            Node::Tuple(parts) => parts.find_free(bound, found),
            Node::Build(_, _, parts) => parts.find_free(bound, found),
            Node::ListOf(items) => items.find_free(bound, found),
            Node::Let(p, e, b) => {
                e.find_free(bound, found)?;
                b.find_under(p, bound, found)
            }
            Node::LetRec(f, r, b) => {
                r.find_free(*f, bound, found)?;
                b.find_under_name(*f, bound, found)
            }
            Node::Call(a, b) => {
                a.find_free(bound, found)?;
                b.find_free(bound, found)
            }
            Node::Arith(_, a, b) => {
                a.find_free(bound, found)?;
                b.find_free(bound, found)
            }
            Node::Neg(e) => e.find_free(bound, found),
            Node::Compare(_, a, b) => {
                a.find_free(bound, found)?;
                b.find_free(bound, found)
            }
            Node::Not(e) => e.find_free(bound, found),
            Node::And(a, b) => {
                a.find_free(bound, found)?;
                b.find_free(bound, found)
            }
            Node::Or(a, b) => {
                a.find_free(bound, found)?;
                b.find_free(bound, found)
            }
            Node::If(c, a, b) => {
                c.find_free(bound, found)?;
                a.find_free(bound, found)?;
                b.find_free(bound, found)
            }
            Node::Match(e, arms) => {
                e.find_free(bound, found)?;
                arms.find_free(bound, found)
            }
            Node::Chain(parts) => parts.find_free(bound, found),
            Node::Assert(e) => e.find_free(bound, found),
            Node::AssertFalse => Ok(()),
            Node::Make(a, b) => {
                a.find_free(bound, found)?;
                b.find_free(bound, found)
            }
            Node::Length(a) => a.find_free(bound, found),
            Node::Fetch(a, b) => {
                a.find_free(bound, found)?;
                b.find_free(bound, found)
            }
            Node::Store(c, a, b) => {
                c.find_free(bound, found)?;
                a.find_free(bound, found)?;
                b.find_free(bound, found)
            }
            Node::Print(e) => e.find_free(bound, found),
            Node::Read(e) => e.find_free(bound, found),
            Node::MapEmpty => Ok(()),
            Node::MapAdd(c, a, b) => {
                c.find_free(bound, found)?;
                a.find_free(bound, found)?;
                b.find_free(bound, found)
            }
            Node::MapFind(a, b) => {
                a.find_free(bound, found)?;
                b.find_free(bound, found)
            }
        }
    }
}

impl<B: Ident> Function<B> {
    // In the body the function's own name and its parameter are bound.
    #[cycle(free_names)]
    fn find_free(
        &self,
        own: B,
        bound: &mut IndexSet<u32>,
        found: &mut IndexSet<u32>,
    ) -> Result<(), AllocError>
        ensures bound { OnOk result (bound.new.keys ≡ bound.old.keys) }
        ensures found { OnOk result (found.new.keys
            ≡ found_in (insert_all nat_eq (insert_key nat_eq bound.old.keys (B.number own))
            (bound_in (function_view B B.number self.now).parameter)) found.old.keys
            (function_view B B.number self.now).body) }
    {
        let outer = bound.len();
        bound.insert(own.number())?;
        self.body.find_under(&self.parameter, bound, found)?;
        bound.truncate(outer);
        Ok(())
    }
}

impl<B: Ident> Exprs<B> {
    #[cycle(free_names)]
    fn find_free(
        &self,
        bound: &mut IndexSet<u32>,
        found: &mut IndexSet<u32>,
    ) -> Result<(), AllocError>
        ensures bound { OnOk result (bound.new.keys ≡ bound.old.keys) }
        ensures found { OnOk result (found.new.keys ≡ found_in_all bound.old.keys found.old.keys
            (trees_view B B.number self.now)) }
    {
        for e in &self.items {
            e.find_free(bound, found)?;
        }
        Ok(())
    }
}

impl<B: Ident> Arm<B> {
    #[cycle(free_names)]
    fn find_free(
        &self,
        bound: &mut IndexSet<u32>,
        found: &mut IndexSet<u32>,
    ) -> Result<(), AllocError>
        ensures bound { OnOk result (bound.new.keys ≡ bound.old.keys) }
        ensures found { OnOk result (found.new.keys
            ≡ found_in (insert_all nat_eq bound.old.keys (bound_in (case_view B B.number self.now).pattern))
            found.old.keys (case_view B B.number self.now).body) }
    {
        self.body.find_under(&self.pattern, bound, found)
    }
}

impl<B: Ident> Arms<B> {
    #[cycle(free_names)]
    fn find_free(
        &self,
        bound: &mut IndexSet<u32>,
        found: &mut IndexSet<u32>,
    ) -> Result<(), AllocError>
        ensures bound { OnOk result (bound.new.keys ≡ bound.old.keys) }
        ensures found { OnOk result (found.new.keys ≡ found_in_cases bound.old.keys found.old.keys
            (cases_view B B.number self.now)) }
    {
        for arm in &self.items {
            arm.find_free(bound, found)?;
        }
        Ok(())
    }
}

impl<B: Ident> Pat<B> {
    // Binds the names of the pattern.
    #[cycle(bind)]
    fn bind(&self, bound: &mut IndexSet<u32>) -> Result<(), AllocError>
        ensures { OnOk result (bound.new.keys ≡ insert_all nat_eq bound.old.keys
            (bound_in (pat_view B B.number self.now))) }
    {
        self.node.bind(bound)
    }
}

impl<B: Ident> PatNode<B> {
    #[cycle(bind)]
    fn bind(&self, bound: &mut IndexSet<u32>) -> Result<(), AllocError>
        ensures { OnOk result (bound.new.keys ≡ insert_all nat_eq bound.old.keys
            (bound_in_form (pat_form_view B B.number self.now))) }
    {
        match self {
            PatNode::Any => Ok(()),
            PatNode::Bind(x) => {
                bound.insert((*x).number())?;
                Ok(())
            }
            PatNode::Unit => Ok(()),
            PatNode::Tuple(parts) => parts.bind(bound),
            PatNode::Build(_, _, parts) => parts.bind(bound),
        }
    }
}

impl<B: Ident> Pats<B> {
    #[cycle(bind)]
    fn bind(&self, bound: &mut IndexSet<u32>) -> Result<(), AllocError>
        ensures { OnOk result (bound.new.keys ≡ insert_all nat_eq bound.old.keys
            (bound_in_all (pats_view B B.number self.now))) }
    {
        for p in &self.items {
            p.bind(bound)?;
        }
        Ok(())
    }
}
