// What is public: the rules of nodes, functions and items.
ghost use Rattle.std.specs.Prelude.{◌<◌, OnOk, IfOk};
ghost use Rattle.lq_base_names.specs.declared.name.Binder.{Binder};
ghost use Rattle.lq_text_tree.specs.Items.{item_form_view};
ghost use Rattle.lq_text_tree.specs.PatternView.{pat_view};
ghost use Rattle.lq_text_tree.specs.TreeView.{tree_view, function_view};
ghost use Rattle.lq_text_tree.specs.Types.{Signature};
ghost use Rattle.lq_text_tree.specs.TypingRules.{ItemPatternIs};
ghost use Rattle.lq_types_rules.specs.Equations.Adding.{IsSystem, IsLonger, Adds, count_of};
ghost use Rattle.lq_types_rules.specs.Equations.Rows.{annotation_of, TreeRule, FunctionRule, ItemRule};
ghost use Rattle.lq_types_rules.specs.Equations.Within.{PatternIn, TreeIn, FunctionIn, ItemIn};
ghost use Rattle.lq_types_rules.specs.Equations.Templates.{AreWhole, HasSignature};

use crate::equations::node::number_of;
use crate::equations::system::System;
use crate::equations::template::Constructors;
use lq_text_tree::{Binder, Expr, Function, ItemNode, Pat, PatNode};
use lq_text_walk::walk::shape_of;
use lq_types_unify::Head;
use std::alloc::{AllocError, Global};

impl System {
    // The pattern of an item, for values of the type of one.
    fn add_definition(
        &mut self,
        nodes: u32,
        pattern: &Pat<Binder>,
        bound: u32,
    ) -> Result<(), AllocError>
        requires system { IsSystem self.old }
        requires names { PatternIn nodes (count_of self.old) (pat_view Binder (λ b. b.0) pattern.now) }
        requires bound { bound < count_of self.old }
        ensures { OnOk result (Adds self.old self.new (λ t. ItemPatternIs (annotation_of nodes t)
            (pat_view Binder (λ b. b.0) pattern.now) (t bound))) }
    {
        match &pattern.node {
            PatNode::Any => Ok(()),
            PatNode::Bind(x) => self.same(nodes + x.0, bound),
            PatNode::Unit => self.is(bound, Head::Unit, &[]),
            PatNode::Tuple(_) => self.never(bound),
            PatNode::Build(_, _, _) => self.never(bound),
        }
    }

    /// The system with the rule of a node. A variable is used at its binder's type.
    pub fn with_node(
        mut self,
        alloc: Global,
        constructors: &Constructors,
        nodes: u32,
        node: &Expr<Binder>,
    ) -> Result<System, AllocError>
        requires system { IsSystem self }
        requires whole { AreWhole constructors.now }
        requires within { TreeIn nodes (count_of self) (tree_view Binder (λ b. b.0) node.now) }
        ensures grows { IfOk result (λ s. IsLonger self s) }
        ensures rule { IfOk result (λ s. (g : Signature) → HasSignature constructors.now g → Adds self s
            (TreeRule g nodes (tree_view Binder (λ b. b.0) node.now))) }
    {
        self.add_shape(alloc, constructors, nodes, shape_of(&node.node), node.id)?;
        Ok(self)
    }

    /// The system with the rule of the function of a recursive definition.
    pub fn with_function(
        mut self,
        alloc: Global,
        constructors: &Constructors,
        nodes: u32,
        function: &Function<Binder>,
    ) -> Result<System, AllocError>
        requires system { IsSystem self }
        requires whole { AreWhole constructors.now }
        requires within { FunctionIn nodes (count_of self) (function_view Binder (λ b. b.0) function.now) }
        ensures grows { IfOk result (λ s. IsLonger self s) }
        ensures rule { IfOk result (λ s. (g : Signature) → HasSignature constructors.now g → Adds self s
            (FunctionRule g nodes (function_view Binder (λ b. b.0) function.now))) }
    {
        let (body, at) = (number_of(&function.body), function.id);
        self.add_function(alloc, constructors, nodes, &function.parameter, body, at)?;
        Ok(self)
    }

    /// The system with an item's own rule: what ties its binder to its type.
    pub fn with_item(mut self, nodes: u32, item: &ItemNode<Binder>) -> Result<System, AllocError>
        requires system { IsSystem self }
        requires within { ItemIn nodes (count_of self) (item_form_view Binder (λ b. b.0) item.now) }
        ensures grows { IfOk result (λ s. IsLonger self s) }
        ensures rule { IfOk result (λ s. Adds self s
            (ItemRule nodes (item_form_view Binder (λ b. b.0) item.now))) }
    {
        match item {
            ItemNode::Type(_) => {}
            ItemNode::Let(pattern, bound) => self.add_definition(nodes, pattern, number_of(bound))?,
            ItemNode::LetRec(name, function) => self.same(function.id, nodes + name.0)?,
        }
        Ok(self)
    }
}
