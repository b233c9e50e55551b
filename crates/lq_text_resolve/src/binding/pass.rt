// The pass over the visits of a program.
ghost use Rattle.std.specs.Prelude.{◌≡◌, ◌<◌, ◌^◌, ◌++◌, length, map, OnOk};
ghost use Rattle.lq_base_names.specs.declared.name.Name.{Name};
ghost use Rattle.lq_text_tree.specs.Items.{item_view};
ghost use Rattle.lq_text_walk.specs.Scoped.Views.{source_view};
ghost use Rattle.lq_text_tree.specs.Pattern.{bound_in};
ghost use Rattle.lq_text_tree.specs.PatternView.{pat_view};
ghost use Rattle.lq_text_tree.specs.TreeView.{function_view, parsed_view, trees_view};
ghost use Rattle.lq_text_walk.specs.Walk.Shape.{listed};
ghost use Rattle.lq_text_walk.specs.Walk.Pending.{visit_view};
ghost use Rattle.lq_text_walk.specs.Walk.Visits.{enter, leave, declare, show, hide, show_name, leave_function, enter_item, leave_item};
ghost use Rattle.lq_text_resolve.specs.Binding.Binding.{bound_from, sources_of};
ghost use Rattle.lq_text_resolve.specs.Binding.Machine.{binding, matching, step};
ghost use Rattle.lq_text_resolve.specs.Binding.States.{binding_name, machine_of, HasDone};

use crate::binding::patterns::is_tuple;
use crate::binding::resolver::Resolver;
use crate::binding::values::Value;
use lq_base_names::{Binder, Name};
use lq_text_scope::{Binding, Scope, push_binders, show_constructors};
use lq_text_tree::{Expr, Exprs, Function, Item, ItemNode, Node, Pat};
use lq_text_walk::walk::{Shape, Visit, shape_of};
use std::alloc::AllocError;

impl<'a> Resolver<'a> {
    // Whether the next pattern is the parameter of what is entered.
    fn enter(&mut self, node: &Expr<Name>)
        ensures { HasDone self.old self.new (step self.old.names.now (machine_of self.old)
            (enter (parsed_view node.now))) }
    {
        self.taking = match shape_of(&node.node) {
            Shape::Fun(_, _) | Shape::LetRec(_, _, _) => true,
            Shape::Leaf(_)
            | Shape::One(_, _)
            | Shape::Two(_, _, _)
            | Shape::Three(_, _, _, _)
            | Shape::Row(_, _)
            | Shape::Let(_, _, _)
            | Shape::Match(_, _) => false,
        };
    }

    // A node, of what its parts became.
    fn leave(&mut self, node: &Expr<Name>) -> Result<(), AllocError>
        ensures { OnOk result (HasDone self.old self.new (step self.old.names.now (machine_of self.old)
            (leave (parsed_view node.now)))) }
    {
        let place = node.place;
        match shape_of(&node.node) {
            Shape::Leaf(leaf) => self.leaf(place, leaf),
            Shape::One(head, _) => self.one(place, head),
            Shape::Two(head, _, _) => self.two(place, head),
            Shape::Three(head, _, _, _) => self.three(place, head),
            Shape::Row(head, parts) => self.row(place, head, count_parts(parts)),
            Shape::Fun(parameter, _) => self.function(place, parameter),
            Shape::Let(pattern, _, _) => self.let_in(place, pattern),
            Shape::LetRec(_, function, _) => self.let_rec(place, function),
            Shape::Match(_, arms) => self.match_on(place, arms),
        }
    }

    // The binder of a tuple that is a parameter, and what its match matches.
    fn match_parameter(&mut self, pattern: &Pat<Name>) -> Result<(), AllocError>
        ensures { OnOk result (HasDone self.old self.new (matching
            (pat_view Name (λ n. n.0) pattern.now) (machine_of self.old))) }
    {
        match u32::try_from(self.sources.len()) {
            Ok(made) => {
                self.sources.push(None)?;
                self.put(pattern.place, Node::Use(Binder(made)))
            }
            Err(_) => Err(AllocError),
        }
    }

    // The names of a pattern.
    fn read_names(&mut self, pattern: &Pat<Name>) -> Result<(), AllocError>
        ensures names { OnOk result (map binding_name self.new.bindings.items
            ≡ bound_in (pat_view Name (λ n. n.0) pattern.now)) }
        ensures same { OnOk result (HasDone self.old self.new (machine_of self.old)) }
    {
        self.bindings.clear();
        push_binders(&mut self.bindings, pattern)?;
        Ok(())
    }

    // The binders of a pattern's names.
    fn bind(&mut self, pattern: &Pat<Name>) -> Result<(), AllocError>
        ensures { OnOk result (HasDone self.old self.new (binding
            (pat_view Name (λ n. n.0) pattern.now) (machine_of self.old))) }
    {
        match u32::try_from(self.sources.len()) {
            Ok(start) => {
                self.starts.push(start)?;
                self.read_names(pattern)?;
                push_sources(&mut self.sources, &self.bindings)
            }
            Err(_) => Err(AllocError),
        }
    }

    fn declare(&mut self, pattern: &Pat<Name>) -> Result<(), AllocError>
        ensures { OnOk result (HasDone self.old self.new (step self.old.names.now (machine_of self.old)
            (declare (pat_view Name (λ n. n.0) pattern.now)))) }
    {
        if self.taking && is_tuple(pattern) {
            self.match_parameter(pattern)?;
        }
        self.bind(pattern)?;
        self.taking = false;
        Ok(())
    }

    fn show(&mut self, pattern: &Pat<Name>) -> Result<(), AllocError>
        ensures { OnOk result (HasDone self.old self.new (step self.old.names.now (machine_of self.old)
            (show (pat_view Name (λ n. n.0) pattern.now)))) }
    {
        let start = match self.starts.last() {
            Some(start) => *start,
            None => 0,
        };
        self.read_names(pattern)?;
        show_from(&mut self.variables, start as usize, &self.bindings)
    }

    fn hide(&mut self, pattern: &Pat<Name>) -> Result<(), AllocError>
        ensures { OnOk result (HasDone self.old self.new (step self.old.names.now (machine_of self.old)
            (hide (pat_view Name (λ n. n.0) pattern.now)))) }
    {
        self.read_names(pattern)?;
        self.variables.hide(self.bindings.len());
        Ok(())
    }

    fn show_name(&mut self, name: Name) -> Result<(), AllocError>
        ensures { OnOk result (HasDone self.old self.new (step self.old.names.now (machine_of self.old)
            (show_name name.0))) }
    {
        let binder = self.sources.len();
        match u32::try_from(binder) {
            Ok(start) => {
                self.starts.push(start)?;
                self.sources.push(Some(name))?;
                self.variables.show(name, binder)
            }
            Err(_) => Err(AllocError),
        }
    }

    // The number of a function, behind that of the match on its parameter.
    fn leave_function(&mut self, function: &Function<Name>) -> Result<(), AllocError>
        ensures { OnOk result (HasDone self.old self.new (step self.old.names.now (machine_of self.old)
            (leave_function (function_view Name (λ n. n.0) function.now)))) }
    {
        if is_tuple(&function.parameter) {
            self.take_number()?;
        }
        let number = self.take_number()?;
        self.starts.push(number)?;
        Ok(())
    }

    fn enter_item(&mut self, item: &Item<Name>) -> Result<(), AllocError>
        ensures { OnOk result (HasDone self.old self.new (step self.old.names.now (machine_of self.old)
            (enter_item (item_view Name (λ n. n.0) item.now)))) }
    {
        match &item.node {
            ItemNode::Type(definition) => {
                self.taking = false;
                show_constructors(&mut self.constructors, &definition.constructors)
            }
            ItemNode::Let(_, _) => {
                self.taking = false;
                Ok(())
            }
            ItemNode::LetRec(_, _) => {
                self.taking = true;
                Ok(())
            }
        }
    }

    fn leave_item(&mut self, item: &Item<Name>) -> Result<(), AllocError>
        ensures { OnOk result (HasDone self.old self.new (step self.old.names.now (machine_of self.old)
            (leave_item (item_view Name (λ n. n.0) item.now)))) }
    {
        match &item.node {
            ItemNode::Type(_) => Ok(()),
            ItemNode::Let(pattern, _) => self.let_item(item.place, pattern),
            ItemNode::LetRec(_, function) => self.let_rec_item(item.place, function),
        }
    }

    /// What a visit does.
    pub(crate) fn visit(&mut self, visit: Visit<'a, Name>) -> Result<(), AllocError>
        ensures { OnOk result (HasDone self.old self.new (step self.old.names.now (machine_of self.old)
            (visit_view Name (λ n. n.0) visit.entry))) }
    {
        match visit {
            Visit::EnterItem(item) => self.enter_item(item),
            Visit::LeaveItem(item) => self.leave_item(item),
            Visit::Enter(node) => {
                self.enter(node);
                Ok(())
            }
            Visit::Leave(node) => self.leave(node),
            Visit::LeaveFunction(function) => self.leave_function(function),
            Visit::Declare(pattern) => self.declare(pattern),
            Visit::Show(pattern) => self.show(pattern),
            Visit::Hide(pattern) => self.hide(pattern),
            Visit::ShowName(name) => self.show_name(*name),
            Visit::HideName(_) => {
                self.variables.hide(1);
                Ok(())
            }
        }
    }
}

// The number of the parts of a row.
fn count_parts(parts: &Exprs<Name>) -> usize
    ensures { result ≡ length (listed (trees_view Name (λ n. n.0) parts.now)) }
{
    parts.len()
}

// The source names of the binders of these names, behind the others.
fn push_sources(sources: &mut Vec<Option<Name>>, bindings: &[Binding]) -> Result<(), AllocError>
    ensures { OnOk result (map source_view sources.new.items
        ≡ map source_view sources.old.items ++ sources_of (map binding_name bindings.now)) }
{
    for binding in bindings {
        sources.push(Some(binding.name))?;
    }
    Ok(())
}

// Names become visible with the binders from this one on.
fn show_from(variables: &mut Scope, start: usize, bindings: &[Binding]) -> Result<(), AllocError>
    requires { start < 2 ^ 32 }
    ensures { OnOk result (variables.new ≡ bound_from start (map binding_name bindings.now) variables.old) }
{
    for (at, binding) in bindings.iter().enumerate() {
        variables.show(binding.name, start + at)?;
    }
    Ok(())
}
