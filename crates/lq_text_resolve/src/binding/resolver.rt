// What is kept while a program is scoped, and the nodes that are made of what their parts became.
ghost use Rattle.std.specs.Prelude.{◌≡◌, IfOk, OnOk};
ghost use Rattle.std.specs.Option.{option_map};
ghost use Rattle.lq_base_names.specs.declared.name.Binder.{Binder};
ghost use Rattle.lq_base_names.specs.declared.name.Name.{Name};
ghost use Rattle.lq_text_tree.specs.TreeView.{form_view, scoped_view};
ghost use Rattle.lq_text_walk.specs.Walk.View.{leaf_view, one_view, two_view, three_view, row_view};
ghost use Rattle.lq_text_walk.specs.Walk.Shape.{build};
ghost use Rattle.lq_text_resolve.specs.Binding.Machine.{leaf_left, one_left, two_left, call_left, three_left, row_left, apart_left, listed_left, numbers_taken, put_in, given_in, primitive_in, use_in};
ghost use Rattle.lq_text_resolve.specs.Binding.Making.{is_one, spreads, takes_more};
ghost use Rattle.lq_text_scope.specs.Known.{arity_in};
ghost use Rattle.lq_text_resolve.specs.Binding.States.{machine_of, HasDone};
ghost use Rattle.lq_text_resolve.specs.Binding.Views.{given_view};

use crate::binding::nodes::{one_node, spread, three_node, two_node};
use crate::binding::primitives::{Given, primitive_in, primitive_named};
use crate::binding::values::{Value, pop, pop_boxed, pop_part, pop_row};
use lq_base_names::{Binder, Name, NameTable, Place};
use lq_text_scope::{Binding, Scope, text_of};
use lq_text_tree::{Arguments, Expr, Exprs, Item, Node};
use lq_text_walk::walk::{Leaf, One, Row, Three, Two};
use std::alloc::{AllocError, Global};

/// What is kept while a program is scoped.
#[derive(Drop)]
pub(crate) struct Resolver<'a> {
    pub(crate) alloc: Global,
    pub(crate) names: &'a NameTable,
    // the visible variables, each with its binder
    pub(crate) variables: Scope,
    // the constructors, each with the number of its fields
    pub(crate) constructors: Scope,
    // the number of the next node
    pub(crate) next: u32,
    // the source name of each binder; one that was made has none
    pub(crate) sources: Vec<Option<Name>>,
    // the first binders of the patterns and names that are open, and the numbers of functions
    pub(crate) starts: Vec<u32>,
    // what the parts of open nodes became
    pub(crate) values: Vec<Value>,
    // whether the next pattern is a parameter
    pub(crate) taking: bool,
    pub(crate) items: Vec<Item<Binder>>,
    // the names of a pattern
    pub(crate) bindings: Vec<Binding>,
}

// Whether this is 1.
fn is_one(count: usize) -> bool
    ensures { result ≡ is_one count }
{
    count == 1
}

impl<'a> Resolver<'a> {
    // The next node has another number than the one that is taken here.
    pub(crate) fn take_number(&mut self) -> Result<u32, AllocError>
        ensures taken { IfOk result (λ n. n ≡ self.old.next) }
        ensures next { OnOk result (HasDone self.old self.new (numbers_taken 1 (machine_of self.old))) }
    {
        let number = self.next;
        match number.checked_add(1) {
            Some(next) => {
                self.next = next;
                Ok(number)
            }
            None => Err(AllocError),
        }
    }

    // A node under the next number.
    pub(crate) fn put(&mut self, place: Place, node: Node<Binder>) -> Result<(), AllocError>
        ensures { OnOk result (HasDone self.old self.new (put_in place (form_view Binder (λ b. b.0) node)
            (machine_of self.old))) }
    {
        let id = self.next;
        match id.checked_add(1) {
            Some(next) => {
                self.next = next;
                self.values.push(Value::Whole(Expr { id, place, node }))?;
                Ok(())
            }
            None => Err(AllocError),
        }
    }

    // A primitive with what it has.
    fn put_given(&mut self, place: Place, given: Given) -> Result<(), AllocError>
        ensures { OnOk result (HasDone self.old self.new (given_in place (given_view given)
            (machine_of self.old))) }
    {
        match given {
            Given::Done(node) => self.put(place, node),
            Given::Lacking(head) => {
                self.values.push(Value::Partly(head))?;
                Ok(())
            }
        }
    }

    // A primitive by its name; other names are none of a program without complaints.
    fn put_primitive(&mut self, place: Place, given: Option<Given>) -> Result<(), AllocError>
        ensures { OnOk result (HasDone self.old self.new (primitive_in place (option_map given_view given)
            (machine_of self.old))) }
    {
        match given {
            Some(given) => self.put_given(place, given),
            None => self.put(place, Node::Unit),
        }
    }

    // A variable.
    fn put_use(&mut self, place: Place, name: Name) -> Result<(), AllocError>
        ensures { OnOk result (HasDone self.old self.new (use_in self.old.names.now place name.0
            (machine_of self.old))) }
    {
        match self.variables.find(name) {
            Some(binder) => match u32::try_from(binder) {
                Ok(number) => self.put(place, Node::Use(Binder(number))),
                Err(_) => Err(AllocError),
            },
            None => {
                let given = primitive_named(text_of(self.names, name));
                self.put_primitive(place, given)
            }
        }
    }

    pub(crate) fn leaf(&mut self, place: Place, leaf: Leaf<Name>) -> Result<(), AllocError>
        ensures { OnOk result (HasDone self.old self.new (leaf_left self.old.names.now place
            (leaf_view Name (λ n. n.0) leaf) (machine_of self.old))) }
    {
        match leaf {
            Leaf::Use(name) => self.put_use(place, name),
            Leaf::Qualified(front, name) => {
                let given = primitive_in(text_of(self.names, front), text_of(self.names, name));
                self.put_primitive(place, given)
            }
            Leaf::Whole(value) => self.put(place, Node::Whole(value)),
            Leaf::Flag(value) => self.put(place, Node::Flag(value)),
            Leaf::Unit => self.put(place, Node::Unit),
            Leaf::AssertFalse => self.put(place, Node::AssertFalse),
            Leaf::MapEmpty => self.put(place, Node::MapEmpty),
        }
    }

    pub(crate) fn one(&mut self, place: Place, head: One) -> Result<(), AllocError>
        ensures { OnOk result (HasDone self.old self.new (one_left place (one_view head)
            (machine_of self.old))) }
    {
        let a = pop_boxed(self.alloc, &mut self.values, place)?;
        self.put(place, one_node(head, a))
    }

    // A call of the last value.
    fn call(&mut self, place: Place, argument: Box<Expr<Binder>>) -> Result<(), AllocError>
        ensures { OnOk result (HasDone self.old self.new (call_left place (scoped_view argument.value)
            (machine_of self.old))) }
    {
        match pop(&mut self.values) {
            Value::Whole(tree) => {
                let function = Box::new(self.alloc, tree)?;
                self.put(place, Node::Call(function, argument))
            }
            Value::Partly(head) => self.put_given(place, head.given(argument)),
        }
    }

    pub(crate) fn two(&mut self, place: Place, head: Two) -> Result<(), AllocError>
        ensures { OnOk result (HasDone self.old self.new (two_left place (two_view head)
            (machine_of self.old))) }
    {
        let b = pop_boxed(self.alloc, &mut self.values, place)?;
        match head {
            Two::Call => self.call(place, b),
            Two::Arith(_)
            | Two::Compare(_)
            | Two::And
            | Two::Or
            | Two::Make
            | Two::Fetch
            | Two::MapFind => {
                let a = pop_boxed(self.alloc, &mut self.values, place)?;
                self.put(place, two_node(head, a, b))
            }
        }
    }

    pub(crate) fn three(&mut self, place: Place, head: Three) -> Result<(), AllocError>
        ensures { OnOk result (HasDone self.old self.new (three_left place (three_view head)
            (machine_of self.old))) }
    {
        let c = pop_boxed(self.alloc, &mut self.values, place)?;
        let b = pop_boxed(self.alloc, &mut self.values, place)?;
        let a = pop_boxed(self.alloc, &mut self.values, place)?;
        self.put(place, three_node(head, a, b, c))
    }

    // A constructor with each part an argument.
    fn build_apart(&mut self, place: Place, name: Name, count: usize) -> Result<(), AllocError>
        ensures { OnOk result (HasDone self.old self.new (apart_left place name.0 count
            (machine_of self.old))) }
    {
        let parts = pop_row(self.alloc, &mut self.values, place, count)?;
        self.put(place, Node::Build(name, Arguments::Apart, parts))
    }

    // A constructor of which each part of a tuple is an argument.
    fn build_listed(&mut self, place: Place, name: Name) -> Result<(), AllocError>
        ensures { OnOk result (HasDone self.old self.new (listed_left place name.0 (machine_of self.old))) }
    {
        match spread(pop_part(&mut self.values, place)) {
            Ok((id, parts)) => {
                self.values.push(Value::Whole(Expr {
                    id,
                    place,
                    node: Node::Build(name, Arguments::Apart, parts),
                }))?;
                Ok(())
            }
            Err(part) => {
                let mut parts = Exprs::new(self.alloc)?;
                parts.push(part)?;
                self.put(place, Node::Build(name, Arguments::Apart, parts))?;
                Ok(())
            }
        }
    }

    // Whether a constructor has two fields or more.
    fn takes_more(&self, name: Name) -> bool
        ensures { result ≡ takes_more (arity_in self.now.constructors name.0) }
    {
        match self.constructors.find(name) {
            Some(wanted) => wanted > 1,
            None => false,
        }
    }

    // Whether each part of a tuple is an argument.
    fn spreads(&self, name: Name, held: Arguments, count: usize) -> bool
        ensures { result ≡ spreads held (takes_more (arity_in self.now.constructors name.0)) count }
    {
        match held {
            Arguments::Apart => false,
            Arguments::Listed => is_one(count) && self.takes_more(name),
        }
    }

    fn build(
        &mut self,
        place: Place,
        name: Name,
        held: Arguments,
        count: usize,
    ) -> Result<(), AllocError>
        ensures { OnOk result (HasDone self.old self.new (row_left place (build name.0 held) count
            (machine_of self.old))) }
    {
        if self.spreads(name, held, count) {
            self.build_listed(place, name)?;
            Ok(())
        } else {
            self.build_apart(place, name, count)?;
            Ok(())
        }
    }

    pub(crate) fn row(&mut self, place: Place, head: Row, count: usize) -> Result<(), AllocError>
        ensures { OnOk result (HasDone self.old self.new (row_left place (row_view head) count
            (machine_of self.old))) }
    {
        match head {
            Row::Build(name, held) => self.build(place, name, held, count),
            Row::Tuple => {
                let parts = pop_row(self.alloc, &mut self.values, place, count)?;
                self.put(place, Node::Tuple(parts))
            }
            Row::ListOf => {
                let parts = pop_row(self.alloc, &mut self.values, place, count)?;
                self.put(place, Node::ListOf(parts))
            }
            Row::Chain => {
                let parts = pop_row(self.alloc, &mut self.values, place, count)?;
                self.put(place, Node::Chain(parts))
            }
        }
    }
}
