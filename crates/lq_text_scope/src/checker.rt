// The pass over a program that finds what is wrong with its names.
ghost use Rattle.std.specs.Prelude.{◌≡◌, [], ◌∷◌, None, IfOk, OnOk};
ghost use Rattle.lq_base_names.specs.declared.name.Name.{Name};
ghost use Rattle.lq_text_tree.specs.PatternView.{pat_view};
ghost use Rattle.lq_text_tree.specs.Texts.{program_view};
ghost use Rattle.lq_text_tree.specs.TreeView.{form_view, parsed_view, trees_view};
ghost use Rattle.lq_text_walk.specs.Walk.Pending.{visit_view};
ghost use Rattle.lq_text_walk.specs.Walk.View.{leaf_view};
ghost use Rattle.lq_text_walk.specs.Walk.Visits.{enter, enter_item, declare, show, hide};
ghost use Rattle.lq_text_tree.specs.Items.{item_view};
ghost use Rattle.lq_text_walk.specs.Walk.Shape.{listed, shape_of};
ghost use Rattle.lq_text_scope.specs.Complaints.{least};
ghost use Rattle.lq_text_scope.specs.Known.{arity_in, predeclared_constructors, predeclared_known, predeclared_types};
ghost use Rattle.lq_text_scope.specs.States.{known_of, open_of, best_of, Adds, HasVisited};
ghost use Rattle.lq_text_scope.specs.Uses.{as_arguments, given_to, of_build, of_leaf, of_program};
ghost use Rattle.lq_text_scope.specs.Views.{found_view};

use crate::binders::{Binding, note_repeated, show_all};
use crate::complaint::{Cause, Complaint, Least};
use crate::datatypes::note_datatype;
use crate::patterns::{note_built, push_binders};
use crate::primitives::{primitive, primitive_in, text_of};
use crate::scope::Scope;
use lq_base_names::{Name, NameTable, Place};
use lq_text_tree::{Arguments, Expr, Exprs, Item, ItemNode, Pat, Program};
use lq_text_walk::walk::{Leaf, Row, Shape, Two, Visit, Walk, shape_of};
use std::alloc::{AllocError, Global};

/// What is known where a walk over a program stands, and what was found before.
#[derive(Drop)]
pub(crate) struct Checker<'a> {
    alloc: Global,
    names: &'a NameTable,
    variables: Scope,
    constructors: Scope,
    types: Scope,
    // the names of the pattern or the definition that is looked at; empty between them
    seen: Scope,
    // the binders of a pattern
    bindings: Vec<Binding>,
    // the arguments that the calls around a node give it
    open: Vec<&'a Expr<Name>>,
    least: Least,
}

/// The constructors that are defined before a text begins, each with the number of its fields.
pub fn first_constructors(alloc: Global) -> Result<Scope, AllocError>
    ensures { IfOk result (λ s. s ≡ predeclared_constructors) }
{
    let mut scope = Scope::new(alloc);
    scope.show(Name::NIL, 0)?;
    scope.show(Name::CONS, 2)?;
    scope.show(Name::NONE, 0)?;
    scope.show(Name::SOME, 1)?;
    Ok(scope)
}

// The types that are defined before a text begins.
fn first_types(alloc: Global) -> Result<Scope, AllocError>
    ensures { IfOk result (λ s. s ≡ predeclared_types) }
{
    let mut scope = Scope::new(alloc);
    scope.show(Name::INT, 0)?;
    scope.show(Name::BOOL, 0)?;
    scope.show(Name::UNIT, 0)?;
    scope.show(Name::ARRAY, 1)?;
    scope.show(Name::LIST, 1)?;
    scope.show(Name::OPTION, 1)?;
    scope.show(Name::MAP, 1)?;
    Ok(scope)
}

// How many arguments one part in parentheses is, where so many are wanted.
fn as_arguments(wanted: usize, part: &Expr<Name>) -> usize
    ensures { result ≡ as_arguments wanted (shape_of (form_view Name (λ n. n.0) part.now.node)) }
{
    match shape_of(&part.node) {
        Shape::Row(Row::Tuple, parts) => { if wanted > 1 { parts.len() } else { 1 } }
        Shape::Row(Row::Build(_, _) | Row::ListOf | Row::Chain, _)
        | Shape::Leaf(_)
        | Shape::One(_, _)
        | Shape::Two(_, _, _)
        | Shape::Three(_, _, _, _)
        | Shape::Fun(_, _)
        | Shape::Let(_, _, _)
        | Shape::LetRec(_, _, _)
        | Shape::Match(_, _) => 1,
    }
}

// How many arguments a constructor is given that wants so many.
fn given_to(wanted: usize, held: Arguments, parts: &Exprs<Name>) -> usize
    ensures { result ≡ given_to wanted held (listed (trees_view Name (λ n. n.0) parts.now)) }
{
    match held {
        Arguments::Apart => parts.len(),
        Arguments::Listed => {
            match parts.get(0) {
                Some(part) => as_arguments(wanted, part),
                None => 0,
            }
        }
    }
}

impl<'a> Checker<'a> {
    fn new(alloc: Global, names: &'a NameTable) -> Result<Checker<'a>, AllocError>
        ensures known { IfOk result (λ c. known_of c ≡ predeclared_known) }
        ensures open { IfOk result (λ c. open_of c ≡ 0) }
        ensures best { IfOk result (λ c. best_of c ≡ None) }
        ensures seen { IfOk result (λ c. c.seen ≡ []) }
        ensures names { IfOk result (λ c. c.names.now ≡ names.now) }
    {
        Ok(Checker {
            alloc,
            names,
            variables: Scope::new(alloc),
            constructors: first_constructors(alloc)?,
            types: first_types(alloc)?,
            seen: Scope::new(alloc),
            bindings: Vec::new(alloc),
            open: Vec::new(alloc),
            least: Least { found: None },
        })
    }

    // A node without parts, before the arguments that it is given are closed.
    fn leaf(&mut self, place: Place, leaf: Leaf<Name>)
        requires { self.old.seen ≡ [] }
        ensures { Adds self.old self.new (of_leaf self.old.names.now place
            (leaf_view Name (λ n. n.0) leaf) (known_of self.old) (open_of self.old)) }
    {
        match leaf {
            Leaf::Use(name) => {
                if !self.variables.has(name) {
                    let wanted = primitive(text_of(self.names, name));
                    let found = self.open.len();
                    self.least
                        .note_count(place, wanted, Cause::Unknown(name), found);
                }
            }
            Leaf::Qualified(front, name) => {
                let wanted = primitive_in(text_of(self.names, front), text_of(self.names, name));
                let found = self.open.len();
                self.least
                    .note_count(place, wanted, Cause::UnknownIn(front, name), found);
            }
            Leaf::Whole(_) | Leaf::Flag(_) | Leaf::Unit | Leaf::AssertFalse | Leaf::MapEmpty => {}
        }
    }

    // A constructor with its arguments.
    fn build(&mut self, place: Place, name: Name, held: Arguments, parts: &Exprs<Name>)
        requires { self.old.seen ≡ [] }
        ensures { Adds self.old self.new (of_build place (arity_in self.old.constructors name.0) name.0
            held (listed (trees_view Name (λ n. n.0) parts.now))) }
    {
        match self.constructors.find(name) {
            None => self.least.note(place, Cause::Unknown(name)),
            Some(wanted) => {
                let found = given_to(wanted, held, parts);
                self.least
                    .note_count(place, Some(wanted), Cause::Unknown(name), found);
            }
        }
    }

    // A node, before its parts.
    fn enter(&mut self, node: &'a Expr<Name>) -> Result<(), AllocError>
        requires { self.old.seen ≡ [] }
        ensures { OnOk result (HasVisited self.old self.new (enter (parsed_view node.now))) }
    {
        match shape_of(&node.node) {
            Shape::Leaf(leaf) => {
                self.leaf(node.place, leaf);
                self.open.clear();
            }
            Shape::Row(Row::Build(name, held), parts) => {
                self.build(node.place, name, held, parts);
                self.open.clear();
            }
            Shape::Two(Two::Call, _, argument) => self.open.push(argument)?,
            Shape::Row(Row::Tuple | Row::ListOf | Row::Chain, _)
            | Shape::Two(
                Two::Arith(_)
                | Two::Compare(_)
                | Two::And
                | Two::Or
                | Two::Make
                | Two::Fetch
                | Two::MapFind,
                _,
                _,
            )
            | Shape::One(_, _)
            | Shape::Three(_, _, _, _)
            | Shape::Fun(_, _)
            | Shape::Let(_, _, _)
            | Shape::LetRec(_, _, _)
            | Shape::Match(_, _) => self.open.clear(),
        }
        Ok(())
    }

    fn declare(&mut self, pattern: &Pat<Name>) -> Result<(), AllocError>
        requires { self.old.seen ≡ [] }
        ensures { OnOk result (HasVisited self.old self.new
            (declare (pat_view Name (λ n. n.0) pattern.now))) }
    {
        note_built(&self.constructors, &mut self.least, pattern);
        self.bindings.clear();
        push_binders(&mut self.bindings, pattern)?;
        note_repeated(&mut self.seen, &mut self.least, &self.bindings)?;
        self.seen.hide(self.bindings.len());
        Ok(())
    }

    fn show(&mut self, pattern: &Pat<Name>) -> Result<(), AllocError>
        requires { self.old.seen ≡ [] }
        ensures { OnOk result (HasVisited self.old self.new (show (pat_view Name (λ n. n.0) pattern.now))) }
    {
        self.bindings.clear();
        push_binders(&mut self.bindings, pattern)?;
        show_all(&mut self.variables, &self.bindings)?;
        Ok(())
    }

    fn hide(&mut self, pattern: &Pat<Name>) -> Result<(), AllocError>
        requires { self.old.seen ≡ [] }
        ensures { OnOk result (HasVisited self.old self.new (hide (pat_view Name (λ n. n.0) pattern.now))) }
    {
        self.bindings.clear();
        push_binders(&mut self.bindings, pattern)?;
        self.variables.hide(self.bindings.len());
        Ok(())
    }

    fn enter_item(&mut self, item: &Item<Name>) -> Result<(), AllocError>
        requires { self.old.seen ≡ [] }
        ensures { OnOk result (HasVisited self.old self.new
            (enter_item (item_view Name (λ n. n.0) item.now))) }
    {
        self.open.clear();
        match &item.node {
            ItemNode::Type(definition) => {
                note_datatype(
                    self.alloc,
                    definition,
                    &mut self.constructors,
                    &mut self.types,
                    &mut self.seen,
                    &mut self.least,
                )?;
                Ok(())
            }
            ItemNode::Let(_, _) | ItemNode::LetRec(_, _) => Ok(()),
        }
    }

    fn visit(&mut self, visit: Visit<'a, Name>) -> Result<(), AllocError>
        requires { self.old.seen ≡ [] }
        ensures { OnOk result (HasVisited self.old self.new (visit_view Name (λ n. n.0) visit.entry)) }
    {
        match visit {
            Visit::EnterItem(item) => self.enter_item(item),
            Visit::Enter(node) => self.enter(node),
            Visit::Declare(pattern) => self.declare(pattern),
            Visit::Show(pattern) => self.show(pattern),
            Visit::Hide(pattern) => self.hide(pattern),
            Visit::ShowName(name) => self.variables.show(*name, 0),
            Visit::HideName(_) => {
                self.variables.hide(1);
                Ok(())
            }
            Visit::LeaveItem(_) | Visit::Leave(_) | Visit::LeaveFunction(_) => Ok(()),
        }
    }
}

/// What is wrong with the names of a program, the first in the order of the text, and of several at one place the one of the
/// lowest code.
pub fn first_complaint(
    alloc: Global,
    program: &Program,
    names: &NameTable,
) -> Result<Option<Complaint>, AllocError>
    ensures { IfOk result (λ found. found_view found
        ≡ least (of_program names.now (program_view program.now))) }
{
    let mut checker = Checker::new(alloc, names)?;
    let mut walk = Walk::of_items(alloc, program.items())?;
    while let Some(visit) = walk.next()? {
        checker.visit(visit)?;
    }
    Ok(checker.least.found)
}
