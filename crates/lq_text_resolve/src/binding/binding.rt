// The nodes that bind names, made of what their parts became.
ghost use Rattle.std.specs.Prelude.{◌≡◌, [], ◌∷◌, ◌++◌, length, reverse, IfOk, OnOk};
ghost use Rattle.lq_base_names.specs.declared.name.Binder.{Binder};
ghost use Rattle.lq_base_names.specs.declared.name.Name.{Name};
ghost use Rattle.lq_text_tree.specs.PatternView.{pat_view};
ghost use Rattle.lq_text_tree.specs.TreeView.{case_view, cases_view, function_view, scoped_view};
ghost use Rattle.lq_text_walk.specs.Walk.Shape.{listed_cases};
ghost use Rattle.lq_text_resolve.specs.Binding.Machine.{arm_with, cases_with, function_left, let_left, let_rec_left, let_item_left, let_rec_item_left, match_left, recursive_in, recursive_left};
ghost use Rattle.lq_text_resolve.specs.Binding.States.{machine_of, HasDone};
ghost use Rattle.lq_text_resolve.specs.Binding.Views.{arms_in, trees_in};

use crate::binding::parameters::{numbered_from, taken_body, taken_parameter};
use crate::binding::patterns::is_tuple;
use crate::binding::resolver::Resolver;
use crate::binding::values::{pop_body, pop_boxed, pop_part, pop_parts, pop_start, pop_starts};
use lq_base_names::{Binder, Name, Place};
use lq_text_tree::{Arm, Arms, Expr, Function, Item, ItemNode, Node, Pat};
use std::alloc::{AllocError, Global};

// An arm, of its first binder and its body, behind the others.
fn push_arm(
    alloc: Global,
    made: &mut Arms<Binder>,
    arm: &Arm<Name>,
    start: u32,
    body: Expr<Binder>,
) -> Result<(), AllocError>
    ensures { OnOk result (arms_in made.new ≡ arms_in made.old
        ++ arm_with (case_view Name (λ n. n.0) arm.now) start (scoped_view body) ∷ []) }
{
    let pattern = numbered_from(alloc, start, &arm.pattern)?;
    let body = Box::new(alloc, body)?;
    made.push(Arm { pattern, body })?;
    Ok(())
}

// The number of the arms of a match.
fn count_arms(arms: &Arms<Name>) -> usize
    ensures { result ≡ length (listed_cases (cases_view Name (λ n. n.0) arms.now)) }
{
    arms.len()
}

// The arms of a match, of their first binders and their bodies, each the last first.
fn arms_with(
    alloc: Global,
    place: Place,
    arms: &Arms<Name>,
    mut starts: Vec<u32>,
    mut bodies: Vec<Expr<Binder>>,
) -> Result<Arms<Binder>, AllocError>
    ensures { IfOk result (λ made. cases_view Binder (λ b. b.0) made
        ≡ cases_with place (listed_cases (cases_view Name (λ n. n.0) arms.now)) (reverse starts.items)
        (reverse (trees_in bodies.items))) }
{
    let mut made = Arms::new(alloc)?;
    for at in 0..arms.len() {
        if let Some(arm) = arms.get(at) {
            let start = pop_start(&mut starts);
            let body = pop_body(&mut bodies, place);
            push_arm(alloc, &mut made, arm, start, body)?;
        }
    }
    Ok(made)
}

impl<'a> Resolver<'a> {
    pub(crate) fn function(&mut self, place: Place, parameter: &Pat<Name>) -> Result<(), AllocError>
        ensures { OnOk result (HasDone self.old self.new (function_left place
            (pat_view Name (λ n. n.0) parameter.now) (machine_of self.old))) }
    {
        let start = pop_start(&mut self.starts);
        let number = self.next;
        if is_tuple(parameter) {
            self.take_number()?;
        }
        let body = taken_body(
            self.alloc,
            &mut self.values,
            place,
            parameter,
            start,
            number,
        )?;
        let taken = taken_parameter(self.alloc, start, parameter)?;
        let taken = Box::new(self.alloc, taken)?;
        self.put(place, Node::Fun(taken, body))
    }

    pub(crate) fn let_in(&mut self, place: Place, pattern: &Pat<Name>) -> Result<(), AllocError>
        ensures { OnOk result (HasDone self.old self.new (let_left place
            (pat_view Name (λ n. n.0) pattern.now) (machine_of self.old))) }
    {
        let start = pop_start(&mut self.starts);
        let body = pop_boxed(self.alloc, &mut self.values, place)?;
        let bound = pop_boxed(self.alloc, &mut self.values, place)?;
        let pattern = numbered_from(self.alloc, start, pattern)?;
        let pattern = Box::new(self.alloc, pattern)?;
        self.put(place, Node::Let(pattern, bound, body))
    }

    // The function of a recursive definition, of the last value and its number, behind the first binder of its parameter.
    pub(crate) fn recursive(
        &mut self,
        function: &Function<Name>,
    ) -> Result<Function<Binder>, AllocError>
        ensures function { IfOk result (λ r. function_view Binder (λ b. b.0) r
            ≡ recursive_in (function_view Name (λ n. n.0) function.now) (machine_of self.old)) }
        ensures left { OnOk result (HasDone self.old self.new (recursive_left
            (function_view Name (λ n. n.0) function.now) (machine_of self.old))) }
    {
        let id = pop_start(&mut self.starts);
        let start = pop_start(&mut self.starts);
        let number = id.saturating_sub(1);
        let place = function.place;
        let parameter = &function.parameter;
        let body = taken_body(
            self.alloc,
            &mut self.values,
            place,
            parameter,
            start,
            number,
        )?;
        let parameter = taken_parameter(self.alloc, start, parameter)?;
        Ok(Function {
            id,
            place,
            parameter,
            body,
        })
    }

    pub(crate) fn let_rec(
        &mut self,
        place: Place,
        function: &Function<Name>,
    ) -> Result<(), AllocError>
        ensures { OnOk result (HasDone self.old self.new (let_rec_left place
            (function_view Name (λ n. n.0) function.now) (machine_of self.old))) }
    {
        let body = pop_boxed(self.alloc, &mut self.values, place)?;
        let recursive = self.recursive(function)?;
        let recursive = Box::new(self.alloc, recursive)?;
        let name = Binder(pop_start(&mut self.starts));
        self.put(place, Node::LetRec(name, recursive, body))
    }

    pub(crate) fn match_on(&mut self, place: Place, arms: &Arms<Name>) -> Result<(), AllocError>
        ensures { OnOk result (HasDone self.old self.new (match_left place
            (listed_cases (cases_view Name (λ n. n.0) arms.now)) (machine_of self.old))) }
    {
        let count = count_arms(arms);
        let bodies = pop_parts(self.alloc, &mut self.values, place, count)?;
        let starts = pop_starts(self.alloc, &mut self.starts, count)?;
        let matched = pop_boxed(self.alloc, &mut self.values, place)?;
        let arms = arms_with(self.alloc, place, arms, starts, bodies)?;
        self.put(place, Node::Match(matched, arms))
    }

    // A definition, of the last value.
    pub(crate) fn let_item(&mut self, place: Place, pattern: &Pat<Name>) -> Result<(), AllocError>
        ensures { OnOk result (HasDone self.old self.new (let_item_left place
            (pat_view Name (λ n. n.0) pattern.now) (machine_of self.old))) }
    {
        let start = pop_start(&mut self.starts);
        let body = pop_part(&mut self.values, place);
        let pattern = numbered_from(self.alloc, start, pattern)?;
        self.items.push(Item {
            place,
            node: ItemNode::Let(pattern, body),
        })?;
        Ok(())
    }

    // A recursive definition, of the last value.
    pub(crate) fn let_rec_item(
        &mut self,
        place: Place,
        function: &Function<Name>,
    ) -> Result<(), AllocError>
        ensures { OnOk result (HasDone self.old self.new (let_rec_item_left place
            (function_view Name (λ n. n.0) function.now) (machine_of self.old))) }
    {
        let recursive = self.recursive(function)?;
        let name = Binder(pop_start(&mut self.starts));
        self.items.push(Item {
            place,
            node: ItemNode::LetRec(name, recursive),
        })?;
        Ok(())
    }
}
