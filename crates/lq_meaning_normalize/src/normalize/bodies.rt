// Functions, lets, and what is settled as an operation.
ghost use Rattle.std.specs.Prelude.{◌≡◌, ◌+◌, IfOk, OnOk};
ghost use Rattle.lq_meaning_normal_tree.specs.BlockView.{binding_view, block_view, lets_view, local_view, recursive_view};
ghost use Rattle.lq_base_names.specs.declared.name.Binder.{Binder};
ghost use Rattle.lq_text_tree.specs.PatternView.{pat_view};
ghost use Rattle.lq_text_tree.specs.TreeView.{function_view, scoped_view};
ghost use Rattle.lq_meaning_normal_form.specs.Outcomes.Naming.{behind, parameter};
ghost use Rattle.lq_text_tree.specs.Tree.{Tree, tree, fun};
ghost use Rattle.lq_meaning_normal_form.specs.Outcomes.Flattening.{let_function};
ghost use Rattle.lq_meaning_normalize.specs.Pass.Forming.{body_under, bound, is_matched, operates_as, settled};
ghost use Rattle.lq_meaning_normalize.specs.Pass.Views.{became, is_there, lets_of, shown};
ghost use Rattle.lq_meaning_normalize.specs.Normalize.Frames.{after_body, after_function, after_under, forms, function_node, recursive_node, under_parameter, MakesWhole};
ghost use Rattle.lq_meaning_normalize.specs.Normalize.Work.{size_of, LeavesLess};

use crate::normalize::frames::{Label, Machine, Next, Parameter, Step};
use crate::normalize::nested::{begin_block, end_block, under};
use crate::pass::{Normal, Pass, matched};
use lq_base_names::Binder;
use lq_meaning_normal_tree::{Binding, Block, Bound, Local, OperationNode, Recursive};
use lq_text_tree::{Expr, Function, Pat};
use std::alloc::AllocError;

fn function_node(label: Label, local: Local, body: Box<Block>) -> Normal
    ensures { shown result ≡ operates_as (tree label.id label.place (fun (local_view local) (block_view body.value))) }
{
    Normal::operation(label.id, label.place, OperationNode::Fun(local, body))
}

// A recursive function of these parts.
pub(crate) fn recursive_of(label: Label, local: Local, body: Box<Block>) -> Recursive
    ensures { recursive_view result ≡ record { id = label.id; place = label.place; parameter = local_view local; body = block_view body.value } }
{
    Recursive {
        id: label.id,
        place: label.place,
        parameter: local,
        body,
    }
}

// The binding of a recursive function.
fn binding_of(label: Label, name: Binder, function: Recursive) -> Binding
    ensures { binding_view result ≡ let_function label.id label.place name.0 (recursive_view function).id
        (recursive_view function).place (recursive_view function).parameter (recursive_view function).body }
{
    Binding {
        id: label.id,
        place: label.place,
        bound: Bound::Function(name, function),
    }
}

// The body of a function is made.
pub(crate) fn body(
    pass: &mut Pass,
    label: Label,
    parameter: Parameter,
    around: Vec<Binding>,
    normal: Normal,
) -> Result<Normal, AllocError>
    ensures { IfOk result (λ n. became pass.new n ≡ after_body label.id label.place (lets_view around.items) parameter
        (became pass.old normal)) }
{
    let local = parameter.local;
    let block = end_block(pass, around, normal);
    let whole = under(pass.alloc, parameter, block)?;
    let boxed = Box::new(pass.alloc, whole)?;
    Ok(function_node(label, local, boxed))
}

// The body of a let whose pattern has parts is made.
pub(crate) fn matched_body(
    pass: &mut Pass,
    local: Local,
    pattern: Pat<Binder>,
    around: Vec<Binding>,
    normal: Normal,
) -> Result<Normal, AllocError>
    ensures { IfOk result (λ n. became pass.new n ≡ after_under (lets_view around.items) local pattern (became pass.old normal)) }
{
    let block = end_block(pass, around, normal);
    let operation = matched(pass.alloc, local, pattern, block)?;
    Ok(Normal::Operation(operation))
}

// What an expression became is an operation, also where it could stand as an operand.
pub(crate) fn settle(pass: &Pass, normal: Normal) -> Normal
    ensures { became pass.now result ≡ settled (became pass.now normal) }
{
    Normal::Operation(normal.into_operation())
}

// A parameter, which is a made name where it is none.
pub(crate) fn parameter(pass: &mut Pass, pattern: &Pat<Binder>) -> Result<Parameter, AllocError>
    ensures local { IfOk result (λ x. local_view x.local ≡ parameter pass.old.next (pat_view Binder (λ b. b.0) pattern.now)) }
    ensures next { OnOk result (pass.new.next ≡ behind pass.old.next (pat_view Binder (λ b. b.0) pattern.now)) }
    ensures under { IfOk result (λ x. (b : Tree) → under_parameter x b
        ≡ body_under pass.old.next (pat_view Binder (λ b. b.0) pattern.now) b) }
    ensures matched { IfOk result (λ x. is_there x.pattern ≡ is_matched (pat_view Binder (λ b. b.0) pattern.now)) }
    ensures lets { OnOk result (lets_of pass.new ≡ lets_of pass.old) }
{
    let (local, pattern) = pass.parameter(pattern)?;
    Ok(Parameter { local, pattern })
}

impl<'a> Machine<'a> {
    // A function: its body is next.
    pub(crate) fn enter_function(
        &mut self,
        label: Label,
        pattern: &Pat<Binder>,
        body: &'a Expr<Binder>,
    ) -> Result<Next<'a>, AllocError>
        ensures whole { IfOk result (λ n. MakesWhole self.old self.new n (function_node label.id label.place (lets_of self.old.pass)
            self.old.pass.next (pat_view Binder (λ b. b.0) pattern.now) (scoped_view body.now))) }
        ensures work { IfOk result (λ n. LeavesLess self.old self.new n (size_of (scoped_view body.now) + 2)) }
    {
        let parameter = parameter(&mut self.pass, pattern)?;
        let around = begin_block(&mut self.pass);
        let next = self.go_on(label, Step::Body(parameter, around), body)?;
        Ok(next)
    }

    // A recursive function: its body is next.
    pub(crate) fn enter_recursive(
        &mut self,
        label: Label,
        name: Binder,
        function: &'a Function<Binder>,
        rest: &'a Expr<Binder>,
    ) -> Result<Next<'a>, AllocError>
        ensures whole { IfOk result (λ n. MakesWhole self.old self.new n (recursive_node label.id label.place (lets_of self.old.pass)
            self.old.pass.next name.0 (function_view Binder (λ b. b.0) function.now) (scoped_view rest.now))) }
        ensures work { IfOk result (λ n. LeavesLess self.old self.new n
            (size_of (function_view Binder (λ b. b.0) function.now).body + (size_of (scoped_view rest.now) + 3))) }
    {
        let parameter = parameter(&mut self.pass, &function.parameter)?;
        let around = begin_block(&mut self.pass);
        let inner = Label {
            id: function.id,
            place: function.place,
        };
        let step = Step::Function(name, inner, parameter, around, rest);
        let next = self.go_on(label, step, &function.body)?;
        Ok(next)
    }

    // The body of a recursive function is made, and what follows is next.
    pub(crate) fn function(
        &mut self,
        label: Label,
        name: Binder,
        inner: Label,
        parameter: Parameter,
        around: Vec<Binding>,
        rest: &'a Expr<Binder>,
        normal: Normal,
    ) -> Result<Next<'a>, AllocError>
        ensures whole { IfOk result (λ n. MakesWhole self.old self.new n (after_function label.id label.place
            (lets_view around.items) name.0 inner parameter (scoped_view rest.now) (became self.old.pass normal))) }
        ensures work { IfOk result (λ n. LeavesLess self.old self.new n (size_of (scoped_view rest.now) + 2)) }
    {
        let local = parameter.local;
        let block = end_block(&mut self.pass, around, normal);
        let whole = under(self.pass.alloc, parameter, block)?;
        let boxed = Box::new(self.pass.alloc, whole)?;
        let function = recursive_of(inner, local, boxed);
        let binding = binding_of(label, name, function);
        self.pass.bindings.push(binding)?;
        let next = self.go_on(label, Step::Settle, rest)?;
        Ok(next)
    }

    // What a let binds is made, and its body is next.
    pub(crate) fn bound(
        &mut self,
        label: Label,
        pattern: &Pat<Binder>,
        body: &'a Expr<Binder>,
        normal: Normal,
    ) -> Result<Next<'a>, AllocError>
        ensures whole { IfOk result (λ n. MakesWhole self.old self.new n (bound label.id label.place
            (pat_view Binder (λ b. b.0) pattern.now) (became self.old.pass normal) (forms (scoped_view body.now)))) }
        ensures work { IfOk result (λ n. LeavesLess self.old self.new n (size_of (scoped_view body.now) + 2)) }
    {
        let value = normal.into_operation();
        let Parameter { local, pattern } = parameter(&mut self.pass, pattern)?;
        self.pass.bind(label.id, label.place, local, value)?;
        match pattern {
            None => {
                let next = self.go_on(label, Step::Settle, body)?;
                Ok(next)
            }
            Some(pattern) => {
                let around = begin_block(&mut self.pass);
                let next = self.go_on(label, Step::Under(local, pattern, around), body)?;
                Ok(next)
            }
        }
    }
}
