// Actions on expressions with keywords.
ghost use Rattle.std.specs.Prelude.{◌≡◌, ◌∷◌, ◌≤◌, ◌<◌, ◌+◌, ◌^◌, map, Some, OnOk, IfOk, Err, IsSome, IfErr};
ghost use Rattle.lq_base_names.specs.declared.name.Name.{Name};
ghost use Rattle.lq_text_tree.specs.Tree.{not_of};
ghost use Rattle.lq_text_tree.specs.TreeView.{case_view, arms_items, parsed_view};
ghost use Rattle.lq_text_actions.specs.Expressions.{with_recursive, block_made, function_of, function_here, recursive_of, recursive_here, let_of_all, let_form, let_rec_of_all, append_arm, match_of, if_of, if_only, two_trees, append_tree, assert_form, of_one, of_row};
ghost use Rattle.lq_text_actions.specs.Value.{arms};
ghost use Rattle.lq_text_actions.specs.Tops.{NoArms};
ghost use Rattle.lq_text_actions.specs.Making.{making_view, parsed_form, is_false, row_form, row_commas};
ghost use Rattle.lq_text_actions.specs.Views.{views, lexeme_view, parsed_pattern};
ghost use Rattle.lq_text_actions.specs.declared.values.MakeError.TheVariants.{Misfit};

use crate::builder::Builder;
use crate::values::{
    Commas, Lexeme, MakeError, Value, pop_expression, pop_mark, pop_named, pop_pattern,
    pop_recursive, pop_row, pop_two, push,
};
use lq_base_names::{Name, Place};
use lq_text_grammar::BlockAction;
use lq_text_tree::{Arm, Arms, Expr, Exprs, Function, Node, Pat, PatNode};
use std::alloc::Global;

fn pop_arms(values: &mut Vec<Value>) -> Result<Arms<Name>, MakeError>
    ensures ok { IfOk result (λ cs. views values.old.items
        ≡ arms (map (case_view Name (λ n. n.0)) (arms_items Name cs)) ∷ views values.new.items) }
    ensures misfit { IfErr result (λ _. NoArms (views values.old.items)) }
{
    match values.pop() {
        Some(Value::Arms(row)) => Ok(row),
        _ => Err(MakeError::Misfit),
    }
}

#[tactic(auto, using(crate::proofs::Shapes::append_arm_shape))]
fn append_arm(values: &mut Vec<Value>) -> Result<(), MakeError>
    ensures ok { OnOk result (append_arm (views values.old.items) ≡ Some (views values.new.items)) }
    ensures fits { IsSome (append_arm (views values.old.items)) → result ≡ Err Misfit → ⊥ }
{
    let body = pop_expression(values)?;
    let pattern = pop_pattern(values)?;
    let mut row = pop_arms(values)?;
    row.push(Arm {
        pattern,
        body: body.tree,
    })?;
    push(values, Value::Arms(row))
}

#[tactic(auto, using(crate::proofs::Shapes::two_trees_shape))]
fn two_trees(alloc: Global, values: &mut Vec<Value>) -> Result<(), MakeError>
    ensures ok { OnOk result (two_trees (views values.old.items) ≡ Some (views values.new.items)) }
    ensures fits { IsSome (two_trees (views values.old.items)) → result ≡ Err Misfit → ⊥ }
{
    let (first, second) = pop_two(values)?;
    let place = first.place;
    let mut row = Exprs::new(alloc)?;
    row.push(Box::into_inner(first.tree))?;
    row.push(Box::into_inner(second.tree))?;
    push(values, Value::Expressions(row, place))
}

#[tactic(auto, using(crate::proofs::Shapes::append_tree_shape))]
fn append_tree(values: &mut Vec<Value>) -> Result<(), MakeError>
    ensures ok { OnOk result (append_tree (views values.old.items) ≡ Some (views values.new.items)) }
    ensures fits { IsSome (append_tree (views values.old.items)) → result ≡ Err Misfit → ⊥ }
{
    let last = pop_expression(values)?;
    let (mut row, place) = pop_row(values)?;
    row.push(Box::into_inner(last.tree))?;
    push(values, Value::Expressions(row, place))
}

// A `let` with a tuple on its left is a match with one arm.
fn let_node(
    alloc: Global,
    pattern: Pat<Name>,
    bound: Box<Expr<Name>>,
    body: Box<Expr<Name>>,
) -> Result<Node<Name>, MakeError>
    ensures ok { IfOk result (λ node. parsed_form node ≡ let_form (parsed_pattern pattern)
        (parsed_view bound.value) (parsed_view body.value)) }
    ensures never { result ≡ Err Misfit → ⊥ }
{
    if let PatNode::Tuple(_) = &pattern.node {
        let mut row = Arms::new(alloc)?;
        row.push(Arm { pattern, body })?;
        Ok(Node::Match(bound, row))
    } else {
        Ok(Node::Let(Box::new(alloc, pattern)?, bound, body))
    }
}

fn is_false(tree: &Expr<Name>) -> bool
    ensures { result ≡ is_false (parsed_view tree.now) }
{
    match &tree.node {
        Node::Flag(value) => !*value,
        Node::Whole(_) => false,
        Node::Unit => false,
        Node::Use(_) => false,
        Node::Qualified(_, _) => false,
        Node::Fun(_, _) => false,
        Node::Tuple(_) => false,
        Node::Build(_, _, _) => false,
        Node::ListOf(_) => false,
        Node::Let(_, _, _) => false,
        Node::LetRec(_, _, _) => false,
        Node::Call(_, _) => false,
        Node::Arith(_, _, _) => false,
        Node::Neg(_) => false,
        Node::Compare(_, _, _) => false,
        Node::Not(_) => false,
        Node::And(_, _) => false,
        Node::Or(_, _) => false,
        Node::If(_, _, _) => false,
        Node::Match(_, _) => false,
        Node::Chain(_) => false,
        Node::Assert(_) => false,
        Node::AssertFalse => false,
        Node::Make(_, _) => false,
        Node::Length(_) => false,
        Node::Fetch(_, _) => false,
        Node::Store(_, _, _) => false,
        Node::Print(_) => false,
        Node::Read(_) => false,
        Node::MapEmpty => false,
        Node::MapAdd(_, _, _) => false,
        Node::MapFind(_, _) => false,
    }
}

#[tactic(auto, using(crate::proofs::Asserts::asserts_false, crate::proofs::Asserts::asserts_other))]
fn assert_node(asserted: Box<Expr<Name>>) -> Node<Name>
    ensures { parsed_form result ≡ assert_form (parsed_view asserted.value) }
{
    if is_false(&asserted) {
        Node::AssertFalse
    } else {
        Node::Assert(asserted)
    }
}

/// What a row of expressions is.
#[derive(Clone, Copy)]
pub(crate) enum Row {
    Chain,
    Tuple,
    List,
}

impl Builder {
    #[tactic(auto, using(crate::proofs::Shapes::function_of_shape))]
    fn function(&mut self) -> Result<(), MakeError>
        requires { self.old.made + 2 < 2 ^ 32 }
        ensures ok { OnOk result (function_of self.old.made (views self.old.values.items)
            ≡ Some (making_view self.new)) }
        ensures fits { IsSome (function_of self.old.made (views self.old.values.items))
            → result ≡ Err Misfit → ⊥ }
        ensures bound { self.new.made ≤ self.old.made + 2 }
    {
        let body = pop_expression(&mut self.values)?;
        let parameter = pop_pattern(&mut self.values)?;
        let place = parameter.place;
        let parameter = Box::new(self.alloc, parameter)?;
        self.put(place, Node::Fun(parameter, body.tree), Commas::Absent)
    }

    #[tactic(auto, using(crate::proofs::Shapes::function_here_shape))]
    fn function_here(&mut self) -> Result<(), MakeError>
        requires { self.old.made + 2 < 2 ^ 32 }
        ensures ok { OnOk result (function_here self.old.made (views self.old.values.items)
            ≡ Some (making_view self.new)) }
        ensures fits { IsSome (function_here self.old.made (views self.old.values.items))
            → result ≡ Err Misfit → ⊥ }
        ensures bound { self.new.made ≤ self.old.made + 2 }
    {
        let body = pop_expression(&mut self.values)?;
        let parameter = pop_pattern(&mut self.values)?;
        let place = pop_mark(&mut self.values)?;
        let parameter = Box::new(self.alloc, parameter)?;
        self.put(place, Node::Fun(parameter, body.tree), Commas::Absent)
    }

    // Puts a function with a name and the next number on top.
    fn put_recursive(
        &mut self,
        name: Name,
        place: Place,
        parameter: Pat<Name>,
        body: Box<Expr<Name>>,
    ) -> Result<(), MakeError>
        requires { self.old.made + 2 < 2 ^ 32 }
        ensures ok { OnOk result (with_recursive self.old.made name.0 place (parsed_pattern parameter)
            (parsed_view body.value) (views self.old.values.items) ≡ Some (making_view self.new)) }
        ensures never { result ≡ Err Misfit → ⊥ }
        ensures bound { self.new.made ≤ self.old.made + 2 }
    {
        let function = Function {
            id: self.made,
            place,
            parameter,
            body,
        };
        push(&mut self.values, Value::Recursive(name, function))?;
        self.made += 1;
        Ok(())
    }

    #[tactic(auto, using(crate::proofs::Shapes::recursive_of_shape))]
    fn recursive(&mut self) -> Result<(), MakeError>
        requires { self.old.made + 2 < 2 ^ 32 }
        ensures ok { OnOk result (recursive_of self.old.made (views self.old.values.items)
            ≡ Some (making_view self.new)) }
        ensures fits { IsSome (recursive_of self.old.made (views self.old.values.items))
            → result ≡ Err Misfit → ⊥ }
        ensures bound { self.new.made ≤ self.old.made + 2 }
    {
        let body = pop_expression(&mut self.values)?;
        let parameter = pop_pattern(&mut self.values)?;
        let (name, _) = pop_named(&mut self.values)?;
        self.put_recursive(name, parameter.place, parameter, body.tree)
    }

    #[tactic(auto, using(crate::proofs::Shapes::recursive_here_shape))]
    fn recursive_here(&mut self) -> Result<(), MakeError>
        requires { self.old.made + 2 < 2 ^ 32 }
        ensures ok { OnOk result (recursive_here self.old.made (views self.old.values.items)
            ≡ Some (making_view self.new)) }
        ensures fits { IsSome (recursive_here self.old.made (views self.old.values.items))
            → result ≡ Err Misfit → ⊥ }
        ensures bound { self.new.made ≤ self.old.made + 2 }
    {
        let body = pop_expression(&mut self.values)?;
        let parameter = pop_pattern(&mut self.values)?;
        let place = pop_mark(&mut self.values)?;
        let (name, _) = pop_named(&mut self.values)?;
        self.put_recursive(name, place, parameter, body.tree)
    }

    #[tactic(auto, using(crate::proofs::Shapes::let_of_all_shape))]
    fn let_in(&mut self) -> Result<(), MakeError>
        requires { self.old.made + 2 < 2 ^ 32 }
        ensures ok { OnOk result (let_of_all self.old.made (views self.old.values.items)
            ≡ Some (making_view self.new)) }
        ensures fits { IsSome (let_of_all self.old.made (views self.old.values.items)) → result ≡ Err Misfit
            → ⊥ }
        ensures bound { self.new.made ≤ self.old.made + 2 }
    {
        let (bound, body) = pop_two(&mut self.values)?;
        let pattern = pop_pattern(&mut self.values)?;
        let place = pop_mark(&mut self.values)?;
        let node = let_node(self.alloc, pattern, bound.tree, body.tree)?;
        self.put(place, node, Commas::Absent)
    }

    #[tactic(auto, using(crate::proofs::Shapes::let_rec_of_all_shape))]
    fn let_rec_in(&mut self) -> Result<(), MakeError>
        requires { self.old.made + 2 < 2 ^ 32 }
        ensures ok { OnOk result (let_rec_of_all self.old.made (views self.old.values.items)
            ≡ Some (making_view self.new)) }
        ensures fits { IsSome (let_rec_of_all self.old.made (views self.old.values.items))
            → result ≡ Err Misfit → ⊥ }
        ensures bound { self.new.made ≤ self.old.made + 2 }
    {
        let body = pop_expression(&mut self.values)?;
        let (name, function) = pop_recursive(&mut self.values)?;
        let place = pop_mark(&mut self.values)?;
        let function = Box::new(self.alloc, function)?;
        self.put(
            place,
            Node::LetRec(name, function, body.tree),
            Commas::Absent,
        )
    }

    #[tactic(auto, using(crate::proofs::Shapes::match_of_shape))]
    fn match_of(&mut self) -> Result<(), MakeError>
        requires { self.old.made + 2 < 2 ^ 32 }
        ensures ok { OnOk result (match_of self.old.made (views self.old.values.items)
            ≡ Some (making_view self.new)) }
        ensures fits { IsSome (match_of self.old.made (views self.old.values.items)) → result ≡ Err Misfit
            → ⊥ }
        ensures bound { self.new.made ≤ self.old.made + 2 }
    {
        let row = pop_arms(&mut self.values)?;
        let matched = pop_expression(&mut self.values)?;
        let place = pop_mark(&mut self.values)?;
        self.put(place, Node::Match(matched.tree, row), Commas::Absent)
    }

    #[tactic(auto, using(crate::proofs::Shapes::if_of_shape))]
    fn if_else(&mut self) -> Result<(), MakeError>
        requires { self.old.made + 2 < 2 ^ 32 }
        ensures ok { OnOk result (if_of self.old.made (views self.old.values.items)
            ≡ Some (making_view self.new)) }
        ensures fits { IsSome (if_of self.old.made (views self.old.values.items)) → result ≡ Err Misfit → ⊥ }
        ensures bound { self.new.made ≤ self.old.made + 2 }
    {
        let (yes, no) = pop_two(&mut self.values)?;
        let test = pop_expression(&mut self.values)?;
        let place = pop_mark(&mut self.values)?;
        self.put(
            place,
            Node::If(test.tree, yes.tree, no.tree),
            Commas::Absent,
        )
    }

    // Without an `else` there is `()`, a node of its own.
    #[tactic(auto, using(crate::proofs::Shapes::if_only_shape))]
    fn if_only(&mut self) -> Result<(), MakeError>
        requires { self.old.made + 2 < 2 ^ 32 }
        ensures ok { OnOk result (if_only self.old.made (views self.old.values.items)
            ≡ Some (making_view self.new)) }
        ensures fits { IsSome (if_only self.old.made (views self.old.values.items)) → result ≡ Err Misfit
            → ⊥ }
        ensures bound { self.new.made ≤ self.old.made + 2 }
    {
        let (test, yes) = pop_two(&mut self.values)?;
        let place = pop_mark(&mut self.values)?;
        let unit = Expr {
            id: self.made,
            place,
            node: Node::Unit,
        };
        let no = Box::new(self.alloc, unit)?;
        self.made += 1;
        self.put(place, Node::If(test.tree, yes.tree, no), Commas::Absent)
    }

    #[tactic(auto, using(crate::proofs::Shapes::of_one_shape))]
    fn asserted(&mut self) -> Result<(), MakeError>
        requires { self.old.made + 2 < 2 ^ 32 }
        ensures ok { OnOk result (of_one assert_form self.old.made (views self.old.values.items)
            ≡ Some (making_view self.new)) }
        ensures fits { IsSome (of_one assert_form self.old.made (views self.old.values.items))
            → result ≡ Err Misfit → ⊥ }
        ensures bound { self.new.made ≤ self.old.made + 2 }
    {
        let asserted = pop_expression(&mut self.values)?;
        let place = pop_mark(&mut self.values)?;
        self.put(place, assert_node(asserted.tree), Commas::Absent)
    }

    #[tactic(auto, using(crate::proofs::Shapes::of_one_shape))]
    fn negation(&mut self) -> Result<(), MakeError>
        requires { self.old.made + 2 < 2 ^ 32 }
        ensures ok { OnOk result (of_one not_of self.old.made (views self.old.values.items)
            ≡ Some (making_view self.new)) }
        ensures fits { IsSome (of_one not_of self.old.made (views self.old.values.items))
            → result ≡ Err Misfit → ⊥ }
        ensures bound { self.new.made ≤ self.old.made + 2 }
    {
        let inner = pop_expression(&mut self.values)?;
        let place = pop_mark(&mut self.values)?;
        self.put(place, Node::Not(inner.tree), Commas::Absent)
    }

    #[tactic(auto, using(crate::proofs::Shapes::of_row_shape))]
    fn row(&mut self, form: Row) -> Result<(), MakeError>
        requires { self.old.made + 2 < 2 ^ 32 }
        ensures ok { OnOk result (of_row (row_form form) (row_commas form) self.old.made
            (views self.old.values.items) ≡ Some (making_view self.new)) }
        ensures fits { IsSome (of_row (row_form form) (row_commas form) self.old.made
            (views self.old.values.items)) → result ≡ Err Misfit → ⊥ }
        ensures bound { self.new.made ≤ self.old.made + 2 }
    {
        let (row, place) = pop_row(&mut self.values)?;
        match form {
            Row::Chain => self.put(place, Node::Chain(row), Commas::Absent),
            Row::Tuple => self.put(place, Node::Tuple(row), Commas::Bare),
            Row::List => self.put(place, Node::ListOf(row), Commas::Absent),
        }
    }

    /// Does an action on the token read last and the values on top.
    pub(crate) fn block(&mut self, action: BlockAction, token: &Lexeme) -> Result<(), MakeError>
        requires { self.old.made + 2 < 2 ^ 32 }
        ensures ok { OnOk result (block_made action (lexeme_view token.now) self.old.made
            (views self.old.values.items) ≡ Some (making_view self.new)) }
        ensures fits { IsSome (block_made action (lexeme_view token.now) self.old.made
            (views self.old.values.items)) → result ≡ Err Misfit → ⊥ }
        ensures bound { self.new.made ≤ self.old.made + 2 }
    {
        match action {
            BlockAction::Function => self.function(),
            BlockAction::FunctionHere => self.function_here(),
            BlockAction::Recursive => self.recursive(),
            BlockAction::RecursiveHere => self.recursive_here(),
            BlockAction::LetIn => self.let_in(),
            BlockAction::LetRecIn => self.let_rec_in(),
            BlockAction::NoArms => {
                let none = Arms::new(self.alloc)?;
                push(&mut self.values, Value::Arms(none))
            }
            BlockAction::AppendArm => append_arm(&mut self.values),
            BlockAction::MatchOf => self.match_of(),
            BlockAction::IfElse => self.if_else(),
            BlockAction::IfOnly => self.if_only(),
            BlockAction::AssertOf => self.asserted(),
            BlockAction::NotOf => self.negation(),
            BlockAction::ChainOf => self.row(Row::Chain),
            BlockAction::TupleOf => self.row(Row::Tuple),
            BlockAction::ListLiteral => self.row(Row::List),
            BlockAction::NoTrees => {
                let none = Exprs::new(self.alloc)?;
                push(&mut self.values, Value::Expressions(none, token.place))
            }
            BlockAction::TwoTrees => two_trees(self.alloc, &mut self.values),
            BlockAction::AppendTree => append_tree(&mut self.values),
        }
    }
}
