// Actions on operands.
ghost use Rattle.std.specs.Prelude.{◌≡◌, [], ◌∷◌, ◌≤◌, ◌<◌, ◌+◌, ◌^◌, Some, OnOk, IfOk, Err, IsSome, IfErr};
ghost use Rattle.lq_text_actions.specs.Expressions.{literal, negative_literal, of_name, at_mark, of_one, of_two, operand_made, enclose, in_parentheses, element_of, fetch_of, store_of, build_one, arguments};
ghost use Rattle.lq_text_actions.specs.Patterns.{cons_name};
ghost use Rattle.lq_text_actions.specs.Value.{absent, element};
ghost use Rattle.lq_text_tree.specs.Tree.{build, negated, qualified, unit};
ghost use Rattle.lq_text_tree.specs.TreeView.{parsed_view, trees_of};
ghost use Rattle.lq_text_tree.specs.declared.expr.Arguments.TheVariants.{Apart};
ghost use Rattle.lq_text_actions.specs.Tops.{NoElement};
ghost use Rattle.lq_text_actions.specs.Making.{making_view, parsed_form, two_form};
ghost use Rattle.lq_text_actions.specs.Views.{views, lexeme_view, commas_view};
ghost use Rattle.lq_text_actions.specs.declared.values.MakeError.TheVariants.{Misfit};

use crate::builder::Builder;
use crate::numbers::{below_limit, up_to_limit};
use crate::values::{
    Commas, Lexeme, MakeError, Parsed, Value, pop_expression, pop_mark, pop_named, pop_two, push,
};
use lq_base_names::{ArithOp, CompareOp, Name, Place};
use lq_text_grammar::OperandAction;
use lq_text_tree::{Arguments, Expr, Exprs, Node};

type BoxedExpr = Box<Expr<Name>>;

fn arguments(commas: Commas) -> Arguments
    ensures { result ≡ arguments (commas_view commas) }
{
    match commas {
        Commas::Bare | Commas::Absent => Arguments::Apart,
        Commas::Enclosed => Arguments::Listed,
    }
}

// Parentheses around the expression on top.
#[tactic(auto, using(crate::proofs::Shapes::enclose_shape))]
fn enclose(values: &mut Vec<Value>) -> Result<(), MakeError>
    ensures ok { OnOk result (enclose in_parentheses (views values.old.items)
        ≡ Some (views values.new.items)) }
    ensures fits { IsSome (enclose in_parentheses (views values.old.items)) → result ≡ Err Misfit → ⊥ }
{
    let inner = pop_expression(values)?;
    let place = pop_mark(values)?;
    let commas = match inner.commas {
        Commas::Bare => Commas::Enclosed,
        Commas::Enclosed | Commas::Absent => Commas::Absent,
    };
    let tree = inner.tree;
    push(
        values,
        Value::Expression(Parsed {
            tree,
            place,
            commas,
        }),
    )
}

// `begin` and `end` around the expression on top.
#[tactic(auto, using(crate::proofs::Shapes::enclose_shape))]
fn enclose_block(values: &mut Vec<Value>) -> Result<(), MakeError>
    ensures ok { OnOk result (enclose (λ c. absent) (views values.old.items)
        ≡ Some (views values.new.items)) }
    ensures fits { IsSome (enclose (λ c. absent) (views values.old.items)) → result ≡ Err Misfit → ⊥ }
{
    let inner = pop_expression(values)?;
    let place = pop_mark(values)?;
    push(
        values,
        Value::Expression(Parsed {
            tree: inner.tree,
            place,
            commas: Commas::Absent,
        }),
    )
}

#[tactic(auto, using(crate::proofs::Shapes::element_of_shape))]
fn element(values: &mut Vec<Value>) -> Result<(), MakeError>
    ensures ok { OnOk result (element_of (views values.old.items) ≡ Some (views values.new.items)) }
    ensures fits { IsSome (element_of (views values.old.items)) → result ≡ Err Misfit → ⊥ }
{
    let (array, index) = pop_two(values)?;
    push(values, Value::Element(array.tree, index.tree, array.place))
}

fn pop_element(values: &mut Vec<Value>) -> Result<(BoxedExpr, BoxedExpr, Place), MakeError>
    ensures ok { IfOk result (λ e. views values.old.items ≡ element (parsed_view e.0.value)
        (parsed_view e.1.value) e.2 ∷ views values.new.items) }
    ensures misfit { IfErr result (λ _. NoElement (views values.old.items)) }
{
    match values.pop() {
        Some(Value::Element(array, index, place)) => Ok((array, index, place)),
        _ => Err(MakeError::Misfit),
    }
}

/// What stands between two expressions; between a function and its argument stands nothing.
#[derive(Clone, Copy)]
pub(crate) enum Two {
    Call,
    And,
    Or,
    Arith(ArithOp),
    Compare(CompareOp),
}

fn two_node(form: Two, first: BoxedExpr, second: BoxedExpr) -> Node<Name>
    ensures { parsed_form result ≡ two_form form (parsed_view first.value) (parsed_view second.value) }
{
    match form {
        Two::Call => Node::Call(first, second),
        Two::And => Node::And(first, second),
        Two::Or => Node::Or(first, second),
        Two::Arith(operation) => Node::Arith(operation, first, second),
        Two::Compare(operation) => Node::Compare(operation, first, second),
    }
}

impl Builder {
    #[tactic(auto, using(crate::proofs::Shapes::build_one_shape))]
    fn build(&mut self) -> Result<(), MakeError>
        requires { self.old.made + 2 < 2 ^ 32 }
        ensures ok { OnOk result (build_one self.old.made (views self.old.values.items)
            ≡ Some (making_view self.new)) }
        ensures fits { IsSome (build_one self.old.made (views self.old.values.items)) → result ≡ Err Misfit
            → ⊥ }
        ensures bound { self.new.made ≤ self.old.made + 2 }
    {
        let argument = pop_expression(&mut self.values)?;
        let (name, place) = pop_named(&mut self.values)?;
        let held = arguments(argument.commas);
        let mut row = Exprs::new(self.alloc)?;
        row.push(Box::into_inner(argument.tree))?;
        self.put(place, Node::Build(name, held, row), Commas::Absent)
    }

    #[tactic(auto, using(crate::proofs::Shapes::of_name_shape))]
    fn constant(&mut self) -> Result<(), MakeError>
        requires { self.old.made + 2 < 2 ^ 32 }
        ensures ok { OnOk result (of_name (λ c. build c Apart (trees_of [])) self.old.made
            (views self.old.values.items) ≡ Some (making_view self.new)) }
        ensures fits { IsSome (of_name (λ c. build c Apart (trees_of [])) self.old.made
            (views self.old.values.items)) → result ≡ Err Misfit → ⊥ }
        ensures bound { self.new.made ≤ self.old.made + 2 }
    {
        let (name, place) = pop_named(&mut self.values)?;
        let none = Exprs::new(self.alloc)?;
        let node = Node::Build(name, Arguments::Apart, none);
        self.put(place, node, Commas::Absent)
    }

    #[tactic(auto, using(crate::proofs::Shapes::of_two_shape))]
    fn cons(&mut self) -> Result<(), MakeError>
        requires { self.old.made + 2 < 2 ^ 32 }
        ensures ok { OnOk result (of_two (λ a b. build cons_name Apart
            (trees_of (a ∷ b ∷ []))) self.old.made (views self.old.values.items)
            ≡ Some (making_view self.new)) }
        ensures fits { IsSome (of_two (λ a b. build cons_name Apart (trees_of (a ∷ b ∷ []))) self.old.made
            (views self.old.values.items)) → result ≡ Err Misfit → ⊥ }
        ensures bound { self.new.made ≤ self.old.made + 2 }
    {
        let (first, second) = pop_two(&mut self.values)?;
        let place = first.place;
        let mut row = Exprs::new(self.alloc)?;
        row.push(Box::into_inner(first.tree))?;
        row.push(Box::into_inner(second.tree))?;
        let node = Node::Build(Name::CONS, Arguments::Apart, row);
        self.put(place, node, Commas::Absent)
    }

    #[tactic(auto, using(crate::proofs::Shapes::fetch_of_shape))]
    fn fetch(&mut self) -> Result<(), MakeError>
        requires { self.old.made + 2 < 2 ^ 32 }
        ensures ok { OnOk result (fetch_of self.old.made (views self.old.values.items)
            ≡ Some (making_view self.new)) }
        ensures fits { IsSome (fetch_of self.old.made (views self.old.values.items)) → result ≡ Err Misfit
            → ⊥ }
        ensures bound { self.new.made ≤ self.old.made + 2 }
    {
        let (array, index, place) = pop_element(&mut self.values)?;
        self.put(place, Node::Fetch(array, index), Commas::Absent)
    }

    #[tactic(auto, using(crate::proofs::Shapes::store_of_shape))]
    fn store(&mut self) -> Result<(), MakeError>
        requires { self.old.made + 2 < 2 ^ 32 }
        ensures ok { OnOk result (store_of self.old.made (views self.old.values.items)
            ≡ Some (making_view self.new)) }
        ensures fits { IsSome (store_of self.old.made (views self.old.values.items)) → result ≡ Err Misfit
            → ⊥ }
        ensures bound { self.new.made ≤ self.old.made + 2 }
    {
        let value = pop_expression(&mut self.values)?;
        let (array, index, place) = pop_element(&mut self.values)?;
        let node = Node::Store(array, index, value.tree);
        self.put(place, node, Commas::Absent)
    }

    #[tactic(auto, using(crate::proofs::Shapes::literal_below))]
    fn literal(&mut self, value: u128, place: Place) -> Result<(), MakeError>
        requires { self.old.made + 2 < 2 ^ 32 }
        ensures ok { OnOk result (literal self.old.made value (views self.old.values.items) place
            ≡ Some (making_view self.new)) }
        ensures fits { IsSome (literal self.old.made value (views self.old.values.items) place)
            → result ≡ Err Misfit → ⊥ }
        ensures bound { self.new.made ≤ self.old.made + 2 }
    {
        let value = below_limit(value)?;
        self.put(place, Node::Whole(value), Commas::Absent)
    }

    #[tactic(auto, using(crate::proofs::Shapes::negative_literal_shape))]
    fn negative(&mut self, value: u128) -> Result<(), MakeError>
        requires { self.old.made + 2 < 2 ^ 32 }
        ensures ok { OnOk result (negative_literal self.old.made value (views self.old.values.items)
            ≡ Some (making_view self.new)) }
        ensures fits { IsSome (negative_literal self.old.made value (views self.old.values.items))
            → result ≡ Err Misfit → ⊥ }
        ensures bound { self.new.made ≤ self.old.made + 2 }
    {
        let place = pop_mark(&mut self.values)?;
        let value = up_to_limit(value)?;
        self.put(place, Node::Whole(value), Commas::Absent)
    }

    #[tactic(auto, using(crate::proofs::Shapes::of_name_shape))]
    fn qualified(&mut self, name: Name) -> Result<(), MakeError>
        requires { self.old.made + 2 < 2 ^ 32 }
        ensures ok { OnOk result (of_name (λ m. qualified m name.0) self.old.made
            (views self.old.values.items) ≡ Some (making_view self.new)) }
        ensures fits { IsSome (of_name (λ m. qualified m name.0) self.old.made
            (views self.old.values.items)) → result ≡ Err Misfit → ⊥ }
        ensures bound { self.new.made ≤ self.old.made + 2 }
    {
        let (module, place) = pop_named(&mut self.values)?;
        self.put(place, Node::Qualified(module, name), Commas::Absent)
    }

    #[tactic(auto, using(crate::proofs::Shapes::at_mark_shape))]
    fn unit(&mut self) -> Result<(), MakeError>
        requires { self.old.made + 2 < 2 ^ 32 }
        ensures ok { OnOk result (at_mark unit self.old.made (views self.old.values.items)
            ≡ Some (making_view self.new)) }
        ensures fits { IsSome (at_mark unit self.old.made (views self.old.values.items))
            → result ≡ Err Misfit → ⊥ }
        ensures bound { self.new.made ≤ self.old.made + 2 }
    {
        let place = pop_mark(&mut self.values)?;
        self.put(place, Node::Unit, Commas::Absent)
    }

    #[tactic(auto, using(crate::proofs::Shapes::of_one_shape))]
    fn negate(&mut self) -> Result<(), MakeError>
        requires { self.old.made + 2 < 2 ^ 32 }
        ensures ok { OnOk result (of_one negated self.old.made (views self.old.values.items)
            ≡ Some (making_view self.new)) }
        ensures fits { IsSome (of_one negated self.old.made (views self.old.values.items))
            → result ≡ Err Misfit → ⊥ }
        ensures bound { self.new.made ≤ self.old.made + 2 }
    {
        let inner = pop_expression(&mut self.values)?;
        let place = pop_mark(&mut self.values)?;
        self.put(place, Node::Neg(inner.tree), Commas::Absent)
    }

    #[tactic(auto, using(crate::proofs::Shapes::of_two_shape))]
    fn two(&mut self, form: Two) -> Result<(), MakeError>
        requires { self.old.made + 2 < 2 ^ 32 }
        ensures ok { OnOk result (of_two (two_form form) self.old.made (views self.old.values.items)
            ≡ Some (making_view self.new)) }
        ensures fits { IsSome (of_two (two_form form) self.old.made (views self.old.values.items))
            → result ≡ Err Misfit → ⊥ }
        ensures bound { self.new.made ≤ self.old.made + 2 }
    {
        let (first, second) = pop_two(&mut self.values)?;
        let place = first.place;
        let node = two_node(form, first.tree, second.tree);
        self.put(place, node, Commas::Absent)
    }

    /// Does an action on the token read last and the values on top.
    #[tactic(auto, using(crate::proofs::Shapes::by_name_some, crate::proofs::Shapes::by_number_some))]
    pub(crate) fn operand(&mut self, action: OperandAction, token: &Lexeme) -> Result<(), MakeError>
        requires { self.old.made + 2 < 2 ^ 32 }
        ensures ok { OnOk result (operand_made action (lexeme_view token.now) self.old.made
            (views self.old.values.items) ≡ Some (making_view self.new)) }
        ensures fits { IsSome (operand_made action (lexeme_view token.now) self.old.made
            (views self.old.values.items)) → result ≡ Err Misfit → ⊥ }
        ensures bound { self.new.made ≤ self.old.made + 2 }
    {
        match action {
            OperandAction::Literal => self.literal(token.number()?, token.place),
            OperandAction::NegativeLiteral => self.negative(token.number()?),
            OperandAction::Truth => self.put(token.place, Node::Flag(true), Commas::Absent),
            OperandAction::Untruth => self.put(token.place, Node::Flag(false), Commas::Absent),
            OperandAction::UseOf => {
                self.put(token.place, Node::Use(token.name()?), Commas::Absent)
            }
            OperandAction::QualifiedOf => self.qualified(token.name()?),
            OperandAction::ConstantOf => self.constant(),
            OperandAction::BuildOf => self.build(),
            OperandAction::UnitHere => self.unit(),
            OperandAction::Enclosed => enclose(&mut self.values),
            OperandAction::BlockOf => enclose_block(&mut self.values),
            OperandAction::ElementOf => element(&mut self.values),
            OperandAction::FetchOf => self.fetch(),
            OperandAction::StoreOf => self.store(),
            OperandAction::CallOf => self.two(Two::Call),
            OperandAction::NegateOf => self.negate(),
            OperandAction::ConsOf => self.cons(),
            OperandAction::AndOf => self.two(Two::And),
            OperandAction::OrOf => self.two(Two::Or),
            OperandAction::ArithOf(operation) => self.two(Two::Arith(operation)),
            OperandAction::CompareOf(operation) => self.two(Two::Compare(operation)),
        }
    }
}
