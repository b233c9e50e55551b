// The values that are still apart, and the nodes of expressions.
ghost use Rattle.std.specs.Prelude.{◌≡◌, ◌≤◌, ◌<◌, ◌+◌, ◌^◌, Some, OnOk, Err, IsSome};
ghost use Rattle.lq_text_actions.specs.Made.{made};
ghost use Rattle.lq_text_actions.specs.Value.{with_node};
ghost use Rattle.lq_text_actions.specs.Making.{making_view, parsed_form};
ghost use Rattle.lq_text_actions.specs.Views.{views, lexeme_view, commas_view};
ghost use Rattle.lq_text_actions.specs.declared.values.MakeError.TheVariants.{Misfit};

use crate::entries::entry;
use crate::items::item;
use crate::patterns::pattern;
use crate::predicates::pred;
use crate::typing::typing;
use crate::values::{Commas, Lexeme, MakeError, Parsed, Value, push};
use lq_base_names::{Name, Place};
use lq_text_grammar::Action;
use lq_text_tree::{Expr, Node};
use std::alloc::Global;

/// What has been made: the values that are still apart, the last one on top, and how many nodes of expressions have a number.
#[derive(Drop)]
pub struct Builder {
    pub(crate) alloc: Global,
    pub(crate) made: u32,
    pub values: Vec<Value>,
}

impl Builder {
    // Puts an expression with the next number on top.
    pub(crate) fn put(
        &mut self,
        place: Place,
        node: Node<Name>,
        commas: Commas,
    ) -> Result<(), MakeError>
        requires { self.old.made + 1 < 2 ^ 32 }
        ensures ok { OnOk result (with_node self.old.made place (parsed_form node) (commas_view commas)
            (views self.old.values.items) ≡ Some (making_view self.new)) }
        ensures never { result ≡ Err Misfit → ⊥ }
        ensures bound { self.new.made ≤ self.old.made + 1 }
    {
        let expr = Expr {
            id: self.made,
            place,
            node,
        };
        let tree = Box::new(self.alloc, expr)?;
        push(
            &mut self.values,
            Value::Expression(Parsed {
                tree,
                place,
                commas,
            }),
        )?;
        self.made += 1;
        Ok(())
    }

    /// Does an action on the token read last and the values on top.
    #[tactic(auto, using(crate::proofs::Shapes::with_values_some, crate::proofs::Shapes::by_name_some))]
    pub(crate) fn make(&mut self, action: Action, token: &Lexeme) -> Result<(), MakeError>
        requires { self.old.made + 2 < 2 ^ 32 }
        ensures ok { OnOk result (made action (lexeme_view token.now) (making_view self.old)
            ≡ Some (making_view self.new)) }
        ensures fits { IsSome (made action (lexeme_view token.now) (making_view self.old))
            → result ≡ Err Misfit → ⊥ }
        ensures bound { self.new.made ≤ self.old.made + 2 }
    {
        match action {
            Action::Mark => push(&mut self.values, Value::Mark(token.place)),
            Action::Named => push(&mut self.values, Value::Named(token.name()?, token.place)),
            Action::Item(a) => item(self.alloc, a, token, &mut self.values),
            Action::Typing(a) => typing(self.alloc, a, token, &mut self.values),
            Action::Pattern(a) => pattern(self.alloc, a, token, &mut self.values),
            Action::Block(a) => self.block(a, token),
            Action::Operand(a) => self.operand(a, token),
            Action::Pred(a) => pred(self.alloc, a, token, &mut self.values),
            Action::Entry(a) => entry(self.alloc, a, token, &mut self.values),
        }
    }
}
