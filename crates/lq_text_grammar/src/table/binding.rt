// Bindings and parameters.
ghost use Rattle.std.specs.Prelude.{◌≡◌};
ghost use Rattle.lq_text_grammar.specs.Grammar.{binding_alternatives};
ghost use Rattle.lq_text_grammar.specs.Levels.{way, way_of};

use crate::kind::Kind;
use crate::rule::BindingPart::{
    FunRest, FunTail, LetRest, LetTail, Parameter, ParameterInside, RecBind, RecFirst, RecFun,
    RecFunRest, RecRest, Simple, SimplesInside,
};
use crate::rule::ExpressionPart::Seq;
use crate::rule::{BindingPart, Rule};
use crate::symbol::Action;
use crate::symbol::BlockAction::{Function, Recursive, RecursiveHere};
use crate::symbol::PatternAction::{Any, AppendPattern, Bind, TupleHere, TwoPatterns, UnitPattern};
use crate::symbol::Symbol::{Leave, Make, Part, Word};
use crate::table::Choice;

pub(crate) fn choose(part: BindingPart, next: Option<Kind>) -> Choice
    ensures { way_of result ≡ way next (binding_alternatives part) }
{
    match part {
        RecBind => match next {
            Some(Kind::LowerName) => Choice::Takes(&[
                Make(Action::Named),
                Part(Rule::InBinding(RecFirst)),
            ]),
            _ => Choice::Refuses,
        },
        RecFirst => match next {
            Some(Kind::Equal) => Choice::Takes(&[Part(Rule::InBinding(RecFun))]),
            Some(Kind::LowerName | Kind::Underscore | Kind::Open) => Choice::Passes(&[
                Part(Rule::InBinding(Parameter)),
                Part(Rule::InBinding(RecRest)),
            ]),
            _ => Choice::Refuses,
        },
        RecRest => Choice::Passes(&[
            Part(Rule::InBinding(LetTail)),
            Make(Action::Block(Recursive)),
            Leave,
        ]),
        RecFun => match next {
            Some(Kind::Fun) => Choice::Takes(&[
                Make(Action::Mark),
                Part(Rule::InBinding(Parameter)),
                Part(Rule::InBinding(RecFunRest)),
                Leave,
            ]),
            _ => Choice::Refuses,
        },
        RecFunRest => Choice::Passes(&[
            Part(Rule::InBinding(FunTail)),
            Make(Action::Block(RecursiveHere)),
            Leave,
        ]),
        LetTail => match next {
            Some(Kind::Equal) => Choice::Takes(&[Part(Rule::InExpression(Seq))]),
            Some(Kind::LowerName) => Choice::Takes(&[
                Make(Action::Pattern(Bind)),
                Part(Rule::InBinding(LetRest)),
            ]),
            Some(Kind::Underscore) => Choice::Takes(&[
                Make(Action::Pattern(Any)),
                Part(Rule::InBinding(LetRest)),
            ]),
            Some(Kind::Open) => Choice::Takes(&[
                Make(Action::Mark),
                Part(Rule::InBinding(ParameterInside)),
                Leave,
                Part(Rule::InBinding(LetRest)),
            ]),
            _ => Choice::Refuses,
        },
        LetRest => Choice::Passes(&[
            Part(Rule::InBinding(LetTail)),
            Make(Action::Block(Function)),
            Leave,
        ]),
        FunTail => match next {
            Some(Kind::Arrow) => Choice::Takes(&[Part(Rule::InExpression(Seq))]),
            Some(Kind::LowerName) => Choice::Takes(&[
                Make(Action::Pattern(Bind)),
                Part(Rule::InBinding(FunRest)),
            ]),
            Some(Kind::Underscore) => Choice::Takes(&[
                Make(Action::Pattern(Any)),
                Part(Rule::InBinding(FunRest)),
            ]),
            Some(Kind::Open) => Choice::Takes(&[
                Make(Action::Mark),
                Part(Rule::InBinding(ParameterInside)),
                Leave,
                Part(Rule::InBinding(FunRest)),
            ]),
            _ => Choice::Refuses,
        },
        FunRest => Choice::Passes(&[
            Part(Rule::InBinding(FunTail)),
            Make(Action::Block(Function)),
            Leave,
        ]),
        Parameter => match next {
            Some(Kind::LowerName) => Choice::Takes(&[Make(Action::Pattern(Bind))]),
            Some(Kind::Underscore) => Choice::Takes(&[Make(Action::Pattern(Any))]),
            Some(Kind::Open) => Choice::Takes(&[
                Make(Action::Mark),
                Part(Rule::InBinding(ParameterInside)),
                Leave,
            ]),
            _ => Choice::Refuses,
        },
        ParameterInside => match next {
            Some(Kind::Close) => Choice::Takes(&[Make(Action::Pattern(UnitPattern))]),
            _ => Choice::Passes(&[
                Part(Rule::InBinding(Simple)),
                Word(Kind::Comma),
                Part(Rule::InBinding(Simple)),
                Make(Action::Pattern(TwoPatterns)),
                Part(Rule::InBinding(SimplesInside)),
                Make(Action::Pattern(TupleHere)),
            ]),
        },
        SimplesInside => match next {
            Some(Kind::Close) => Choice::Takes(&[]),
            Some(Kind::Comma) => Choice::Takes(&[
                Part(Rule::InBinding(Simple)),
                Make(Action::Pattern(AppendPattern)),
                Part(Rule::InBinding(SimplesInside)),
            ]),
            _ => Choice::Refuses,
        },
        Simple => match next {
            Some(Kind::LowerName) => Choice::Takes(&[Make(Action::Pattern(Bind))]),
            Some(Kind::Underscore) => Choice::Takes(&[Make(Action::Pattern(Any))]),
            _ => Choice::Refuses,
        },
    }
}
