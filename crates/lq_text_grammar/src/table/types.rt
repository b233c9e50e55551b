// Types.
ghost use Rattle.std.specs.Prelude.{◌≡◌};
ghost use Rattle.lq_text_grammar.specs.Grammar.{type_alternatives};
ghost use Rattle.lq_text_grammar.specs.Levels.{way, way_of};

use crate::kind::Kind;
use crate::rule::TypePart::{
    ArrowMore, ProductMore, ProductTail, TypeApplied, TypeNames, TypeProduct, TypesInside,
    TypesMore, WholeType,
};
use crate::rule::{Rule, TypePart};
use crate::symbol::Action;
use crate::symbol::Symbol::{Leave, Make, Part, Word};
use crate::symbol::TypingAction::{
    AppendType, ApplyType, ApplyTypes, ArrowType, NamedType, ProductType, TwoTypes, TypeInside,
    VariableType,
};
use crate::table::Choice;

pub(crate) fn choose(part: TypePart, next: Option<Kind>) -> Choice
    ensures { way_of result ≡ way next (type_alternatives part) }
{
    match part {
        WholeType => Choice::Passes(&[
            Part(Rule::InType(TypeProduct)),
            Part(Rule::InType(ArrowMore)),
        ]),
        ArrowMore => match next {
            Some(Kind::Arrow) => Choice::Takes(&[
                Part(Rule::InType(WholeType)),
                Make(Action::Typing(ArrowType)),
                Leave,
            ]),
            _ => Choice::Passes(&[]),
        },
        TypeProduct => Choice::Passes(&[
            Part(Rule::InType(TypeApplied)),
            Part(Rule::InType(ProductTail)),
        ]),
        ProductTail => match next {
            Some(Kind::Star) => Choice::Takes(&[
                Part(Rule::InType(TypeApplied)),
                Make(Action::Typing(TwoTypes)),
                Part(Rule::InType(ProductMore)),
                Make(Action::Typing(ProductType)),
            ]),
            _ => Choice::Passes(&[]),
        },
        ProductMore => match next {
            Some(Kind::Star) => Choice::Takes(&[
                Part(Rule::InType(TypeApplied)),
                Make(Action::Typing(AppendType)),
                Part(Rule::InType(ProductMore)),
            ]),
            _ => Choice::Passes(&[]),
        },
        TypeApplied => match next {
            Some(Kind::TypeVariable) => Choice::Takes(&[
                Make(Action::Typing(VariableType)),
                Part(Rule::InType(TypeNames)),
            ]),
            Some(Kind::LowerName) => Choice::Takes(&[
                Make(Action::Typing(NamedType)),
                Part(Rule::InType(TypeNames)),
            ]),
            Some(Kind::Open) => Choice::Takes(&[
                Make(Action::Mark),
                Part(Rule::InType(WholeType)),
                Part(Rule::InType(TypesInside)),
                Leave,
                Part(Rule::InType(TypeNames)),
            ]),
            _ => Choice::Refuses,
        },
        TypeNames => match next {
            Some(Kind::LowerName) => Choice::Takes(&[
                Make(Action::Typing(ApplyType)),
                Part(Rule::InType(TypeNames)),
                Leave,
            ]),
            _ => Choice::Passes(&[]),
        },
        TypesInside => match next {
            Some(Kind::Close) => Choice::Takes(&[Make(Action::Typing(TypeInside))]),
            Some(Kind::Comma) => Choice::Takes(&[
                Part(Rule::InType(WholeType)),
                Make(Action::Typing(TwoTypes)),
                Part(Rule::InType(TypesMore)),
            ]),
            _ => Choice::Refuses,
        },
        TypesMore => match next {
            Some(Kind::Close) => Choice::Takes(&[
                Word(Kind::LowerName),
                Make(Action::Typing(ApplyTypes)),
                Part(Rule::InType(TypeNames)),
            ]),
            Some(Kind::Comma) => Choice::Takes(&[
                Part(Rule::InType(WholeType)),
                Make(Action::Typing(AppendType)),
                Part(Rule::InType(TypesMore)),
            ]),
            _ => Choice::Refuses,
        },
    }
}
