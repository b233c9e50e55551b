// Programs.
ghost use Rattle.std.specs.Prelude.{◌≡◌};
ghost use Rattle.lq_text_grammar.specs.Grammar.{program_alternatives};
ghost use Rattle.lq_text_grammar.specs.Levels.{way, way_of};

use crate::kind::Kind;
use crate::rule::BindingPart::{LetTail, RecBind};
use crate::rule::ExpressionPart::Seq;
use crate::rule::ProgramPart::{
    AfterItem, Constructor, ConstructorFields, ConstructorsMore, FieldsMore, FirstConstructor,
    Item, Items, LetItem, Program, TypeBody, TypeHead, TypeParameters,
};
use crate::rule::TypePart::TypeApplied;
use crate::rule::{ProgramPart, Rule};
use crate::symbol::Action;
use crate::symbol::ItemAction::{
    AddConstructor, AddLet, AddParameter, AddRec, AddType, FirstParameter, NoConstructors, NoItems,
    NoParameters,
};
use crate::symbol::PatternAction::{Any, Bind, UnitPattern};
use crate::symbol::Symbol::{Leave, Make, Part, Word};
use crate::symbol::TypingAction::{AppendType, NoTypes};
use crate::table::Choice;

pub(crate) fn choose(part: ProgramPart, next: Option<Kind>) -> Choice
    ensures { way_of result ≡ way next (program_alternatives part) }
{
    match part {
        Program => Choice::Passes(&[Make(Action::Item(NoItems)), Part(Rule::InProgram(Items))]),
        Items => match next {
            Some(Kind::Type | Kind::Let) => Choice::Passes(&[
                Part(Rule::InProgram(Item)),
                Part(Rule::InProgram(AfterItem)),
            ]),
            _ => Choice::Passes(&[]),
        },
        AfterItem => match next {
            Some(Kind::DoubleSemicolon) => Choice::Takes(&[Part(Rule::InProgram(Items))]),
            _ => Choice::Passes(&[Part(Rule::InProgram(Items))]),
        },
        Item => match next {
            Some(Kind::Type) => Choice::Takes(&[
                Make(Action::Mark),
                Part(Rule::InProgram(TypeHead)),
            ]),
            Some(Kind::Let) => Choice::Takes(&[Make(Action::Mark), Part(Rule::InProgram(LetItem))]),
            _ => Choice::Refuses,
        },
        LetItem => match next {
            Some(Kind::LowerName) => Choice::Takes(&[
                Make(Action::Pattern(Bind)),
                Part(Rule::InBinding(LetTail)),
                Make(Action::Item(AddLet)),
            ]),
            Some(Kind::Underscore) => Choice::Takes(&[
                Make(Action::Pattern(Any)),
                Word(Kind::Equal),
                Part(Rule::InExpression(Seq)),
                Make(Action::Item(AddLet)),
            ]),
            Some(Kind::Open) => Choice::Takes(&[
                Make(Action::Mark),
                Word(Kind::Close),
                Leave,
                Make(Action::Pattern(UnitPattern)),
                Word(Kind::Equal),
                Part(Rule::InExpression(Seq)),
                Make(Action::Item(AddLet)),
            ]),
            Some(Kind::Rec) => Choice::Takes(&[
                Part(Rule::InBinding(RecBind)),
                Make(Action::Item(AddRec)),
            ]),
            _ => Choice::Refuses,
        },
        TypeHead => match next {
            Some(Kind::TypeVariable) => Choice::Takes(&[
                Make(Action::Item(FirstParameter)),
                Word(Kind::LowerName),
                Make(Action::Named),
                Part(Rule::InProgram(TypeBody)),
            ]),
            Some(Kind::Open) => Choice::Takes(&[
                Word(Kind::TypeVariable),
                Make(Action::Item(FirstParameter)),
                Part(Rule::InProgram(TypeParameters)),
                Leave,
                Word(Kind::LowerName),
                Make(Action::Named),
                Part(Rule::InProgram(TypeBody)),
            ]),
            Some(Kind::LowerName) => Choice::Takes(&[
                Make(Action::Item(NoParameters)),
                Make(Action::Named),
                Part(Rule::InProgram(TypeBody)),
            ]),
            _ => Choice::Refuses,
        },
        TypeParameters => match next {
            Some(Kind::Comma) => Choice::Takes(&[
                Word(Kind::TypeVariable),
                Make(Action::Item(AddParameter)),
                Part(Rule::InProgram(TypeParameters)),
            ]),
            Some(Kind::Close) => Choice::Takes(&[]),
            _ => Choice::Refuses,
        },
        TypeBody => match next {
            Some(Kind::Equal) => Choice::Takes(&[
                Make(Action::Item(NoConstructors)),
                Part(Rule::InProgram(FirstConstructor)),
                Make(Action::Item(AddType)),
            ]),
            _ => Choice::Refuses,
        },
        FirstConstructor => match next {
            Some(Kind::Bar) => Choice::Takes(&[
                Part(Rule::InProgram(Constructor)),
                Part(Rule::InProgram(ConstructorsMore)),
            ]),
            _ => Choice::Passes(&[
                Part(Rule::InProgram(Constructor)),
                Part(Rule::InProgram(ConstructorsMore)),
            ]),
        },
        ConstructorsMore => match next {
            Some(Kind::Bar) => Choice::Takes(&[
                Part(Rule::InProgram(Constructor)),
                Part(Rule::InProgram(ConstructorsMore)),
            ]),
            _ => Choice::Passes(&[]),
        },
        Constructor => match next {
            Some(Kind::UpperName) => Choice::Takes(&[
                Make(Action::Named),
                Make(Action::Typing(NoTypes)),
                Part(Rule::InProgram(ConstructorFields)),
                Make(Action::Item(AddConstructor)),
            ]),
            _ => Choice::Refuses,
        },
        ConstructorFields => match next {
            Some(Kind::Of) => Choice::Takes(&[
                Part(Rule::InType(TypeApplied)),
                Make(Action::Typing(AppendType)),
                Part(Rule::InProgram(FieldsMore)),
            ]),
            _ => Choice::Passes(&[]),
        },
        FieldsMore => match next {
            Some(Kind::Star) => Choice::Takes(&[
                Part(Rule::InType(TypeApplied)),
                Make(Action::Typing(AppendType)),
                Part(Rule::InProgram(FieldsMore)),
            ]),
            _ => Choice::Passes(&[]),
        },
    }
}
