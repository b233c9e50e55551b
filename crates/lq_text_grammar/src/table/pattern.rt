// Patterns.
ghost use Rattle.std.specs.Prelude.{◌≡◌};
ghost use Rattle.lq_text_grammar.specs.Grammar.{pattern_alternatives};
ghost use Rattle.lq_text_grammar.specs.Levels.{way, way_of};

use crate::kind::Kind;
use crate::rule::BindingPart::Simple;
use crate::rule::PatternPart::{
    ArgumentsInside, Pattern, PatternArguments, PatternInner, PatternRest, PatternTuple,
};
use crate::rule::{PatternPart, Rule};
use crate::symbol::Action;
use crate::symbol::PatternAction::{
    Any, AppendPattern, Bind, BuildPattern, ConsPattern, NilPattern, NoPatterns, PatternInside,
    TuplePattern, TwoPatterns, UnitPattern,
};
use crate::symbol::Symbol::{Leave, Make, Part, Word};
use crate::table::Choice;

pub(crate) fn choose(part: PatternPart, next: Option<Kind>) -> Choice
    ensures { way_of result ≡ way next (pattern_alternatives part) }
{
    match part {
        Pattern => match next {
            Some(Kind::LowerName) => Choice::Takes(&[
                Make(Action::Pattern(Bind)),
                Part(Rule::InPattern(PatternRest)),
            ]),
            Some(Kind::Underscore) => Choice::Takes(&[
                Make(Action::Pattern(Any)),
                Part(Rule::InPattern(PatternRest)),
            ]),
            Some(Kind::Open) => Choice::Takes(&[
                Make(Action::Mark),
                Part(Rule::InPattern(PatternInner)),
                Leave,
            ]),
            Some(Kind::OpenBracket) => Choice::Takes(&[
                Make(Action::Mark),
                Word(Kind::CloseBracket),
                Leave,
                Make(Action::Pattern(NilPattern)),
            ]),
            Some(Kind::UpperName) => Choice::Takes(&[
                Make(Action::Named),
                Make(Action::Pattern(NoPatterns)),
                Part(Rule::InPattern(PatternArguments)),
                Make(Action::Pattern(BuildPattern)),
            ]),
            _ => Choice::Refuses,
        },
        PatternRest => match next {
            Some(Kind::DoubleColon) => Choice::Takes(&[
                Make(Action::Mark),
                Part(Rule::InBinding(Simple)),
                Make(Action::Pattern(ConsPattern)),
                Leave,
            ]),
            Some(Kind::Comma) => Choice::Takes(&[
                Part(Rule::InBinding(Simple)),
                Make(Action::Pattern(TwoPatterns)),
                Part(Rule::InPattern(PatternTuple)),
            ]),
            _ => Choice::Passes(&[]),
        },
        PatternTuple => match next {
            Some(Kind::Comma) => Choice::Takes(&[
                Part(Rule::InBinding(Simple)),
                Make(Action::Pattern(AppendPattern)),
                Part(Rule::InPattern(PatternTuple)),
            ]),
            _ => Choice::Passes(&[Make(Action::Pattern(TuplePattern))]),
        },
        PatternInner => match next {
            Some(Kind::Close) => Choice::Takes(&[Make(Action::Pattern(UnitPattern))]),
            _ => Choice::Passes(&[
                Part(Rule::InPattern(Pattern)),
                Word(Kind::Close),
                Make(Action::Pattern(PatternInside)),
            ]),
        },
        PatternArguments => match next {
            Some(Kind::LowerName) => Choice::Takes(&[
                Make(Action::Pattern(Bind)),
                Make(Action::Pattern(AppendPattern)),
            ]),
            Some(Kind::Underscore) => Choice::Takes(&[
                Make(Action::Pattern(Any)),
                Make(Action::Pattern(AppendPattern)),
            ]),
            Some(Kind::Open) => Choice::Takes(&[
                Part(Rule::InBinding(Simple)),
                Make(Action::Pattern(AppendPattern)),
                Part(Rule::InPattern(ArgumentsInside)),
                Leave,
            ]),
            _ => Choice::Passes(&[]),
        },
        ArgumentsInside => match next {
            Some(Kind::Close) => Choice::Takes(&[]),
            Some(Kind::Comma) => Choice::Takes(&[
                Part(Rule::InBinding(Simple)),
                Make(Action::Pattern(AppendPattern)),
                Part(Rule::InPattern(ArgumentsInside)),
            ]),
            _ => Choice::Refuses,
        },
    }
}
