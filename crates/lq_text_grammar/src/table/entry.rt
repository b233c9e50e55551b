// Qualifiers and measures.
ghost use Rattle.std.specs.Prelude.{◌≡◌};
ghost use Rattle.lq_text_grammar.specs.Grammar.{entry_alternatives};
ghost use Rattle.lq_text_grammar.specs.Levels.{way, way_of};

use crate::kind::Kind;
use crate::rule::EntryPart::{
    Equation, EquationsMore, FirstEquation, Measures, MeasuresMore, QualifierName, QualifierRest,
    Quals, QualsMore,
};
use crate::rule::PatternPart::Pattern;
use crate::rule::PredPart::{Predicate, Term};
use crate::rule::{EntryPart, Rule};
use crate::symbol::Action;
use crate::symbol::EntryAction::{
    AddMeasure, AddQualifier, AppendEquation, NoEquations, NoMeasures, NoQualifiers,
};
use crate::symbol::Symbol::{Leave, Make, Part, Word};
use crate::table::Choice;

pub(crate) fn choose(part: EntryPart, next: Option<Kind>) -> Choice
    ensures { way_of result ≡ way next (entry_alternatives part) }
{
    match part {
        Quals => Choice::Passes(&[
            Make(Action::Entry(NoQualifiers)),
            Part(Rule::InEntry(QualsMore)),
        ]),
        QualsMore => match next {
            Some(Kind::Qualif) => Choice::Takes(&[
                Make(Action::Mark),
                Part(Rule::InEntry(QualifierName)),
                Part(Rule::InEntry(QualifierRest)),
                Part(Rule::InEntry(QualsMore)),
            ]),
            _ => Choice::Passes(&[]),
        },
        QualifierName => match next {
            Some(Kind::LowerName) => Choice::Takes(&[Make(Action::Named)]),
            Some(Kind::UpperName) => Choice::Takes(&[Make(Action::Named)]),
            _ => Choice::Refuses,
        },
        QualifierRest => match next {
            Some(Kind::Open) => Choice::Takes(&[
                Word(Kind::LowerName),
                Make(Action::Named),
                Word(Kind::Colon),
                Word(Kind::LowerName),
                Make(Action::Named),
                Word(Kind::Close),
                Leave,
                Word(Kind::Colon),
                Part(Rule::InPred(Predicate)),
                Make(Action::Entry(AddQualifier)),
            ]),
            _ => Choice::Refuses,
        },
        Measures => Choice::Passes(&[
            Make(Action::Entry(NoMeasures)),
            Part(Rule::InEntry(MeasuresMore)),
        ]),
        MeasuresMore => match next {
            Some(Kind::Measure) => Choice::Takes(&[
                Word(Kind::LowerName),
                Make(Action::Named),
                Word(Kind::Colon),
                Word(Kind::LowerName),
                Make(Action::Named),
                Word(Kind::Equal),
                Make(Action::Entry(NoEquations)),
                Part(Rule::InEntry(FirstEquation)),
                Make(Action::Entry(AddMeasure)),
                Part(Rule::InEntry(MeasuresMore)),
            ]),
            _ => Choice::Passes(&[]),
        },
        FirstEquation => match next {
            Some(Kind::Bar) => Choice::Takes(&[
                Part(Rule::InEntry(Equation)),
                Part(Rule::InEntry(EquationsMore)),
            ]),
            _ => Choice::Passes(&[
                Part(Rule::InEntry(Equation)),
                Part(Rule::InEntry(EquationsMore)),
            ]),
        },
        EquationsMore => match next {
            Some(Kind::Bar) => Choice::Takes(&[
                Part(Rule::InEntry(Equation)),
                Part(Rule::InEntry(EquationsMore)),
            ]),
            _ => Choice::Passes(&[]),
        },
        Equation => Choice::Passes(&[
            Part(Rule::InPattern(Pattern)),
            Word(Kind::Arrow),
            Part(Rule::InPred(Term)),
            Make(Action::Entry(AppendEquation)),
        ]),
    }
}
