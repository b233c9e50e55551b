// Predicates and terms.
ghost use Rattle.std.specs.Prelude.{◌≡◌};
ghost use Rattle.lq_text_grammar.specs.Grammar.{pred_alternatives};
ghost use Rattle.lq_text_grammar.specs.Levels.{way, way_of};

use crate::kind::Kind;
use crate::rule::PredPart::{
    AfterTermMinus, IffMore, OtherTermAtom, PredAndMore, PredCompareMore, PredConjunction,
    PredDisjunction, PredNegation, PredOrMore, Predicate, QualifiedArgument, Term, TermAddMore,
    TermArgument, TermAtom, TermMulMore, TermNegation, TermProduct, UpperTerm,
};
use crate::rule::{PredPart, Rule};
use crate::symbol::Action;
use crate::symbol::PredAction::{
    IffOf, PredAnd, PredApply, PredArith, PredCompare, PredInside, PredLiteral, PredNegate,
    PredNegative, PredNot, PredOr, PredPlaceholder, PredQualified, PredTruth, PredUntruth, PredUse,
};
use crate::symbol::Symbol::{Leave, Make, Part, Word};
use crate::table::Choice;
use lq_base_names::{ArithOp, CompareOp};

pub(crate) fn choose(part: PredPart, next: Option<Kind>) -> Choice
    ensures { way_of result ≡ way next (pred_alternatives part) }
{
    match part {
        Predicate => Choice::Passes(&[
            Part(Rule::InPred(PredDisjunction)),
            Part(Rule::InPred(IffMore)),
        ]),
        IffMore => match next {
            Some(Kind::Equivalence) => Choice::Takes(&[
                Part(Rule::InPred(PredDisjunction)),
                Make(Action::Pred(IffOf)),
                Leave,
            ]),
            _ => Choice::Passes(&[]),
        },
        PredDisjunction => Choice::Passes(&[
            Part(Rule::InPred(PredConjunction)),
            Part(Rule::InPred(PredOrMore)),
        ]),
        PredOrMore => match next {
            Some(Kind::DoubleBar) => Choice::Takes(&[
                Part(Rule::InPred(PredConjunction)),
                Make(Action::Pred(PredOr)),
                Part(Rule::InPred(PredOrMore)),
                Leave,
            ]),
            _ => Choice::Passes(&[]),
        },
        PredConjunction => Choice::Passes(&[
            Part(Rule::InPred(PredNegation)),
            Part(Rule::InPred(PredAndMore)),
        ]),
        PredAndMore => match next {
            Some(Kind::DoubleAmpersand) => Choice::Takes(&[
                Part(Rule::InPred(PredNegation)),
                Make(Action::Pred(PredAnd)),
                Part(Rule::InPred(PredAndMore)),
                Leave,
            ]),
            _ => Choice::Passes(&[]),
        },
        PredNegation => match next {
            Some(Kind::Not) => Choice::Takes(&[
                Make(Action::Mark),
                Part(Rule::InPred(PredNegation)),
                Make(Action::Pred(PredNot)),
                Leave,
            ]),
            _ => Choice::Passes(&[
                Part(Rule::InPred(Term)),
                Part(Rule::InPred(PredCompareMore)),
            ]),
        },
        PredCompareMore => match next {
            Some(Kind::Equal) => Choice::Takes(&[
                Part(Rule::InPred(Term)),
                Make(Action::Pred(PredCompare(CompareOp::Eq))),
                Leave,
            ]),
            Some(Kind::NotEqual) => Choice::Takes(&[
                Part(Rule::InPred(Term)),
                Make(Action::Pred(PredCompare(CompareOp::Ne))),
                Leave,
            ]),
            Some(Kind::Less) => Choice::Takes(&[
                Part(Rule::InPred(Term)),
                Make(Action::Pred(PredCompare(CompareOp::Lt))),
                Leave,
            ]),
            Some(Kind::LessEqual) => Choice::Takes(&[
                Part(Rule::InPred(Term)),
                Make(Action::Pred(PredCompare(CompareOp::Le))),
                Leave,
            ]),
            Some(Kind::Greater) => Choice::Takes(&[
                Part(Rule::InPred(Term)),
                Make(Action::Pred(PredCompare(CompareOp::Gt))),
                Leave,
            ]),
            Some(Kind::GreaterEqual) => Choice::Takes(&[
                Part(Rule::InPred(Term)),
                Make(Action::Pred(PredCompare(CompareOp::Ge))),
                Leave,
            ]),
            _ => Choice::Passes(&[]),
        },
        Term => Choice::Passes(&[
            Part(Rule::InPred(TermProduct)),
            Part(Rule::InPred(TermAddMore)),
        ]),
        TermAddMore => match next {
            Some(Kind::Plus) => Choice::Takes(&[
                Part(Rule::InPred(TermProduct)),
                Make(Action::Pred(PredArith(ArithOp::Add))),
                Part(Rule::InPred(TermAddMore)),
                Leave,
            ]),
            Some(Kind::Minus) => Choice::Takes(&[
                Part(Rule::InPred(TermProduct)),
                Make(Action::Pred(PredArith(ArithOp::Sub))),
                Part(Rule::InPred(TermAddMore)),
                Leave,
            ]),
            _ => Choice::Passes(&[]),
        },
        TermProduct => Choice::Passes(&[
            Part(Rule::InPred(TermNegation)),
            Part(Rule::InPred(TermMulMore)),
        ]),
        TermMulMore => match next {
            Some(Kind::Star) => Choice::Takes(&[
                Part(Rule::InPred(TermNegation)),
                Make(Action::Pred(PredArith(ArithOp::Mul))),
                Part(Rule::InPred(TermMulMore)),
                Leave,
            ]),
            Some(Kind::Slash) => Choice::Takes(&[
                Part(Rule::InPred(TermNegation)),
                Make(Action::Pred(PredArith(ArithOp::Div))),
                Part(Rule::InPred(TermMulMore)),
                Leave,
            ]),
            Some(Kind::Mod) => Choice::Takes(&[
                Part(Rule::InPred(TermNegation)),
                Make(Action::Pred(PredArith(ArithOp::Mod))),
                Part(Rule::InPred(TermMulMore)),
                Leave,
            ]),
            _ => Choice::Passes(&[]),
        },
        TermNegation => match next {
            Some(Kind::Minus) => Choice::Takes(&[
                Make(Action::Mark),
                Part(Rule::InPred(AfterTermMinus)),
                Leave,
            ]),
            _ => Choice::Passes(&[Part(Rule::InPred(TermAtom))]),
        },
        AfterTermMinus => match next {
            Some(Kind::Number) => Choice::Takes(&[Make(Action::Pred(PredNegative))]),
            Some(Kind::LimitNumber) => Choice::Takes(&[Make(Action::Pred(PredNegative))]),
            Some(Kind::Minus) => Choice::Takes(&[
                Make(Action::Mark),
                Part(Rule::InPred(AfterTermMinus)),
                Leave,
                Make(Action::Pred(PredNegate)),
            ]),
            _ => Choice::Passes(&[
                Part(Rule::InPred(OtherTermAtom)),
                Make(Action::Pred(PredNegate)),
            ]),
        },
        TermAtom => match next {
            Some(Kind::Number) => Choice::Takes(&[Make(Action::Pred(PredLiteral))]),
            _ => Choice::Passes(&[Part(Rule::InPred(OtherTermAtom))]),
        },
        OtherTermAtom => match next {
            Some(Kind::True) => Choice::Takes(&[Make(Action::Pred(PredTruth))]),
            Some(Kind::False) => Choice::Takes(&[Make(Action::Pred(PredUntruth))]),
            Some(Kind::LowerName) => Choice::Takes(&[
                Make(Action::Named),
                Part(Rule::InPred(TermArgument)),
            ]),
            Some(Kind::UpperName) => Choice::Takes(&[
                Make(Action::Named),
                Part(Rule::InPred(UpperTerm)),
            ]),
            Some(Kind::Open) => Choice::Takes(&[
                Make(Action::Mark),
                Part(Rule::InPred(Predicate)),
                Word(Kind::Close),
                Make(Action::Pred(PredInside)),
                Leave,
            ]),
            _ => Choice::Refuses,
        },
        TermArgument => match next {
            Some(
                Kind::Number
                | Kind::True
                | Kind::False
                | Kind::LowerName
                | Kind::UpperName
                | Kind::Open,
            ) => Choice::Passes(&[
                Part(Rule::InPred(TermAtom)),
                Make(Action::Pred(PredApply)),
                Leave,
            ]),
            _ => Choice::Passes(&[Make(Action::Pred(PredUse))]),
        },
        UpperTerm => match next {
            Some(Kind::Dot) => Choice::Takes(&[
                Word(Kind::LowerName),
                Make(Action::Named),
                Part(Rule::InPred(QualifiedArgument)),
            ]),
            _ => Choice::Passes(&[Make(Action::Pred(PredPlaceholder))]),
        },
        QualifiedArgument => Choice::Passes(&[
            Part(Rule::InPred(TermAtom)),
            Make(Action::Pred(PredQualified)),
            Leave,
        ]),
    }
}
