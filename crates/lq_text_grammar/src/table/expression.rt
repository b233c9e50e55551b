// Expressions.
ghost use Rattle.std.specs.Prelude.{◌≡◌};
ghost use Rattle.lq_text_grammar.specs.Grammar.{expression_alternatives};
ghost use Rattle.lq_text_grammar.specs.Levels.{way, way_of};

use crate::kind::Kind;
use crate::rule::BindingPart::FunTail;
use crate::rule::BindingPart::LetTail;
use crate::rule::BindingPart::Parameter;
use crate::rule::BindingPart::RecBind;
use crate::rule::BindingPart::Simple;
use crate::rule::BindingPart::SimplesInside;
use crate::rule::ExpressionPart;
use crate::rule::ExpressionPart::AddMore;
use crate::rule::ExpressionPart::AfterIndexed;
use crate::rule::ExpressionPart::AfterLetAny;
use crate::rule::ExpressionPart::AfterLetName;
use crate::rule::ExpressionPart::AfterMinus;
use crate::rule::ExpressionPart::AndMore;
use crate::rule::ExpressionPart::Application;
use crate::rule::ExpressionPart::ArgumentsMore;
use crate::rule::ExpressionPart::Arm;
use crate::rule::ExpressionPart::ArmsMore;
use crate::rule::ExpressionPart::Atom;
use crate::rule::ExpressionPart::CallRest;
use crate::rule::ExpressionPart::CompareMore;
use crate::rule::ExpressionPart::Comparison;
use crate::rule::ExpressionPart::Conjunction;
use crate::rule::ExpressionPart::ConsChain;
use crate::rule::ExpressionPart::ConsMore;
use crate::rule::ExpressionPart::Disjunction;
use crate::rule::ExpressionPart::ElsePart;
use crate::rule::ExpressionPart::Expression;
use crate::rule::ExpressionPart::FirstArm;
use crate::rule::ExpressionPart::FunFirst;
use crate::rule::ExpressionPart::HeadMore;
use crate::rule::ExpressionPart::IndexTail;
use crate::rule::ExpressionPart::Inside;
use crate::rule::ExpressionPart::LetHead;
use crate::rule::ExpressionPart::LetInside;
use crate::rule::ExpressionPart::LetTuple;
use crate::rule::ExpressionPart::ListInside;
use crate::rule::ExpressionPart::ListMore;
use crate::rule::ExpressionPart::MulMore;
use crate::rule::ExpressionPart::Negation;
use crate::rule::ExpressionPart::OperandRest;
use crate::rule::ExpressionPart::OrMore;
use crate::rule::ExpressionPart::OtherAtom;
use crate::rule::ExpressionPart::PlainAtom;
use crate::rule::ExpressionPart::Postfix;
use crate::rule::ExpressionPart::PostfixMore;
use crate::rule::ExpressionPart::Product;
use crate::rule::ExpressionPart::Seq;
use crate::rule::ExpressionPart::SeqMore;
use crate::rule::ExpressionPart::SeqNext;
use crate::rule::ExpressionPart::SeqSecond;
use crate::rule::ExpressionPart::SeqTail;
use crate::rule::ExpressionPart::Sum;
use crate::rule::ExpressionPart::TupleMore;
use crate::rule::ExpressionPart::TupleTail;
use crate::rule::ExpressionPart::UpperAtom;
use crate::rule::ExpressionPart::UpperHead;
use crate::rule::ExpressionPart::UpperMore;
use crate::rule::PatternPart::Pattern;
use crate::rule::Rule;
use crate::symbol::Action;
use crate::symbol::BlockAction::AppendArm;
use crate::symbol::BlockAction::AppendTree;
use crate::symbol::BlockAction::AssertOf;
use crate::symbol::BlockAction::ChainOf;
use crate::symbol::BlockAction::FunctionHere;
use crate::symbol::BlockAction::IfElse;
use crate::symbol::BlockAction::IfOnly;
use crate::symbol::BlockAction::LetIn;
use crate::symbol::BlockAction::LetRecIn;
use crate::symbol::BlockAction::ListLiteral;
use crate::symbol::BlockAction::MatchOf;
use crate::symbol::BlockAction::NoArms;
use crate::symbol::BlockAction::NoTrees;
use crate::symbol::BlockAction::NotOf;
use crate::symbol::BlockAction::TupleOf;
use crate::symbol::BlockAction::TwoTrees;
use crate::symbol::OperandAction::AndOf;
use crate::symbol::OperandAction::ArithOf;
use crate::symbol::OperandAction::BlockOf;
use crate::symbol::OperandAction::BuildOf;
use crate::symbol::OperandAction::CallOf;
use crate::symbol::OperandAction::CompareOf;
use crate::symbol::OperandAction::ConsOf;
use crate::symbol::OperandAction::ConstantOf;
use crate::symbol::OperandAction::ElementOf;
use crate::symbol::OperandAction::Enclosed;
use crate::symbol::OperandAction::FetchOf;
use crate::symbol::OperandAction::Literal;
use crate::symbol::OperandAction::NegateOf;
use crate::symbol::OperandAction::NegativeLiteral;
use crate::symbol::OperandAction::OrOf;
use crate::symbol::OperandAction::QualifiedOf;
use crate::symbol::OperandAction::StoreOf;
use crate::symbol::OperandAction::Truth;
use crate::symbol::OperandAction::UnitHere;
use crate::symbol::OperandAction::Untruth;
use crate::symbol::OperandAction::UseOf;
use crate::symbol::PatternAction::Any;
use crate::symbol::PatternAction::AppendPattern;
use crate::symbol::PatternAction::Bind;
use crate::symbol::PatternAction::PatternInside;
use crate::symbol::PatternAction::TuplePattern;
use crate::symbol::PatternAction::TwoPatterns;
use crate::symbol::PatternAction::UnitPattern;
use crate::symbol::Symbol::Leave;
use crate::symbol::Symbol::Make;
use crate::symbol::Symbol::Part;
use crate::symbol::Symbol::Word;
use crate::table::Choice;
use lq_base_names::ArithOp;
use lq_base_names::CompareOp;

pub(crate) fn choose(part: ExpressionPart, next: Option<Kind>) -> Choice
    ensures { way_of result ≡ way next (expression_alternatives part) }
{
    match part {
        Seq => Choice::Passes(&[
            Part(Rule::InExpression(Expression)),
            Part(Rule::InExpression(SeqTail)),
        ]),
        SeqTail => match next {
            Some(Kind::Semicolon) => Choice::Takes(&[Part(Rule::InExpression(SeqSecond))]),
            _ => Choice::Passes(&[]),
        },
        SeqSecond => match next {
            Some(
                Kind::Let
                | Kind::Fun
                | Kind::Match
                | Kind::If
                | Kind::Minus
                | Kind::Assert
                | Kind::Not
                | Kind::Number
                | Kind::True
                | Kind::False
                | Kind::LowerName
                | Kind::UpperName
                | Kind::Open
                | Kind::OpenBracket
                | Kind::Begin,
            ) => Choice::Passes(&[
                Part(Rule::InExpression(Expression)),
                Make(Action::Block(TwoTrees)),
                Part(Rule::InExpression(SeqMore)),
                Make(Action::Block(ChainOf)),
            ]),
            _ => Choice::Passes(&[]),
        },
        SeqMore => match next {
            Some(Kind::Semicolon) => Choice::Takes(&[Part(Rule::InExpression(SeqNext))]),
            _ => Choice::Passes(&[]),
        },
        SeqNext => match next {
            Some(
                Kind::Let
                | Kind::Fun
                | Kind::Match
                | Kind::If
                | Kind::Minus
                | Kind::Assert
                | Kind::Not
                | Kind::Number
                | Kind::True
                | Kind::False
                | Kind::LowerName
                | Kind::UpperName
                | Kind::Open
                | Kind::OpenBracket
                | Kind::Begin,
            ) => Choice::Passes(&[
                Part(Rule::InExpression(Expression)),
                Make(Action::Block(AppendTree)),
                Part(Rule::InExpression(SeqMore)),
            ]),
            _ => Choice::Passes(&[]),
        },
        Expression => match next {
            Some(Kind::Let) => Choice::Takes(&[
                Make(Action::Mark),
                Part(Rule::InExpression(LetHead)),
                Leave,
            ]),
            Some(Kind::Fun) => Choice::Takes(&[
                Make(Action::Mark),
                Part(Rule::InBinding(Parameter)),
                Part(Rule::InExpression(FunFirst)),
                Leave,
            ]),
            Some(Kind::Match) => Choice::Takes(&[
                Make(Action::Mark),
                Part(Rule::InExpression(Seq)),
                Word(Kind::With),
                Make(Action::Block(NoArms)),
                Part(Rule::InExpression(FirstArm)),
                Make(Action::Block(MatchOf)),
                Leave,
            ]),
            Some(Kind::If) => Choice::Takes(&[
                Make(Action::Mark),
                Part(Rule::InExpression(Expression)),
                Word(Kind::Then),
                Part(Rule::InExpression(Expression)),
                Part(Rule::InExpression(ElsePart)),
                Leave,
            ]),
            Some(Kind::Minus) => Choice::Takes(&[
                Make(Action::Mark),
                Part(Rule::InExpression(AfterMinus)),
                Leave,
                Part(Rule::InExpression(OperandRest)),
            ]),
            Some(Kind::Assert) => Choice::Takes(&[
                Make(Action::Mark),
                Part(Rule::InExpression(Postfix)),
                Make(Action::Block(AssertOf)),
                Leave,
                Part(Rule::InExpression(OperandRest)),
            ]),
            Some(Kind::Not) => Choice::Takes(&[
                Make(Action::Mark),
                Part(Rule::InExpression(Postfix)),
                Make(Action::Block(NotOf)),
                Leave,
                Part(Rule::InExpression(OperandRest)),
            ]),
            Some(Kind::UpperName) => Choice::Takes(&[
                Make(Action::Named),
                Part(Rule::InExpression(UpperHead)),
            ]),
            _ => Choice::Passes(&[
                Part(Rule::InExpression(PlainAtom)),
                Part(Rule::InExpression(HeadMore)),
            ]),
        },
        LetHead => match next {
            Some(Kind::LowerName) => Choice::Takes(&[
                Make(Action::Pattern(Bind)),
                Part(Rule::InExpression(AfterLetName)),
                Word(Kind::In),
                Part(Rule::InExpression(Seq)),
                Make(Action::Block(LetIn)),
            ]),
            Some(Kind::Underscore) => Choice::Takes(&[
                Make(Action::Pattern(Any)),
                Part(Rule::InExpression(AfterLetAny)),
                Word(Kind::In),
                Part(Rule::InExpression(Seq)),
                Make(Action::Block(LetIn)),
            ]),
            Some(Kind::Open) => Choice::Takes(&[
                Make(Action::Mark),
                Part(Rule::InExpression(LetInside)),
                Leave,
                Word(Kind::Equal),
                Part(Rule::InExpression(Seq)),
                Word(Kind::In),
                Part(Rule::InExpression(Seq)),
                Make(Action::Block(LetIn)),
            ]),
            Some(Kind::Rec) => Choice::Takes(&[
                Part(Rule::InBinding(RecBind)),
                Word(Kind::In),
                Part(Rule::InExpression(Seq)),
                Make(Action::Block(LetRecIn)),
            ]),
            _ => Choice::Refuses,
        },
        AfterLetName => match next {
            Some(Kind::Comma) => Choice::Takes(&[
                Part(Rule::InBinding(Simple)),
                Make(Action::Pattern(TwoPatterns)),
                Part(Rule::InExpression(LetTuple)),
            ]),
            _ => Choice::Passes(&[Part(Rule::InBinding(LetTail))]),
        },
        AfterLetAny => match next {
            Some(Kind::Comma) => Choice::Takes(&[
                Part(Rule::InBinding(Simple)),
                Make(Action::Pattern(TwoPatterns)),
                Part(Rule::InExpression(LetTuple)),
            ]),
            Some(Kind::Equal) => Choice::Takes(&[Part(Rule::InExpression(Seq))]),
            _ => Choice::Refuses,
        },
        LetTuple => match next {
            Some(Kind::Comma) => Choice::Takes(&[
                Part(Rule::InBinding(Simple)),
                Make(Action::Pattern(AppendPattern)),
                Part(Rule::InExpression(LetTuple)),
            ]),
            Some(Kind::Equal) => Choice::Takes(&[
                Make(Action::Pattern(TuplePattern)),
                Part(Rule::InExpression(Seq)),
            ]),
            _ => Choice::Refuses,
        },
        LetInside => match next {
            Some(Kind::Close) => Choice::Takes(&[Make(Action::Pattern(UnitPattern))]),
            _ => Choice::Passes(&[
                Part(Rule::InBinding(Simple)),
                Word(Kind::Comma),
                Part(Rule::InBinding(Simple)),
                Make(Action::Pattern(TwoPatterns)),
                Part(Rule::InBinding(SimplesInside)),
                Make(Action::Pattern(TuplePattern)),
                Make(Action::Pattern(PatternInside)),
            ]),
        },
        FunFirst => Choice::Passes(&[
            Part(Rule::InBinding(FunTail)),
            Make(Action::Block(FunctionHere)),
            Leave,
        ]),
        FirstArm => match next {
            Some(Kind::Bar) => Choice::Takes(&[
                Part(Rule::InExpression(Arm)),
                Part(Rule::InExpression(ArmsMore)),
            ]),
            _ => Choice::Passes(&[
                Part(Rule::InExpression(Arm)),
                Part(Rule::InExpression(ArmsMore)),
            ]),
        },
        ArmsMore => match next {
            Some(Kind::Bar) => Choice::Takes(&[
                Part(Rule::InExpression(Arm)),
                Part(Rule::InExpression(ArmsMore)),
            ]),
            _ => Choice::Passes(&[]),
        },
        Arm => Choice::Passes(&[
            Part(Rule::InPattern(Pattern)),
            Word(Kind::Arrow),
            Part(Rule::InExpression(Seq)),
            Make(Action::Block(AppendArm)),
        ]),
        ElsePart => match next {
            Some(Kind::Else) => Choice::Takes(&[
                Part(Rule::InExpression(Expression)),
                Make(Action::Block(IfElse)),
            ]),
            _ => Choice::Passes(&[Make(Action::Block(IfOnly))]),
        },
        UpperHead => match next {
            Some(Kind::Dot) => Choice::Takes(&[
                Word(Kind::LowerName),
                Make(Action::Operand(QualifiedOf)),
                Part(Rule::InExpression(HeadMore)),
            ]),
            Some(Kind::OpenIndex) => Choice::Takes(&[
                Make(Action::Operand(ConstantOf)),
                Part(Rule::InExpression(Seq)),
                Word(Kind::Close),
                Leave,
                Make(Action::Operand(ElementOf)),
                Part(Rule::InExpression(IndexTail)),
                Leave,
                Part(Rule::InExpression(AfterIndexed)),
            ]),
            Some(
                Kind::Number
                | Kind::True
                | Kind::False
                | Kind::LowerName
                | Kind::UpperName
                | Kind::Open
                | Kind::OpenBracket
                | Kind::Begin,
            ) => Choice::Passes(&[
                Part(Rule::InExpression(Postfix)),
                Make(Action::Operand(BuildOf)),
                Part(Rule::InExpression(OperandRest)),
            ]),
            _ => Choice::Passes(&[
                Make(Action::Operand(ConstantOf)),
                Part(Rule::InExpression(OperandRest)),
            ]),
        },
        HeadMore => match next {
            Some(Kind::OpenIndex) => Choice::Takes(&[
                Part(Rule::InExpression(Seq)),
                Word(Kind::Close),
                Leave,
                Make(Action::Operand(ElementOf)),
                Part(Rule::InExpression(IndexTail)),
                Leave,
                Part(Rule::InExpression(AfterIndexed)),
            ]),
            _ => Choice::Passes(&[Part(Rule::InExpression(CallRest))]),
        },
        IndexTail => match next {
            Some(Kind::OpenIndex) => Choice::Takes(&[
                Make(Action::Operand(FetchOf)),
                Part(Rule::InExpression(Seq)),
                Word(Kind::Close),
                Leave,
                Make(Action::Operand(ElementOf)),
                Part(Rule::InExpression(IndexTail)),
                Leave,
            ]),
            _ => Choice::Passes(&[]),
        },
        AfterIndexed => match next {
            Some(Kind::LeftArrow) => Choice::Takes(&[
                Part(Rule::InExpression(Expression)),
                Make(Action::Operand(StoreOf)),
                Leave,
            ]),
            _ => Choice::Passes(&[
                Make(Action::Operand(FetchOf)),
                Part(Rule::InExpression(CallRest)),
            ]),
        },
        CallRest => Choice::Passes(&[
            Part(Rule::InExpression(ArgumentsMore)),
            Part(Rule::InExpression(OperandRest)),
        ]),
        OperandRest => Choice::Passes(&[
            Part(Rule::InExpression(MulMore)),
            Part(Rule::InExpression(AddMore)),
            Part(Rule::InExpression(ConsMore)),
            Part(Rule::InExpression(CompareMore)),
            Part(Rule::InExpression(AndMore)),
            Part(Rule::InExpression(OrMore)),
            Part(Rule::InExpression(TupleTail)),
        ]),
        TupleTail => match next {
            Some(Kind::Comma) => Choice::Takes(&[
                Part(Rule::InExpression(Disjunction)),
                Make(Action::Block(TwoTrees)),
                Part(Rule::InExpression(TupleMore)),
                Make(Action::Block(TupleOf)),
            ]),
            _ => Choice::Passes(&[]),
        },
        TupleMore => match next {
            Some(Kind::Comma) => Choice::Takes(&[
                Part(Rule::InExpression(Disjunction)),
                Make(Action::Block(AppendTree)),
                Part(Rule::InExpression(TupleMore)),
            ]),
            _ => Choice::Passes(&[]),
        },
        Disjunction => Choice::Passes(&[
            Part(Rule::InExpression(Conjunction)),
            Part(Rule::InExpression(OrMore)),
        ]),
        OrMore => match next {
            Some(Kind::DoubleBar) => Choice::Takes(&[
                Part(Rule::InExpression(Disjunction)),
                Make(Action::Operand(OrOf)),
                Leave,
            ]),
            _ => Choice::Passes(&[]),
        },
        Conjunction => Choice::Passes(&[
            Part(Rule::InExpression(Comparison)),
            Part(Rule::InExpression(AndMore)),
        ]),
        AndMore => match next {
            Some(Kind::DoubleAmpersand) => Choice::Takes(&[
                Part(Rule::InExpression(Conjunction)),
                Make(Action::Operand(AndOf)),
                Leave,
            ]),
            _ => Choice::Passes(&[]),
        },
        Comparison => Choice::Passes(&[
            Part(Rule::InExpression(ConsChain)),
            Part(Rule::InExpression(CompareMore)),
        ]),
        CompareMore => match next {
            Some(Kind::Equal) => Choice::Takes(&[
                Part(Rule::InExpression(ConsChain)),
                Make(Action::Operand(CompareOf(CompareOp::Eq))),
                Leave,
            ]),
            Some(Kind::NotEqual) => Choice::Takes(&[
                Part(Rule::InExpression(ConsChain)),
                Make(Action::Operand(CompareOf(CompareOp::Ne))),
                Leave,
            ]),
            Some(Kind::Less) => Choice::Takes(&[
                Part(Rule::InExpression(ConsChain)),
                Make(Action::Operand(CompareOf(CompareOp::Lt))),
                Leave,
            ]),
            Some(Kind::LessEqual) => Choice::Takes(&[
                Part(Rule::InExpression(ConsChain)),
                Make(Action::Operand(CompareOf(CompareOp::Le))),
                Leave,
            ]),
            Some(Kind::Greater) => Choice::Takes(&[
                Part(Rule::InExpression(ConsChain)),
                Make(Action::Operand(CompareOf(CompareOp::Gt))),
                Leave,
            ]),
            Some(Kind::GreaterEqual) => Choice::Takes(&[
                Part(Rule::InExpression(ConsChain)),
                Make(Action::Operand(CompareOf(CompareOp::Ge))),
                Leave,
            ]),
            _ => Choice::Passes(&[]),
        },
        ConsChain => Choice::Passes(&[
            Part(Rule::InExpression(Sum)),
            Part(Rule::InExpression(ConsMore)),
        ]),
        ConsMore => match next {
            Some(Kind::DoubleColon) => Choice::Takes(&[
                Part(Rule::InExpression(ConsChain)),
                Make(Action::Operand(ConsOf)),
                Leave,
            ]),
            _ => Choice::Passes(&[]),
        },
        Sum => Choice::Passes(&[
            Part(Rule::InExpression(Product)),
            Part(Rule::InExpression(AddMore)),
        ]),
        AddMore => match next {
            Some(Kind::Plus) => Choice::Takes(&[
                Part(Rule::InExpression(Product)),
                Make(Action::Operand(ArithOf(ArithOp::Add))),
                Part(Rule::InExpression(AddMore)),
                Leave,
            ]),
            Some(Kind::Minus) => Choice::Takes(&[
                Part(Rule::InExpression(Product)),
                Make(Action::Operand(ArithOf(ArithOp::Sub))),
                Part(Rule::InExpression(AddMore)),
                Leave,
            ]),
            _ => Choice::Passes(&[]),
        },
        Product => Choice::Passes(&[
            Part(Rule::InExpression(Negation)),
            Part(Rule::InExpression(MulMore)),
        ]),
        MulMore => match next {
            Some(Kind::Star) => Choice::Takes(&[
                Part(Rule::InExpression(Negation)),
                Make(Action::Operand(ArithOf(ArithOp::Mul))),
                Part(Rule::InExpression(MulMore)),
                Leave,
            ]),
            Some(Kind::Slash) => Choice::Takes(&[
                Part(Rule::InExpression(Negation)),
                Make(Action::Operand(ArithOf(ArithOp::Div))),
                Part(Rule::InExpression(MulMore)),
                Leave,
            ]),
            Some(Kind::Mod) => Choice::Takes(&[
                Part(Rule::InExpression(Negation)),
                Make(Action::Operand(ArithOf(ArithOp::Mod))),
                Part(Rule::InExpression(MulMore)),
                Leave,
            ]),
            _ => Choice::Passes(&[]),
        },
        Negation => match next {
            Some(Kind::Minus) => Choice::Takes(&[
                Make(Action::Mark),
                Part(Rule::InExpression(AfterMinus)),
                Leave,
            ]),
            _ => Choice::Passes(&[Part(Rule::InExpression(Application))]),
        },
        AfterMinus => match next {
            Some(Kind::Number) => Choice::Takes(&[
                Make(Action::Operand(NegativeLiteral)),
                Part(Rule::InExpression(PostfixMore)),
                Part(Rule::InExpression(ArgumentsMore)),
            ]),
            Some(Kind::LimitNumber) => Choice::Takes(&[
                Make(Action::Operand(NegativeLiteral)),
                Part(Rule::InExpression(PostfixMore)),
                Part(Rule::InExpression(ArgumentsMore)),
            ]),
            Some(Kind::Minus) => Choice::Takes(&[
                Make(Action::Mark),
                Part(Rule::InExpression(AfterMinus)),
                Leave,
                Make(Action::Operand(NegateOf)),
            ]),
            Some(Kind::Assert) => Choice::Takes(&[
                Make(Action::Mark),
                Part(Rule::InExpression(Postfix)),
                Make(Action::Block(AssertOf)),
                Leave,
                Make(Action::Operand(NegateOf)),
            ]),
            Some(Kind::Not) => Choice::Takes(&[
                Make(Action::Mark),
                Part(Rule::InExpression(Postfix)),
                Make(Action::Block(NotOf)),
                Leave,
                Make(Action::Operand(NegateOf)),
            ]),
            Some(Kind::UpperName) => Choice::Takes(&[
                Make(Action::Named),
                Part(Rule::InExpression(UpperMore)),
                Make(Action::Operand(NegateOf)),
            ]),
            _ => Choice::Passes(&[
                Part(Rule::InExpression(OtherAtom)),
                Part(Rule::InExpression(PostfixMore)),
                Part(Rule::InExpression(ArgumentsMore)),
                Make(Action::Operand(NegateOf)),
            ]),
        },
        Application => match next {
            Some(Kind::Assert) => Choice::Takes(&[
                Make(Action::Mark),
                Part(Rule::InExpression(Postfix)),
                Make(Action::Block(AssertOf)),
                Leave,
            ]),
            Some(Kind::Not) => Choice::Takes(&[
                Make(Action::Mark),
                Part(Rule::InExpression(Postfix)),
                Make(Action::Block(NotOf)),
                Leave,
            ]),
            Some(Kind::UpperName) => Choice::Takes(&[
                Make(Action::Named),
                Part(Rule::InExpression(UpperMore)),
            ]),
            _ => Choice::Passes(&[
                Part(Rule::InExpression(PlainAtom)),
                Part(Rule::InExpression(PostfixMore)),
                Part(Rule::InExpression(ArgumentsMore)),
            ]),
        },
        UpperMore => match next {
            Some(Kind::Dot) => Choice::Takes(&[
                Word(Kind::LowerName),
                Make(Action::Operand(QualifiedOf)),
                Part(Rule::InExpression(PostfixMore)),
                Part(Rule::InExpression(ArgumentsMore)),
            ]),
            Some(Kind::OpenIndex) => Choice::Takes(&[
                Make(Action::Operand(ConstantOf)),
                Part(Rule::InExpression(Seq)),
                Word(Kind::Close),
                Leave,
                Make(Action::Operand(ElementOf)),
                Make(Action::Operand(FetchOf)),
                Part(Rule::InExpression(PostfixMore)),
                Leave,
                Part(Rule::InExpression(ArgumentsMore)),
            ]),
            Some(
                Kind::Number
                | Kind::True
                | Kind::False
                | Kind::LowerName
                | Kind::UpperName
                | Kind::Open
                | Kind::OpenBracket
                | Kind::Begin,
            ) => Choice::Passes(&[
                Part(Rule::InExpression(Postfix)),
                Make(Action::Operand(BuildOf)),
            ]),
            _ => Choice::Passes(&[Make(Action::Operand(ConstantOf))]),
        },
        ArgumentsMore => match next {
            Some(
                Kind::Number
                | Kind::True
                | Kind::False
                | Kind::LowerName
                | Kind::UpperName
                | Kind::Open
                | Kind::OpenBracket
                | Kind::Begin,
            ) => Choice::Passes(&[
                Part(Rule::InExpression(Postfix)),
                Make(Action::Operand(CallOf)),
                Part(Rule::InExpression(ArgumentsMore)),
                Leave,
            ]),
            _ => Choice::Passes(&[]),
        },
        Postfix => Choice::Passes(&[
            Part(Rule::InExpression(Atom)),
            Part(Rule::InExpression(PostfixMore)),
        ]),
        PostfixMore => match next {
            Some(Kind::OpenIndex) => Choice::Takes(&[
                Part(Rule::InExpression(Seq)),
                Word(Kind::Close),
                Leave,
                Make(Action::Operand(ElementOf)),
                Make(Action::Operand(FetchOf)),
                Part(Rule::InExpression(PostfixMore)),
                Leave,
            ]),
            _ => Choice::Passes(&[]),
        },
        Atom => match next {
            Some(Kind::UpperName) => Choice::Takes(&[
                Make(Action::Named),
                Part(Rule::InExpression(UpperAtom)),
            ]),
            _ => Choice::Passes(&[Part(Rule::InExpression(PlainAtom))]),
        },
        UpperAtom => match next {
            Some(Kind::Dot) => Choice::Takes(&[
                Word(Kind::LowerName),
                Make(Action::Operand(QualifiedOf)),
            ]),
            _ => Choice::Passes(&[Make(Action::Operand(ConstantOf))]),
        },
        PlainAtom => match next {
            Some(Kind::Number) => Choice::Takes(&[Make(Action::Operand(Literal))]),
            _ => Choice::Passes(&[Part(Rule::InExpression(OtherAtom))]),
        },
        OtherAtom => match next {
            Some(Kind::True) => Choice::Takes(&[Make(Action::Operand(Truth))]),
            Some(Kind::False) => Choice::Takes(&[Make(Action::Operand(Untruth))]),
            Some(Kind::LowerName) => Choice::Takes(&[Make(Action::Operand(UseOf))]),
            Some(Kind::Open) => Choice::Takes(&[
                Make(Action::Mark),
                Part(Rule::InExpression(Inside)),
                Leave,
            ]),
            Some(Kind::OpenBracket) => Choice::Takes(&[
                Make(Action::Block(NoTrees)),
                Part(Rule::InExpression(ListInside)),
                Make(Action::Block(ListLiteral)),
                Leave,
            ]),
            Some(Kind::Begin) => Choice::Takes(&[
                Make(Action::Mark),
                Part(Rule::InExpression(Seq)),
                Word(Kind::End),
                Make(Action::Operand(BlockOf)),
                Leave,
            ]),
            _ => Choice::Refuses,
        },
        Inside => match next {
            Some(Kind::Close) => Choice::Takes(&[Make(Action::Operand(UnitHere))]),
            _ => Choice::Passes(&[
                Part(Rule::InExpression(Seq)),
                Word(Kind::Close),
                Make(Action::Operand(Enclosed)),
            ]),
        },
        ListInside => match next {
            Some(Kind::CloseBracket) => Choice::Takes(&[]),
            _ => Choice::Passes(&[
                Part(Rule::InExpression(Expression)),
                Make(Action::Block(AppendTree)),
                Part(Rule::InExpression(ListMore)),
            ]),
        },
        ListMore => match next {
            Some(Kind::CloseBracket) => Choice::Takes(&[]),
            Some(Kind::Semicolon) => Choice::Takes(&[Part(Rule::InExpression(ListInside))]),
            _ => Choice::Refuses,
        },
    }
}
