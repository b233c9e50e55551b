// What actions make, and the symbols of the grammars.
use crate::kind::Kind;
use crate::rule::Rule;
use lq_base_names::{ArithOp, CompareOp};

/// Actions on the items of a program.
#[derive(Clone, Copy, Debug, PartialEq, Eq)]
pub enum ItemAction {
    NoItems,
    AddLet,
    AddRec,
    AddType,
    NoParameters,
    FirstParameter,
    AddParameter,
    NoConstructors,
    AddConstructor,
}

/// Actions on types as they are written.
#[derive(Clone, Copy, Debug, PartialEq, Eq)]
pub enum TypingAction {
    NoTypes,
    TwoTypes,
    AppendType,
    VariableType,
    NamedType,
    ApplyType,
    ApplyTypes,
    ProductType,
    ArrowType,
    TypeInside,
}

/// Actions on patterns and parameters.
#[derive(Clone, Copy, Debug, PartialEq, Eq)]
pub enum PatternAction {
    Bind,
    Any,
    UnitPattern,
    NilPattern,
    ConsPattern,
    NoPatterns,
    TwoPatterns,
    AppendPattern,
    TuplePattern,
    TupleHere,
    BuildPattern,
    PatternInside,
}

/// Actions on expressions with keywords.
#[derive(Clone, Copy, Debug, PartialEq, Eq)]
pub enum BlockAction {
    Function,
    FunctionHere,
    Recursive,
    RecursiveHere,
    LetIn,
    LetRecIn,
    NoArms,
    AppendArm,
    MatchOf,
    IfElse,
    IfOnly,
    AssertOf,
    NotOf,
    ChainOf,
    TupleOf,
    ListLiteral,
    NoTrees,
    TwoTrees,
    AppendTree,
}

/// Actions on operands.
#[derive(Clone, Copy, Debug, PartialEq, Eq)]
pub enum OperandAction {
    Literal,
    NegativeLiteral,
    Truth,
    Untruth,
    UseOf,
    QualifiedOf,
    ConstantOf,
    BuildOf,
    UnitHere,
    Enclosed,
    BlockOf,
    ElementOf,
    FetchOf,
    StoreOf,
    CallOf,
    NegateOf,
    ConsOf,
    AndOf,
    OrOf,
    ArithOf(ArithOp),
    CompareOf(CompareOp),
}

/// Actions on predicates and terms.
#[derive(Clone, Copy, Debug, PartialEq, Eq)]
pub enum PredAction {
    PredLiteral,
    PredNegative,
    PredTruth,
    PredUntruth,
    PredUse,
    PredPlaceholder,
    PredApply,
    PredQualified,
    PredNegate,
    PredNot,
    PredAnd,
    PredOr,
    IffOf,
    PredInside,
    PredArith(ArithOp),
    PredCompare(CompareOp),
}

/// Actions on the entries of the other two texts.
#[derive(Clone, Copy, Debug, PartialEq, Eq)]
pub enum EntryAction {
    NoQualifiers,
    AddQualifier,
    NoMeasures,
    AddMeasure,
    NoEquations,
    AppendEquation,
}

/// What is made of the token read last and of the values before it.
#[derive(Clone, Copy, Debug, PartialEq, Eq)]
pub enum Action {
    /// The place of the token is kept.
    Mark,
    /// The token is kept as a name with its place.
    Named,
    Item(ItemAction),
    Typing(TypingAction),
    Pattern(PatternAction),
    Block(BlockAction),
    Operand(OperandAction),
    Pred(PredAction),
    Entry(EntryAction),
}

/// What is still to be read.
#[derive(Clone, Copy, Debug, PartialEq, Eq)]
pub enum Symbol {
    /// A token of this kind.
    Word(Kind),
    Part(Rule),
    Make(Action),
    /// One level ends.
    Leave,
}

/// A step of a reading: a token is taken, or an action is due.
#[derive(Clone, Copy, Debug, PartialEq, Eq)]
pub enum Event {
    Take,
    Make(Action),
}
