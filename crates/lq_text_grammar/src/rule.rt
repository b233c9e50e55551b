// The parts of the grammars.

/// Programs.
#[derive(Clone, Copy, Debug, PartialEq, Eq)]
pub enum ProgramPart {
    Program,
    Items,
    AfterItem,
    Item,
    LetItem,
    TypeHead,
    TypeParameters,
    TypeBody,
    FirstConstructor,
    ConstructorsMore,
    Constructor,
    ConstructorFields,
    FieldsMore,
}

/// Types.
#[derive(Clone, Copy, Debug, PartialEq, Eq)]
pub enum TypePart {
    WholeType,
    ArrowMore,
    TypeProduct,
    ProductTail,
    ProductMore,
    TypeApplied,
    TypeNames,
    TypesInside,
    TypesMore,
}

/// Bindings and parameters.
#[derive(Clone, Copy, Debug, PartialEq, Eq)]
pub enum BindingPart {
    RecBind,
    RecFirst,
    RecRest,
    RecFun,
    RecFunRest,
    LetTail,
    LetRest,
    FunTail,
    FunRest,
    Parameter,
    ParameterInside,
    SimplesInside,
    Simple,
}

/// Expressions.
#[derive(Clone, Copy, Debug, PartialEq, Eq)]
pub enum ExpressionPart {
    Seq,
    SeqTail,
    SeqSecond,
    SeqMore,
    SeqNext,
    Expression,
    LetHead,
    AfterLetName,
    AfterLetAny,
    LetTuple,
    LetInside,
    FunFirst,
    FirstArm,
    ArmsMore,
    Arm,
    ElsePart,
    UpperHead,
    HeadMore,
    IndexTail,
    AfterIndexed,
    CallRest,
    OperandRest,
    TupleTail,
    TupleMore,
    Disjunction,
    OrMore,
    Conjunction,
    AndMore,
    Comparison,
    CompareMore,
    ConsChain,
    ConsMore,
    Sum,
    AddMore,
    Product,
    MulMore,
    Negation,
    AfterMinus,
    Application,
    UpperMore,
    ArgumentsMore,
    Postfix,
    PostfixMore,
    Atom,
    UpperAtom,
    PlainAtom,
    OtherAtom,
    Inside,
    ListInside,
    ListMore,
}

/// Patterns.
#[derive(Clone, Copy, Debug, PartialEq, Eq)]
pub enum PatternPart {
    Pattern,
    PatternRest,
    PatternTuple,
    PatternInner,
    PatternArguments,
    ArgumentsInside,
}

/// Qualifiers and measures.
#[derive(Clone, Copy, Debug, PartialEq, Eq)]
pub enum EntryPart {
    Quals,
    QualsMore,
    QualifierName,
    QualifierRest,
    Measures,
    MeasuresMore,
    FirstEquation,
    EquationsMore,
    Equation,
}

/// Predicates and terms.
#[derive(Clone, Copy, Debug, PartialEq, Eq)]
pub enum PredPart {
    Predicate,
    IffMore,
    PredDisjunction,
    PredOrMore,
    PredConjunction,
    PredAndMore,
    PredNegation,
    PredCompareMore,
    Term,
    TermAddMore,
    TermProduct,
    TermMulMore,
    TermNegation,
    AfterTermMinus,
    TermAtom,
    OtherTermAtom,
    TermArgument,
    UpperTerm,
    QualifiedArgument,
}

/// A part of the grammars, with alternatives of its own.
#[derive(Clone, Copy, Debug, PartialEq, Eq)]
pub enum Rule {
    InProgram(ProgramPart),
    InType(TypePart),
    InBinding(BindingPart),
    InExpression(ExpressionPart),
    InPattern(PatternPart),
    InEntry(EntryPart),
    InPred(PredPart),
}
