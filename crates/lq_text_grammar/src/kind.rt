// The kinds of tokens.
ghost use Rattle.std.specs.Prelude.{◌≡◌};
ghost use Rattle.lq_text_grammar.specs.Kinds.{same_kind};

/// A token as the grammars see it: without its text, and without its value.
#[derive(Clone, Copy, Debug, PartialEq, Eq)]
pub enum Kind {
    Assert,
    Begin,
    Else,
    End,
    False,
    Fun,
    If,
    In,
    Let,
    Match,
    Mod,
    Not,
    Of,
    Rec,
    Then,
    True,
    Type,
    With,
    Measure,
    Qualif,
    LowerName,
    UpperName,
    TypeVariable,
    Number,
    /// A number of exactly `LITERAL_LIMIT`, which stands only directly behind a unary minus.
    LimitNumber,
    Underscore,
    /// `;;`
    DoubleSemicolon,
    Arrow,
    LeftArrow,
    DoubleColon,
    LessEqual,
    GreaterEqual,
    NotEqual,
    DoubleAmpersand,
    DoubleBar,
    /// `<=>`
    Equivalence,
    /// `.(`
    OpenIndex,
    Open,
    Close,
    OpenBracket,
    CloseBracket,
    Comma,
    Semicolon,
    Bar,
    Colon,
    Equal,
    Less,
    Greater,
    Plus,
    Minus,
    Star,
    Slash,
    Dot,
    /// A reserved word that no rule uses.
    Reserved,
}

impl Kind {
    pub(crate) fn same(self, other: Kind) -> bool
        ensures { result ≡ same_kind self other }
    {
        self as u8 == other as u8
    }
}
