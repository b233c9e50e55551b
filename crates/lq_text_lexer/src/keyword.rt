// The reserved words.
ghost use Rattle.std.specs.Prelude.{◌≡◌};
ghost use Rattle.lq_text_lexer.specs.Keywords.{keyword_of, keyword_among, reserved_word, unused_word, is_unused, is_among, operator_words, binding_words, branch_words, heading_words, module_words, loop_words, other_words};

use lq_base_names::TextKind;

/// A word that is a name in no text, or in programs alone.
#[derive(Clone, Copy, Debug, PartialEq, Eq)]
pub enum Keyword {
    Assert,
    Begin,
    Else,
    End,
    False,
    Fun,
    If,
    In,
    Let,
    Match,
    Measure,
    Mod,
    Not,
    Of,
    Qualif,
    Rec,
    Then,
    True,
    Type,
    With,
    /// A reserved word of OCaml that no rule uses.
    Unused,
}

fn operator_word(word: &[u8], other: Option<Keyword>) -> Option<Keyword>
    ensures { result ≡ keyword_among operator_words other word.now }
{
    if word == b"assert".as_slice() {
        Some(Keyword::Assert)
    } else if word == b"false".as_slice() {
        Some(Keyword::False)
    } else if word == b"mod".as_slice() {
        Some(Keyword::Mod)
    } else if word == b"not".as_slice() {
        Some(Keyword::Not)
    } else if word == b"true".as_slice() {
        Some(Keyword::True)
    } else {
        other
    }
}

fn binding_word(word: &[u8], other: Option<Keyword>) -> Option<Keyword>
    ensures { result ≡ keyword_among binding_words other word.now }
{
    match word {
        b"fun" => Some(Keyword::Fun),
        b"in" => Some(Keyword::In),
        b"let" => Some(Keyword::Let),
        b"of" => Some(Keyword::Of),
        b"rec" => Some(Keyword::Rec),
        b"type" => Some(Keyword::Type),
        _ => other,
    }
}

fn branch_word(word: &[u8], other: Option<Keyword>) -> Option<Keyword>
    ensures { result ≡ keyword_among branch_words other word.now }
{
    match word {
        b"begin" => Some(Keyword::Begin),
        b"else" => Some(Keyword::Else),
        b"end" => Some(Keyword::End),
        b"if" => Some(Keyword::If),
        b"match" => Some(Keyword::Match),
        b"then" => Some(Keyword::Then),
        b"with" => Some(Keyword::With),
        _ => other,
    }
}

fn heading_word(word: &[u8], other: Option<Keyword>) -> Option<Keyword>
    ensures { result ≡ keyword_among heading_words other word.now }
{
    if word == b"measure".as_slice() {
        Some(Keyword::Measure)
    } else if word == b"qualif".as_slice() {
        Some(Keyword::Qualif)
    } else {
        other
    }
}

fn is_module_word(word: &[u8]) -> bool
    ensures { result ≡ is_among module_words word.now }
{
    matches!(
        word,
        b"external" | b"functor" | b"include" | b"module" | b"object" | b"open" | b"sig" | b"struct"
    )
}

fn is_loop_word(word: &[u8]) -> bool
    ensures { result ≡ is_among loop_words word.now }
{
    matches!(
        word,
        b"do" | b"done" | b"downto" | b"exception" | b"for" | b"to" | b"try" | b"when" | b"while"
    )
}

fn is_other_word(word: &[u8]) -> bool
    ensures { result ≡ is_among other_words word.now }
{
    matches!(
        word,
        b"and" | b"as" | b"function" | b"lazy" | b"mutable" | b"or" | b"val"
    )
}

fn is_unused(word: &[u8]) -> bool
    ensures { result ≡ is_unused word.now }
{
    is_module_word(word) || is_loop_word(word) || is_other_word(word)
}

fn unused_word(word: &[u8]) -> Option<Keyword>
    ensures { result ≡ unused_word word.now }
{
    if is_unused(word) {
        Some(Keyword::Unused)
    } else {
        None
    }
}

fn reserved_word(word: &[u8]) -> Option<Keyword>
    ensures { result ≡ reserved_word word.now }
{
    operator_word(
        word,
        binding_word(word, branch_word(word, unused_word(word))),
    )
}

// Which keyword of this text the word is.
pub(crate) fn keyword_of(kind: TextKind, word: &[u8]) -> Option<Keyword>
    ensures { result ≡ keyword_of kind word.now }
{
    match kind {
        TextKind::Program => reserved_word(word),
        TextKind::Measures | TextKind::Quals => heading_word(word, reserved_word(word)),
    }
}
