// The symbols.
ghost use Rattle.std.specs.Prelude.{◌≡◌};
ghost use Rattle.lq_text_lexer.specs.Symbols.{is_pair, is_triple, is_single, symbol_len};

fn is_pair(a: u8, b: u8) -> bool
    ensures { result ≡ is_pair a b }
{
    matches!(
        (a, b),
        (b';', b';')
            | (b'-', b'>')
            | (b'<', b'-')
            | (b':', b':')
            | (b'<', b'=')
            | (b'>', b'=')
            | (b'<', b'>')
            | (b'&', b'&')
            | (b'|', b'|')
            | (b'.', b'(')
    )
}

fn is_triple(a: u8, b: u8, c: u8) -> bool
    ensures { result ≡ is_triple a b c }
{
    a == b'<' && b == b'=' && c == b'>'
}

fn is_single(a: u8) -> bool
    ensures { result ≡ is_single a }
{
    b"()[],;:|=<>+-*/.".contains(&a)
}

// The length of the longest symbol at the front, 0 where there is none.
#[tactic(auto, unfolding(crate::specs::Symbols::symbol_len))]
pub(crate) fn symbol_len(text: &[u8]) -> usize
    ensures { result ≡ symbol_len text.now }
{
    match text {
        [a, b, c, ..] if is_triple(*a, *b, *c) => 3,
        [a, b, ..] if is_pair(*a, *b) => 2,
        [a, ..] if is_single(*a) => 1,
        _ => 0,
    }
}
