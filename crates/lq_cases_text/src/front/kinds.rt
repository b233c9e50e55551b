// The kinds of tokens by their names.
use lq_text_grammar::Kind;

const KINDS: [(&str, Kind); 54] = [
    ("Assert", Kind::Assert),
    ("Begin", Kind::Begin),
    ("Else", Kind::Else),
    ("End", Kind::End),
    ("False", Kind::False),
    ("Fun", Kind::Fun),
    ("If", Kind::If),
    ("In", Kind::In),
    ("Let", Kind::Let),
    ("Match", Kind::Match),
    ("Mod", Kind::Mod),
    ("Not", Kind::Not),
    ("Of", Kind::Of),
    ("Rec", Kind::Rec),
    ("Then", Kind::Then),
    ("True", Kind::True),
    ("Type", Kind::Type),
    ("With", Kind::With),
    ("Measure", Kind::Measure),
    ("Qualif", Kind::Qualif),
    ("LowerName", Kind::LowerName),
    ("UpperName", Kind::UpperName),
    ("TypeVariable", Kind::TypeVariable),
    ("Number", Kind::Number),
    ("LimitNumber", Kind::LimitNumber),
    ("Underscore", Kind::Underscore),
    ("DoubleSemicolon", Kind::DoubleSemicolon),
    ("Arrow", Kind::Arrow),
    ("LeftArrow", Kind::LeftArrow),
    ("DoubleColon", Kind::DoubleColon),
    ("LessEqual", Kind::LessEqual),
    ("GreaterEqual", Kind::GreaterEqual),
    ("NotEqual", Kind::NotEqual),
    ("DoubleAmpersand", Kind::DoubleAmpersand),
    ("DoubleBar", Kind::DoubleBar),
    ("Equivalence", Kind::Equivalence),
    ("OpenIndex", Kind::OpenIndex),
    ("Open", Kind::Open),
    ("Close", Kind::Close),
    ("OpenBracket", Kind::OpenBracket),
    ("CloseBracket", Kind::CloseBracket),
    ("Comma", Kind::Comma),
    ("Semicolon", Kind::Semicolon),
    ("Bar", Kind::Bar),
    ("Colon", Kind::Colon),
    ("Equal", Kind::Equal),
    ("Less", Kind::Less),
    ("Greater", Kind::Greater),
    ("Plus", Kind::Plus),
    ("Minus", Kind::Minus),
    ("Star", Kind::Star),
    ("Slash", Kind::Slash),
    ("Dot", Kind::Dot),
    ("Reserved", Kind::Reserved),
];

// The kind of this name.
pub(crate) fn kind_of_name(name: &str) -> Option<Kind> {
    for (known, kind) in &KINDS {
        if *known == name {
            return Some(*kind);
        }
    }
    None
}
