/// Which of the three texts a place is in.
#[derive(Clone, Copy, Debug, PartialEq, Eq, PartialOrd, Ord, Hash)]
pub enum TextKind {
    Program,
    Measures,
    Quals,
}

/// A place in a text. The first line and the first column have number 1; a column is a byte.
#[derive(Clone, Copy, Debug, PartialEq, Eq, PartialOrd, Ord, Hash)]
pub struct Place {
    pub text: TextKind,
    pub line: u32,
    pub column: u32,
}
