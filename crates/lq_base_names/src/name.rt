// Names and binders, and what they have in common.
ghost use Rattle.std.specs.Prelude.{◌≡◌, ℕ};

/// A name of a source text: the number of its text in a name table.
#[derive(Clone, Copy, Debug, PartialEq, Eq, PartialOrd, Ord, Hash)]
pub struct Name(pub u32);

/// The predeclared names, which have the same numbers in every table.
impl Name {
    pub const INT: Name = Name(0);

    pub const BOOL: Name = Name(1);

    pub const UNIT: Name = Name(2);

    pub const ARRAY: Name = Name(3);

    pub const LIST: Name = Name(4);

    pub const OPTION: Name = Name(5);

    pub const MAP: Name = Name(6);

    pub const NIL: Name = Name(7);

    pub const CONS: Name = Name(8);

    pub const NONE: Name = Name(9);

    pub const SOME: Name = Name(10);

    pub const TYPE_VARIABLE_A: Name = Name(11);
}

/// A place where a name is bound. Each has a number of its own.
#[derive(Clone, Copy, Debug, PartialEq, Eq, PartialOrd, Ord, Hash)]
pub struct Binder(pub u32);

/// What the variables of a tree are: names once it is parsed, binders once it is scoped.
pub trait Ident: Copy {
    ghost number: { Self → ℕ };

    fn number(self) -> u32
        ensures { result ≡ number self };

    fn from_number(n: u32) -> Self
        ensures { number result ≡ n };
}

impl Ident for Name {
    ghost number = { λ n. n.0 };

    fn number(self) -> u32 {
        self.0
    }

    fn from_number(n: u32) -> Name {
        Name(n)
    }
}

impl Ident for Binder {
    ghost number = { λ n. n.0 };

    fn number(self) -> u32 {
        self.0
    }

    fn from_number(n: u32) -> Binder {
        Binder(n)
    }
}
