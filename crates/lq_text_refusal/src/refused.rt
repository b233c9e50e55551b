// What a refusal tells.
ghost use Rattle.std.specs.Prelude.{◌≡◌};

use lq_base_names::{NameText, Place};

/// Why texts are refused: a code from 1 to 16, and what the line on it tells.
#[derive(Debug, Drop)]
pub enum Refused {
    /// A code at a place.
    At(u8, Place),
    /// The same with a name: that has no definition, or has one already.
    Named(u8, Place, NameText),
    /// The same with the number that was wanted and the one that was found.
    Wanted(u8, Place, u64, u64),
    /// The same with the number of nodes of a type.
    Nodes(u8, Place, u64),
    /// A code with a count that is past its limit.
    Counted(u8, u64),
}

impl Refused {
    ghost use Rattle.lq_text_refusal.specs.Refusals.{code_of};

    /// The code, whatever else is told.
    pub fn code(&self) -> u8
        ensures { result ≡ code_of self.now }
    {
        match self {
            Refused::At(code, _) => *code,
            Refused::Named(code, _, _) => *code,
            Refused::Wanted(code, _, _, _) => *code,
            Refused::Nodes(code, _, _) => *code,
            Refused::Counted(code, _) => *code,
        }
    }
}
