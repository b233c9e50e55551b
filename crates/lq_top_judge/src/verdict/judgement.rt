// What the judgement of a program is, and why there is none.
ghost use Rattle.std.specs.Prelude.{◌≡◌};
ghost use Rattle.lq_top_judge.specs.declared.verdict.judgement.Refusal.TheVariants.{Memory};

use crate::verdict::counting::Counts;
use lq_base_names::TextBuf;
use std::alloc::AllocError;
use thiserror::Error;

/// What the judgement of a program is.
#[derive(Debug, Drop)]
pub enum Judgement {
    /// The implications of the program have a strongest solution. The text has the types of its definitions, a line each.
    Accepted(TextBuf),
    /// They have no solution. The first text tells the first demand that fails and a point at which it does, the second one its hypotheses
    /// and its goal as well.
    Rejected(TextBuf, TextBuf),
    /// A number was past 128 bits, or a check took more pivots than the limit. The text tells the implication, and what stopped it.
    Undecided(TextBuf),
}

/// A judgement, and how much was solved for it.
#[derive(Debug, Drop)]
pub struct Judged {
    pub counts: Counts,
    pub judgement: Judgement,
}

/// Why a program is not judged.
#[derive(Debug, Drop, Error)]
pub enum Refusal {
    /// The number of the refusal, and the line that reports it.
    #[error("refused with code {0}")]
    Code(u8, TextBuf),
    /// Memory ran out.
    #[error("out of memory")]
    Memory,
}

impl From<AllocError> for Refusal {
    ghost from_gives = { λ _ e. e ≡ Memory };

    fn from(_: AllocError) -> Self {
        Refusal::Memory
    }
}
