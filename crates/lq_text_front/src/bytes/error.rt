// Why texts aren't judged.
ghost use Rattle.std.specs.Prelude.{◌≡◌};
ghost use Rattle.lq_text_front.specs.declared.bytes.error.Refusing.TheVariants.{Memory};

use lq_text_refusal::Refused;
use std::alloc::AllocError;
use thiserror::Error;

/// Why texts aren't judged.
#[derive(Debug, Drop, Error)]
pub enum Refusing {
    /// They are refused.
    #[error("refused with a code")]
    Refused(Refused),
    #[error("out of memory")]
    Memory,
}

impl From<AllocError> for Refusing {
    ghost from_gives = { λ _ e. e ≡ Memory };

    fn from(_: AllocError) -> Self {
        Refusing::Memory
    }
}
