// Why texts didn't come.
ghost use Rattle.std.specs.Prelude.{◌≡◌, IfOk};
ghost use Rattle.lq_top_words.specs.Inputs.Visits.{file_line};
ghost use Rattle.lq_top_words.specs.declared.inputs.fault.NotFetched.TheVariants.{Memory};

use lq_base_names::TextBuf;
use std::alloc::{AllocError, Global};
use thiserror::Error;

/// Why the texts didn't come.
#[derive(Debug, Drop, Error)]
pub enum NotFetched {
    /// The line on the first file that didn't come.
    #[error("a file did not come")]
    File(TextBuf),
    /// Memory ran out.
    #[error("out of memory")]
    Memory,
}

impl From<AllocError> for NotFetched {
    ghost from_gives = { λ _ e. e ≡ Memory };

    fn from(_: AllocError) -> Self {
        NotFetched::Memory
    }
}

// A line on a file.
pub(crate) fn file_report(alloc: Global, what: &[u8], name: &str) -> Result<TextBuf, AllocError>
    ensures { IfOk result (λ r. r ≡ file_line what.now name.now) }
{
    let mut line = Vec::from_slice(alloc, what)?;
    line.extend_from_slice(name.as_bytes())?;
    line.extend_from_slice(b"\n")?;
    Ok(TextBuf::from_bytes(line))
}
