// The lines of a sample program's counts.
ghost use Rattle.std.specs.Prelude.{◌≡◌, ◌++◌, OnOk};
ghost use Rattle.lq_top_words.specs.Sample.Continued.{Continues};
ghost use Rattle.lq_top_words.specs.Sample.Sample.{count_line, counts_text};

use crate::sample::number::push_numbered;
use std::alloc::AllocError;

/// Writes the four counts, a line each, behind the bytes.
#[tactic(auto, using(crate::specs::Sample::Continued::continuing))]
pub fn push_counts(
    text: &mut Vec<u8>,
    functions: u64,
    unknowns: u64,
    instances: u64,
    implications: u64,
) -> Result<(), AllocError>
    ensures written { OnOk result (text.new.items ≡ text.old.items
        ++ counts_text functions unknowns instances implications) }
    ensures begins { Continues text.old.items text.new.items }
{
    push_count(text, b"functions ", functions)?;
    push_count(text, b"unknowns ", unknowns)?;
    push_count(text, b"instances ", instances)?;
    push_count(text, b"implications ", implications)
}

// Writes a line with a word and a number.
#[tactic(auto, using(crate::specs::Sample::Continued::continuing))]
fn push_count(text: &mut Vec<u8>, word: &[u8], n: u64) -> Result<(), AllocError>
    ensures written { OnOk result (text.new.items ≡ text.old.items ++ count_line word.now n) }
    ensures begins { Continues text.old.items text.new.items }
{
    push_numbered(text, word, n)?;
    text.extend_from_slice(b"\n")
}
