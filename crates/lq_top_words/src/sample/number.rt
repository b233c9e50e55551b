// Numbers in texts.
ghost use Rattle.std.specs.Prelude.{◌≡◌, ◌++◌, OnOk};
ghost use Rattle.lq_top_words.specs.Sample.Continued.{Continues};
ghost use Rattle.lq_top_words.specs.Sample.Sample.{numbered};

use itoa::Buffer;
use std::alloc::AllocError;

// Writes a word with a number behind the bytes.
#[tactic(auto, using(crate::specs::Sample::Continued::continuing))]
pub(crate) fn push_numbered(text: &mut Vec<u8>, word: &[u8], n: u64) -> Result<(), AllocError>
    ensures written { OnOk result (text.new.items ≡ text.old.items ++ numbered word.now n) }
    ensures begins { Continues text.old.items text.new.items }
{
    text.extend_from_slice(word)?;
    let mut number = Buffer::new();
    text.extend_from_slice(number.format(n).as_bytes())
}
