// The text of a sample program.
ghost use Rattle.std.specs.Prelude.{◌≡◌, ◌≤◌, ◌++◌, ◌^◌, length, IfOk, OnOk};
ghost use Rattle.lq_top_words.specs.Sample.Sample.{assertion_text, function_text, sample_program_text, sample_qualifiers_text};

use crate::sample::number::push_numbered;
use std::alloc::{AllocError, Global};

/// A program of so many functions, each with an assertion about it. It is at most 1,048,576 bytes long.
pub fn sample_program(alloc: Global, count: u32) -> Result<Vec<u8>, AllocError>
    requires { count ≤ 2000 }
    ensures text { IfOk result (λ text. text.items ≡ sample_program_text count) }
    ensures short { IfOk result (λ text. length text.items ≤ 2 ^ 20) }
{
    let mut text = Vec::new(alloc);
    for index in 0..count {
        push_function(&mut text, index as u64 + 1)?;
        push_assertion(&mut text, index as u64 + 1)?;
    }
    Ok(text)
}

/// The qualifiers that a sample program is judged with.
pub fn sample_qualifiers() -> &'static [u8]
    ensures { result.now ≡ sample_qualifiers_text }
{
    b"qualif Nat (v : int): 0 <= v\n"
}

// Writes the function of this number.
fn push_function(text: &mut Vec<u8>, number: u64) -> Result<(), AllocError>
    ensures { OnOk result (text.new.items ≡ text.old.items ++ function_text number) }
{
    push_numbered(text, b"let rec f", number)?;
    push_numbered(text, b" n = if n <= 0 then 0 else ", number)?;
    push_numbered(text, b" + f", number)?;
    text.extend_from_slice(b" (n - 1)\n")
}

// Writes the assertion about it.
fn push_assertion(text: &mut Vec<u8>, number: u64) -> Result<(), AllocError>
    ensures { OnOk result (text.new.items ≡ text.old.items ++ assertion_text number) }
{
    push_numbered(text, b"let () = assert (0 <= f", number)?;
    push_numbered(text, b" ", number)?;
    text.extend_from_slice(b")\n")
}
