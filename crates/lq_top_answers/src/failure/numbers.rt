// How numbers are written.
ghost use Rattle.std.specs.Prelude.{◌≡◌, ◌++◌, codes, decimal, OnOk};
ghost use Rattle.lq_top_answers.specs.Failure.Numbers.{frac_text, past_text};

use itoa::Buffer;
use lq_base_numbers::fractions::{Frac, NumOp, NumberPast};
use lq_logic_text::push_whole;
use std::alloc::AllocError;

/// Writes a count behind the bytes.
pub(crate) fn push_count(line: &mut Vec<u8>, n: u64) -> Result<(), AllocError>
    ensures { OnOk result (line.new.items ≡ line.old.items ++ decimal n) }
{
    let mut number = Buffer::new();
    line.extend_from_slice(number.format(n).as_bytes())?;
    Ok(())
}

/// Writes a fraction in lowest terms behind the bytes.
pub(crate) fn push_fraction(line: &mut Vec<u8>, f: &Frac) -> Result<(), AllocError>
    ensures { OnOk result (line.new.items ≡ line.old.items ++ frac_text f.now) }
{
    push_whole(line, f.numer())?;
    if f.denom() != 1 {
        line.extend_from_slice(b"/")?;
        push_whole(line, f.denom())?;
    }
    Ok(())
}

fn push_operation(
    line: &mut Vec<u8>,
    left: &Frac,
    sign: &[u8],
    right: &Frac,
) -> Result<(), AllocError>
    ensures { OnOk result (line.new.items ≡ line.old.items ++ (frac_text left.now ++ sign.now
        ++ frac_text right.now)) }
{
    push_fraction(line, left)?;
    line.extend_from_slice(sign)?;
    push_fraction(line, right)
}

fn push_negation(line: &mut Vec<u8>, f: &Frac) -> Result<(), AllocError>
    ensures { OnOk result (line.new.items ≡ line.old.items ++ (codes "-" ++ frac_text f.now)) }
{
    line.extend_from_slice(b"-")?;
    push_fraction(line, f)
}

/// Writes an operation on fractions behind the bytes.
pub(crate) fn push_past(line: &mut Vec<u8>, past: &NumberPast) -> Result<(), AllocError>
    ensures { OnOk result (line.new.items ≡ line.old.items ++ past_text past.now) }
{
    match past.op {
        NumOp::Add => push_operation(line, &past.left, b" + ", &past.right),
        NumOp::Sub => push_operation(line, &past.left, b" - ", &past.right),
        NumOp::Mul => push_operation(line, &past.left, b" * ", &past.right),
        NumOp::Div => push_operation(line, &past.left, b" / ", &past.right),
        NumOp::Neg => push_negation(line, &past.left),
    }
}
