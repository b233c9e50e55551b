// How a case writes a text. Each character stands for itself, but `{N*unit}` for so many units behind one another, and `\n`, `\t`,
// `\r`, `\s` for a new line, a tabulator, a return and a space; `\x` and two digits are a byte in hexadecimal.
ghost use Rattle.std.specs.Prelude.{◌<◌};

use std::alloc::{AllocError, Global};

// The text with its repeated units written out.
fn repeated(alloc: Global, line: &str) -> Result<String, AllocError> {
    let mut text = String::new(alloc);
    for part in line.split('}') {
        let Some((before, repeat)) = part.split_once('{') else {
            text.push_str(part)?;
            continue;
        };
        text.push_str(before)?;
        let (count, unit) = repeat.split_once('*').unwrap_or(("0", ""));
        for _ in 0..count.parse::<u32>().unwrap_or(0) {
            text.push_str(unit)?;
        }
    }
    Ok(text)
}

// The value of a digit in hexadecimal.
fn digit(byte: u8) -> u8
    ensures { result < 16 }
{
    match byte {
        b'0'..=b'9' => byte - b'0',
        b'a'..=b'f' => byte - b'a' + 10,
        _ => 0,
    }
}

// Puts what stands behind a backslash.
fn put_escaped(text: &mut Vec<u8>, piece: &[u8]) -> Result<(), AllocError> {
    let rest = match piece {
        [b'x', high, low, rest @ ..] => {
            text.push(digit(*high) * 16 + digit(*low))?;
            rest
        }
        [mark, rest @ ..] => {
            text.push(match mark {
                b'n' => b'\n',
                b't' => b'\t',
                b'r' => b'\r',
                b's' => b' ',
                other => *other,
            })?;
            rest
        }
        [] => return Ok(()),
    };
    text.extend_from_slice(rest)?;
    Ok(())
}

// The bytes of a text that a case writes.
pub(crate) fn written(alloc: Global, line: &str) -> Result<Vec<u8>, AllocError> {
    let line = repeated(alloc, line)?;
    let mut text = Vec::new(alloc);
    for (at, piece) in line.as_str().split('\\').enumerate() {
        if at == 0 {
            text.extend_from_slice(piece.as_bytes())?;
        } else {
            put_escaped(&mut text, piece.as_bytes())?;
        }
    }
    Ok(text)
}
