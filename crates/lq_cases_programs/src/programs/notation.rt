// Texts in quotes, with escapes and repeats.
use std::alloc::{AllocError, Global};

// Where an escape is.
#[derive(Clone, Copy)]
enum Escape {
    None,
    Begun,
    High,
    Low(u8),
}

fn digit_value(digit: u8) -> Option<u8> {
    match digit {
        b'0'..=b'9' => Some(digit - b'0'),
        b'a'..=b'f' => Some(digit - b'a' + 10),
        _ => None,
    }
}

// Where an escape is behind the byte, and the byte that is written where one is complete.
fn escape_behind(escape: Escape, byte: u8) -> Option<(Escape, Option<u8>)> {
    match (escape, byte) {
        (Escape::None, b'\\') => Some((Escape::Begun, None)),
        (Escape::None, byte) => Some((Escape::None, Some(byte))),
        (Escape::Begun, b'n') => Some((Escape::None, Some(b'\n'))),
        (Escape::Begun, b'r') => Some((Escape::None, Some(b'\r'))),
        (Escape::Begun, b't') => Some((Escape::None, Some(b'\t'))),
        (Escape::Begun, b'\\') => Some((Escape::None, Some(b'\\'))),
        (Escape::Begun, b'x') => Some((Escape::High, None)),
        (Escape::Begun, _) => None,
        (Escape::High, digit) => Some((Escape::Low(digit_value(digit)?), None)),
        (Escape::Low(high), digit) => {
            let low = digit_value(digit)?;
            Some((Escape::None, Some(high.wrapping_mul(16).wrapping_add(low))))
        }
    }
}

// The bytes between two quotes, where their escapes are complete.
fn unescaped(alloc: Global, text: &str) -> Result<Option<Vec<u8>>, AllocError> {
    let mut bytes = Vec::new(alloc);
    let mut escape = Escape::None;
    for byte in text.bytes() {
        let Some((behind, written)) = escape_behind(escape, byte) else {
            return Ok(None);
        };
        escape = behind;
        if let Some(byte) = written {
            bytes.push(byte)?;
        }
    }
    Ok(match escape {
        Escape::None => Some(bytes),
        Escape::Begun | Escape::High | Escape::Low(_) => None,
    })
}

// How often the piece before this stands: once, or as `* N` says.
fn times_of(between: &str) -> Option<usize> {
    let mut words = between.split_whitespace();
    match words.next() {
        None => Some(1),
        Some("*") => words.next()?.parse::<usize>().ok(),
        Some(_) => None,
    }
}

/// A piece in quotes, and how often it stands.
#[derive(Drop)]
pub(crate) struct Piece {
    pub(crate) bytes: Vec<u8>,
    pub(crate) times: usize,
}

/// A line of a table: what stands before the first quote, and the pieces.
#[derive(Drop)]
pub(crate) struct Row {
    pub(crate) head: String,
    pub(crate) pieces: Vec<Piece>,
}

/// Reads a line, where its quotes, escapes and repeats are in order.
pub(crate) fn row_of(alloc: Global, line: &str) -> Result<Option<Row>, AllocError> {
    let mut head = String::new(alloc);
    let mut pieces: Vec<Piece> = Vec::new(alloc);
    let mut inside = false;
    for (at, part) in line.split('"').enumerate() {
        inside = at % 2 == 1;
        if at == 0 {
            head.push_str(part)?;
        } else if inside {
            let Some(bytes) = unescaped(alloc, part)? else {
                return Ok(None);
            };
            pieces.push(Piece { bytes, times: 1 })?;
        } else {
            let (Some(times), Some(last)) = (times_of(part), pieces.last_mut()) else {
                return Ok(None);
            };
            last.times = times;
        }
    }
    if inside {
        return Ok(None);
    }
    Ok(Some(Row { head, pieces }))
}

/// The bytes of the pieces, one behind the other.
pub(crate) fn joined(alloc: Global, pieces: &[Piece]) -> Result<Vec<u8>, AllocError> {
    let mut bytes = Vec::new(alloc);
    for piece in pieces {
        for _ in 0..piece.times {
            bytes.extend_from_slice(&piece.bytes)?;
        }
    }
    Ok(bytes)
}

fn digit_of(value: u8) -> char {
    match value {
        0..=9 => (b'0' + value) as char,
        10..=15 => (b'a' + value - 10) as char,
        _ => '?',
    }
}

fn push_escaped(text: &mut String, byte: u8) -> Result<(), AllocError> {
    match byte {
        b'\n' => text.push_str("\\n"),
        b'\r' => text.push_str("\\r"),
        b'\t' => text.push_str("\\t"),
        b'\\' => text.push_str("\\\\"),
        b'"' | 0..=31 | 127..=255 => {
            text.push_str("\\x")?;
            text.push(digit_of(byte >> 4))?;
            text.push(digit_of(byte & 15))
        }
        _ => text.push(byte as char),
    }
}

/// The bytes in quotes.
pub(crate) fn quoted(alloc: Global, bytes: &[u8]) -> Result<String, AllocError> {
    let mut text = String::from_str(alloc, "\"")?;
    for byte in bytes {
        push_escaped(&mut text, *byte)?;
    }
    text.push('"')?;
    Ok(text)
}
