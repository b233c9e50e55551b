// What the lines of a table say.
use crate::programs::notation::{Piece, joined, row_of};
use crate::programs::refusals::refused_of;
use lq_base_names::NameText;
use lq_text_refusal::Refused;
use std::alloc::{AllocError, Global};
use std::str;

/// A line of a table.
#[derive(Drop)]
pub(crate) enum Line {
    /// `words "lq" "check" "p.ml"`: the words of the command.
    Words(Vec<String>),
    /// `file "p.ml" TEXT`: a file of the folder.
    File(String, Vec<u8>),
    /// `fetch fails 0 2`: the calls of the folder that fail, counted from 0.
    FetchFails(Vec<u64>),
    /// `sink takes 5`: the greatest number of bytes that the sink takes at a call.
    SinkTakes(usize),
    /// `sink fails 1`: the calls of the sink that fail, counted from 0.
    SinkFails(Vec<u64>),
    /// `run`: a run with what was set since the last one.
    Run,
    /// `check TEXT`: the same with this text as `p.ml`.
    Check(Vec<u8>),
    /// `calm TEXT`: a run with this text as `p.ml` over a folder and a sink that never fail.
    Calm(Vec<u8>),
    /// `prefixes`: runs on the proper prefixes of `p.ml`, with what was set since the last one.
    Prefixes,
    /// `refusal at program 1 2 3` and the other forms: the line on a refusal.
    Refusal(Refused),
}

// The piece as a word.
fn word_of(alloc: Global, piece: &Piece) -> Result<Option<String>, AllocError> {
    match str::from_utf8(&piece.bytes) {
        Ok(word) => Ok(Some(String::from_str(alloc, word)?)),
        Err(_) => Ok(None),
    }
}

fn words_of(alloc: Global, pieces: &[Piece]) -> Result<Option<Line>, AllocError> {
    let mut words = Vec::new(alloc);
    for piece in pieces {
        let Some(word) = word_of(alloc, piece)? else {
            return Ok(None);
        };
        words.push(word)?;
    }
    Ok(Some(Line::Words(words)))
}

fn file_of(alloc: Global, pieces: &[Piece]) -> Result<Option<Line>, AllocError> {
    let [name, text @ ..] = pieces else {
        return Ok(None);
    };
    let Some(name) = word_of(alloc, name)? else {
        return Ok(None);
    };
    Ok(Some(Line::File(name, joined(alloc, text)?)))
}

// The numbers of a line behind so many words.
fn numbers_of(alloc: Global, head: &str, words: usize) -> Result<Option<Vec<u64>>, AllocError> {
    let mut numbers = Vec::new(alloc);
    for word in head.split_whitespace().skip(words) {
        let Ok(number) = word.parse::<u64>() else {
            return Ok(None);
        };
        numbers.push(number)?;
    }
    Ok(Some(numbers))
}

// The first number, from 1 on.
fn takes_of(numbers: &[u64]) -> Option<Line> {
    match numbers {
        [0] => None,
        [most] => Some(Line::SinkTakes(usize::try_from(*most).ok()?)),
        _ => None,
    }
}

// `refusal`, its form, the text where it has one, and its numbers.
fn refusal_of(alloc: Global, head: &str, pieces: &[Piece]) -> Result<Option<Line>, AllocError> {
    let name = joined(alloc, pieces)?;
    let name = NameText::new(alloc, str::from_utf8(&name).unwrap_or(""))?;
    let mut words = head.split_whitespace().skip(1);
    let form = words.next().unwrap_or("");
    let kind = if form == "counted" {
        ""
    } else {
        words.next().unwrap_or("")
    };
    let before = if form == "counted" { 2 } else { 3 };
    let Some(numbers) = numbers_of(alloc, head, before)? else {
        return Ok(None);
    };
    Ok(match refused_of(form, kind, &numbers, name) {
        Some(refused) => Some(Line::Refusal(refused)),
        None => None,
    })
}

/// What a line says, where it is in the notation.
pub(crate) fn line_of(alloc: Global, line: &str) -> Result<Option<Line>, AllocError> {
    let Some(row) = row_of(alloc, line)? else {
        return Ok(None);
    };
    let head = row.head.as_str();
    if head.starts_with("refusal ") {
        return refusal_of(alloc, head, &row.pieces);
    }
    let Some(numbers) = numbers_of(alloc, head, 2)? else {
        return Ok(None);
    };
    let mut words = head.split_whitespace();
    let first = words.next().unwrap_or("");
    let second = words.next().unwrap_or("");
    Ok(match (first, second) {
        ("words", "") => words_of(alloc, &row.pieces)?,
        ("file", "") => file_of(alloc, &row.pieces)?,
        ("fetch", "fails") => Some(Line::FetchFails(numbers)),
        ("sink", "takes") => takes_of(&numbers),
        ("sink", "fails") => Some(Line::SinkFails(numbers)),
        ("run", "") => Some(Line::Run),
        ("check", "") => Some(Line::Check(joined(alloc, &row.pieces)?)),
        ("prefixes", "") => Some(Line::Prefixes),
        ("calm", "") => Some(Line::Calm(joined(alloc, &row.pieces)?)),
        _ => None,
    })
}
