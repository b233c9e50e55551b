// The lines that report refusals.
ghost use Rattle.std.specs.Prelude.{◌≡◌, ◌<◌, ◌++◌, codes, decimal, IfOk, OnOk};
ghost use Rattle.lq_text_refusal.specs.Continued.{Continues};
ghost use Rattle.lq_text_refusal.specs.Refusals.{name_of, kind_text, place_text, head_text, located_text, refusal_line};

use crate::Refused;
use itoa::Buffer;
use lq_base_names::{Place, TextBuf, TextKind};
use std::alloc::{AllocError, Global};

// The name of a code; one that isn't from 1 to 16 has the empty name.
fn name_of(code: u8) -> &'static [u8]
    ensures { result.now ≡ name_of code }
{
    match code {
        1 => b"BadByte",
        2 => b"OpenComment",
        3 => b"LiteralPast",
        4 => b"Syntax",
        5 => b"TooDeep",
        6 => b"Unknown",
        7 => b"Twice",
        8 => b"Arity",
        9 => b"NotPositive",
        10 => b"NotStructural",
        11 => b"BadSort",
        12 => b"IllTyped",
        13 => b"WeakType",
        14 => b"TypePast",
        15 => b"InstancesPast",
        16 => b"ImplicationsPast",
        _ => b"",
    }
}

fn kind_text(kind: TextKind) -> &'static [u8]
    ensures { result.now ≡ kind_text kind }
{
    match kind {
        TextKind::Program => b"program",
        TextKind::Measures => b"measures",
        TextKind::Quals => b"quals",
    }
}

#[tactic(auto, using(crate::specs::Continued::continuing))]
fn push_number(line: &mut Vec<u8>, n: u64) -> Result<(), AllocError>
    ensures written { OnOk result (line.new.items ≡ line.old.items ++ decimal n) }
    ensures begins { Continues line.old.items line.new.items }
{
    let mut number = Buffer::new();
    line.extend_from_slice(number.format(n).as_bytes())
}

/// Writes a line and a column behind the bytes.
#[tactic(auto, using(crate::specs::Continued::continuing))]
pub fn push_place(line: &mut Vec<u8>, place: Place) -> Result<(), AllocError>
    ensures written { OnOk result (line.new.items ≡ line.old.items ++ place_text place) }
    ensures begins { Continues line.old.items line.new.items }
{
    push_number(line, place.line as u64)?;
    line.extend_from_slice(b":")?;
    push_number(line, place.column as u64)
}

// The front of a line, with the code and its name.
fn head_of(alloc: Global, code: u8) -> Result<Vec<u8>, AllocError>
    ensures { IfOk result (λ v. v.items ≡ head_text code) }
{
    let mut line = Vec::from_slice(alloc, b"refused ")?;
    push_number(&mut line, code as u64)?;
    line.extend_from_slice(b" ")?;
    line.extend_from_slice(name_of(code))?;
    Ok(line)
}

// The same with the text and the place.
fn located(alloc: Global, code: u8, place: Place) -> Result<Vec<u8>, AllocError>
    ensures { IfOk result (λ v. v.items ≡ located_text code place) }
{
    let mut line = head_of(alloc, code)?;
    line.extend_from_slice(b" in ")?;
    line.extend_from_slice(kind_text(place.text))?;
    line.extend_from_slice(b" at ")?;
    push_place(&mut line, place)?;
    Ok(line)
}

// Writes what was wanted and what was found.
fn push_wanted(line: &mut Vec<u8>, wanted: u64, found: u64) -> Result<(), AllocError>
    ensures { OnOk result (line.new.items ≡ line.old.items
        ++ (codes ": wanted " ++ decimal wanted ++ codes " found " ++ decimal found)) }
{
    line.extend_from_slice(b": wanted ")?;
    push_number(line, wanted)?;
    line.extend_from_slice(b" found ")?;
    push_number(line, found)
}

// Writes a number behind a word.
fn push_told(line: &mut Vec<u8>, word: &[u8], n: u64) -> Result<(), AllocError>
    ensures { OnOk result (line.new.items ≡ line.old.items ++ (word.now ++ decimal n)) }
{
    line.extend_from_slice(word)?;
    push_number(line, n)
}

// The line without its end.
fn line_of(alloc: Global, refused: &Refused) -> Result<Vec<u8>, AllocError>
    ensures { IfOk result (λ v. v.items ++ codes "\n" ≡ refusal_line refused.now) }
{
    match refused {
        Refused::At(code, place) => located(alloc, *code, *place),
        Refused::Named(code, place, name) => {
            let mut line = located(alloc, *code, *place)?;
            line.extend_from_slice(b": ")?;
            line.extend_from_slice(name.as_bytes())?;
            Ok(line)
        }
        Refused::Wanted(code, place, wanted, found) => {
            let mut line = located(alloc, *code, *place)?;
            push_wanted(&mut line, *wanted, *found)?;
            Ok(line)
        }
        Refused::Nodes(code, place, count) => {
            let mut line = located(alloc, *code, *place)?;
            push_told(&mut line, b": nodes ", *count)?;
            Ok(line)
        }
        Refused::Counted(code, count) => {
            let mut line = head_of(alloc, *code)?;
            push_told(&mut line, b": count ", *count)?;
            Ok(line)
        }
    }
}

/// The line that reports a refusal: its code and the code's name, the text and the place in it, and what else is told.
pub fn refusal_text(alloc: Global, refused: &Refused) -> Result<TextBuf, AllocError>
    ensures { IfOk result (λ t. t ≡ refusal_line refused.now) }
{
    let mut line = line_of(alloc, refused)?;
    line.extend_from_slice(b"\n")?;
    Ok(TextBuf::from_bytes(line))
}
