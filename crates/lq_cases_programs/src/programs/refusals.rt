// Refusals by their codes, and the lines that report them.
ghost use Rattle.std.specs.Prelude.{◌≡◌, true};

use crate::programs::notation::quoted;
use lq_base_names::{NameText, Place, TextKind};
use lq_text_refusal::{Refused, refusal_text};
use std::alloc::{AllocError, Global};

fn kind_of(word: &str) -> Option<TextKind> {
    match word {
        "program" => Some(TextKind::Program),
        "measures" => Some(TextKind::Measures),
        "quals" => Some(TextKind::Quals),
        _ => None,
    }
}

fn place_of(kind: TextKind, line: u64, column: u64) -> Option<Place> {
    Some(Place {
        text: kind,
        line: u32::try_from(line).ok()?,
        column: u32::try_from(column).ok()?,
    })
}

/// The refusal of this form, whose text is told by a word, and whose name stands in quotes.
pub(crate) fn refused_of(
    form: &str,
    kind: &str,
    numbers: &[u64],
    name: NameText,
) -> Option<Refused> {
    match (form, kind_of(kind), numbers) {
        ("at", Some(kind), [code, line, column]) => Some(Refused::At(
            u8::try_from(*code).ok()?,
            place_of(kind, *line, *column)?,
        )),
        ("named", Some(kind), [code, line, column]) => Some(Refused::Named(
            u8::try_from(*code).ok()?,
            place_of(kind, *line, *column)?,
            name,
        )),
        ("wanted", Some(kind), [code, line, column, wanted, found]) => Some(Refused::Wanted(
            u8::try_from(*code).ok()?,
            place_of(kind, *line, *column)?,
            *wanted,
            *found,
        )),
        ("nodes", Some(kind), [code, line, column, nodes]) => Some(Refused::Nodes(
            u8::try_from(*code).ok()?,
            place_of(kind, *line, *column)?,
            *nodes,
        )),
        ("counted", None, [code, count]) => {
            Some(Refused::Counted(u8::try_from(*code).ok()?, *count))
        }
        _ => None,
    }
}

/// The line on the refusal.
pub(crate) fn refused_text(alloc: Global, refused: &Refused) -> Result<String, AllocError> {
    quoted(alloc, refusal_text(alloc, refused)?.as_bytes())
}
