// An offset of a text with its line and column.
ghost use Rattle.std.specs.Prelude.{◌≡◌, ◌+◌, ◌<◌, ◌≤◌, length};

use lq_base_names::{Place, TextKind};

#[derive(Clone, Copy)]
pub(crate) struct Cursor {
    pub(crate) at: usize,
    pub(crate) line: u32,
    pub(crate) column: u32,
}

impl Cursor {
    ghost use Rattle.lq_text_lexer.specs.Places.{StandsAt, place_at};
    ghost use Rattle.lq_text_lexer.specs.declared.limits.TheConstants.{TEXT_LIMIT};

    pub(crate) fn start(text: &[u8]) -> Cursor
        ensures at { result.at ≡ 0 }
        ensures stands { StandsAt text.now result }
    {
        Cursor {
            at: 0,
            line: 1,
            column: 1,
        }
    }

    // Behind the byte at which it stands.
    pub(crate) fn next(self, text: &[u8]) -> Cursor
        requires small { length text.now ≤ TEXT_LIMIT }
        requires stands { StandsAt text.now self }
        requires inside { self.at < length text.now }
        ensures at { result.at ≡ self.at + 1 }
        ensures stands { StandsAt text.now result }
    {
        if text[self.at] == b'\n' {
            Cursor {
                at: self.at + 1,
                line: self.line + 1,
                column: 1,
            }
        } else {
            Cursor {
                at: self.at + 1,
                line: self.line,
                column: self.column + 1,
            }
        }
    }

    // Behind so many bytes.
    pub(crate) fn behind(self, text: &[u8], len: usize) -> Cursor
        requires small { length text.now ≤ TEXT_LIMIT }
        requires stands { StandsAt text.now self }
        requires inside { self.at + len ≤ length text.now }
        ensures at { result.at ≡ self.at + len }
        ensures stands { StandsAt text.now result }
    {
        let mut cursor = self;
        for count in 0..len {
            cursor = cursor.next(text);
        }
        cursor
    }

    pub(crate) fn place(self, kind: TextKind, text: &[u8]) -> Place
        requires { StandsAt text.now self }
        ensures { result ≡ place_at kind text.now self.at }
    {
        Place {
            text: kind,
            line: self.line,
            column: self.column,
        }
    }
}
