// Texts that are owned, seen as their bytes.
ghost use Rattle.std.specs.Prelude.{◌≡◌, IfOk};

use std::alloc::{AllocError, Global};
use std::marker::Model;

/// The text of a name, as a refusal carries it beyond the life of the name table.
#[derive(Debug, Drop)]
pub struct NameText {
    text: String,
}

impl Model for NameText {
    ghost use Rattle.std.specs.Prelude.{List, ℕ};
    ghost use Rattle.std.specs.String.{string_bytes};

    ghost Value = { List ℕ };

    ghost view = { λ t. string_bytes t.text };
}

impl NameText {
    pub fn new(alloc: Global, text: &str) -> Result<NameText, AllocError>
        ensures { IfOk result (λ t. t ≡ text.now) }
    {
        Ok(NameText {
            text: String::from_str(alloc, text)?,
        })
    }

    pub fn as_bytes(&self) -> &[u8]
        ensures { result.now ≡ self.now }
    {
        self.text.as_bytes()
    }
}

/// A finished text of any bytes, such as a report.
#[derive(Debug, Drop)]
pub struct TextBuf {
    bytes: Vec<u8>,
}

impl Model for TextBuf {
    ghost use Rattle.std.specs.Prelude.{List, ℕ};

    ghost Value = { List ℕ };

    ghost view = { λ t. t.bytes.items };
}

impl TextBuf {
    pub fn from_bytes(bytes: Vec<u8>) -> TextBuf
        ensures { result ≡ bytes.items }
    {
        TextBuf { bytes }
    }

    pub fn as_bytes(&self) -> &[u8]
        ensures { result.now ≡ self.now }
    {
        &self.bytes
    }
}
