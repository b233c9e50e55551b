// The words of a command line.
ghost use Rattle.std.specs.Prelude.{◌≡◌, ℕ, List, [], ◌∷◌, ◌++◌, length, map, slice_get, string_bytes, IfOk, OnOk, OnErr};
ghost use Rattle.std.specs.Option.{option_map};

use std::alloc::{AllocError, Global};
use std::marker::Model;

/// The words of a command line, the program's name first.
#[derive(Drop)]
pub struct Words {
    alloc: Global,
    list: Vec<String>,
}

impl Model for Words {
    ghost Value = { List (List ℕ) };

    ghost view = { λ w. map string_bytes w.list.items };
}

impl Words {
    /// No words.
    pub fn new(alloc: Global) -> Result<Words, AllocError>
        ensures { IfOk result (λ words. words ≡ []) }
    {
        Ok(Words {
            alloc,
            list: Vec::new(alloc),
        })
    }

    /// Puts a word behind the others.
    pub fn push(&mut self, word: &str) -> Result<(), AllocError>
        ensures ok { OnOk result (self.new ≡ self.old ++ word.now ∷ []) }
        ensures err { OnErr result (self.new ≡ self.old) }
    {
        let word = String::from_str(self.alloc, word)?;
        self.list.push(word)?;
        Ok(())
    }

    /// How many words there are.
    pub fn len(&self) -> usize
        ensures { result ≡ length self.now }
    {
        self.list.len()
    }

    /// The word at this index, from 0.
    pub fn get(&self, at: usize) -> Option<&str>
        ensures { option_map (λ word. word.now) result ≡ slice_get self.now at }
    {
        Some(self.list.get(at)?.as_str())
    }

    // The words as texts.
    pub(crate) fn texts(&self) -> &[String]
        ensures { map string_bytes result.now ≡ self.now }
    {
        self.list.as_slice()
    }
}
