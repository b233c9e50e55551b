// A folder and a sink that never fail.
ghost use Rattle.std.specs.Prelude.{◌≡◌, Some, None};
ghost use Rattle.lq_base_io.specs.Held.{held_in};

use crate::memory::copy_within;
use crate::{FetchError, Folder, Sink, SinkFailed};
use std::collections::BTreeMap;

/// A folder in memory that never fails: its count of failures is always 0.
#[derive(Drop)]
pub struct CalmFolder {
    files: BTreeMap<String, Vec<u8>>,
    absents: u64,
}

impl CalmFolder {
    /// A folder of these files, to which no call has come.
    pub fn new(files: BTreeMap<String, Vec<u8>>) -> Self
        ensures holds { ⟦<CalmFolder as Folder>⟧.files result ≡ Some (held_in files) }
        ensures absents { ⟦<CalmFolder as Folder>⟧.absents result ≡ 0 }
        ensures failures { ⟦<CalmFolder as Folder>⟧.failures result ≡ 0 }
    {
        CalmFolder { files, absents: 0 }
    }

    /// The files by their names.
    pub fn files(&self) -> &BTreeMap<String, Vec<u8>>
        ensures { Some (held_in result.now) ≡ ⟦<CalmFolder as Folder>⟧.files self.now }
    {
        &self.files
    }
}

impl Folder for CalmFolder {
    ghost files = { λ s. Some (held_in s.files) };

    ghost absents = { λ s. s.absents };

    ghost failures = { λ _. 0 };

    fn fetch(&mut self, name: &str, limit: usize, into: &mut Vec<u8>) -> Result<(), FetchError> {
        let Some(bytes) = self.files.get(name) else {
            self.absents = self.absents.saturating_add(1);
            return Err(FetchError::Absent);
        };
        copy_within(bytes, limit, into)
    }
}

/// A sink that takes whatever comes, and keeps nothing of it, so that it needs no memory. It never
/// fails, and its count of faults is always 0.
#[derive(Drop)]
pub struct CalmSink;

impl Sink for CalmSink {
    ghost taken = { λ _. None };

    ghost faults = { λ _. 0 };

    fn write(&mut self, piece: &[u8]) -> Result<usize, SinkFailed> {
        Ok(piece.len())
    }
}
