// What a run is made with.
use crate::programs::notation::quoted;
use lq_base_io::{CalmFolder, CalmSink, MemFolder, MemSink};
use lq_top_app::{Words, run_words};
use std::alloc::{AllocError, Global};
use std::collections::BTreeMap;
use std::fmt::Write;

/// What a run is made with: by default `lq check p.ml` over an empty folder, and a sink that takes seven bytes at a call.
#[derive(Drop)]
pub(crate) struct Setting {
    pub(crate) words: Option<Vec<String>>,
    pub(crate) files: BTreeMap<String, Vec<u8>>,
    pub(crate) failing_fetches: Vec<u64>,
    pub(crate) most: usize,
    pub(crate) failing_writes: Vec<u64>,
}

fn command(alloc: Global, list: &Option<Vec<String>>) -> Result<Words, AllocError> {
    let mut words = Words::new(alloc)?;
    match list {
        Some(list) => {
            for word in list.iter() {
                words.push(word.as_str())?;
            }
        }
        None => {
            for word in ["lq", "check", "p.ml"] {
                words.push(word)?;
            }
        }
    }
    Ok(words)
}

impl Setting {
    /// The default.
    pub(crate) fn new(alloc: Global) -> Setting {
        Setting {
            words: None,
            files: BTreeMap::new(alloc),
            failing_fetches: Vec::new(alloc),
            most: 7,
            failing_writes: Vec::new(alloc),
        }
    }

    /// Puts a file into the folder.
    pub(crate) fn add_file(&mut self, name: String, text: Vec<u8>) -> Result<(), AllocError> {
        self.files.insert(name, text)?;
        Ok(())
    }

    /// The number of the status with which the run ends, and the bytes that the sink took.
    pub(crate) fn run(self, alloc: Global) -> Result<String, AllocError> {
        let words = command(alloc, &self.words)?;
        let mut folder = MemFolder::new(self.files, self.failing_fetches);
        let mut out = MemSink::new(Vec::new(alloc), self.most.max(1), self.failing_writes);
        let status = run_words(alloc, &words, &mut folder, &mut out);
        let taken = quoted(alloc, out.bytes())?;
        let number = status.number();
        format!(in alloc; "{number} {taken}")
    }

    // The number of the status of a run with this text as `p.ml`, where neither the folder nor the sink ever fails.
    fn status_on(&self, alloc: Global, text: &[u8]) -> Result<u8, AllocError> {
        let words = command(alloc, &self.words)?;
        let mut files = self.files.clone()?;
        let mut bytes = Vec::new(alloc);
        bytes.extend_from_slice(text)?;
        files.insert(String::from_str(alloc, "p.ml")?, bytes)?;
        let mut folder = CalmFolder::new(files);
        Ok(run_words(alloc, &words, &mut folder, &mut CalmSink).number())
    }

    /// The numbers of the statuses with which runs on each proper prefix of the file `p.ml` end, a digit each, the empty prefix first, where
    /// neither the folder nor the sink ever fails.
    pub(crate) fn prefixes(&self, alloc: Global) -> Result<String, AllocError> {
        let mut digits = String::new(alloc);
        let Some(text) = self.files.get("p.ml") else {
            return Ok(digits);
        };
        for end in 0..text.len() {
            let number = self.status_on(alloc, &text[..end])?;
            write!(digits, "{number}")?;
        }
        Ok(digits)
    }
}

/// The number of the status with which `lq check p.ml` ends on this text, where neither the folder nor the sink ever fails.
pub(crate) fn calm(alloc: Global, text: Vec<u8>) -> Result<String, AllocError> {
    let words = command(alloc, &None)?;
    let mut files = BTreeMap::new(alloc);
    files.insert(String::from_str(alloc, "p.ml")?, text)?;
    let mut folder = CalmFolder::new(files);
    let number = run_words(alloc, &words, &mut folder, &mut CalmSink).number();
    format!(in alloc; "{number}")
}
