// Names of binders.
use lq_base_names::{Binder, Name, NameTable};
use lq_text_walk::scoped::Scoped;
use std::alloc::{AllocError, Global};

// What the names of a program are read from: the texts of names, the source name of each binder, and the numbers of made names.
#[derive(Clone, Copy)]
pub(crate) struct Names<'a> {
    pub(crate) table: &'a NameTable,
    pub(crate) sources: &'a [Option<Name>],
    pub(crate) made: &'a [Option<usize>],
}

/// The source name of each binder.
pub(crate) fn sources_of(alloc: Global, scoped: &Scoped) -> Result<Vec<Option<Name>>, AllocError> {
    let mut sources = Vec::new(alloc);
    for at in 0..scoped.binders() {
        if let Ok(number) = u32::try_from(at) {
            sources.push(scoped.source_of(Binder(number)))?;
        }
    }
    Ok(sources)
}

pub(crate) fn text_of(table: &NameTable, name: Name) -> &str {
    if name.0 < table.len() {
        table.text(name)
    } else {
        "?"
    }
}

// How many of these are the name.
fn count_of(sources: &[Option<Name>], name: Name) -> usize {
    let mut count: usize = 0;
    for source in sources {
        if *source == Some(name) {
            count = count.saturating_add(1);
        }
    }
    count
}

impl<'a> Names<'a> {
    // The source name of a binder, and how many binders before it have the same.
    fn source_of(&self, binder: Binder) -> Option<(Name, usize)> {
        let at = binder.0 as usize;
        if at >= self.sources.len() {
            return None;
        }
        match self.sources[at] {
            Some(name) => Some((name, count_of(&self.sources[..at], name))),
            None => None,
        }
    }

    // The k of a made name `%k`.
    fn made_of(&self, binder: Binder) -> Option<usize> {
        let at = binder.0 as usize;
        if at < self.made.len() {
            self.made[at]
        } else {
            None
        }
    }

    /// The text of a binder: its source name, with `@k` where that is the name's binder k from the second on, or `%k` for a made name.
    pub(crate) fn binder_text(&self, alloc: Global, binder: Binder) -> Result<String, AllocError> {
        match (self.source_of(binder), self.made_of(binder)) {
            (Some((name, 0)), _) => String::from_str(alloc, text_of(self.table, name)),
            (Some((name, before)), _) => {
                let text = text_of(self.table, name);
                let number = before.saturating_add(1);
                format!(in alloc; "{text}@{number}")
            }
            (None, Some(made)) => format!(in alloc; "%{made}"),
            (None, None) => String::from_str(alloc, "?"),
        }
    }
}
