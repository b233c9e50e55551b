// What binders are called: the second binder of a name `x` is `x@2`.
ghost use Rattle.lq_logic_text.specs.Views.{IsTold};

use crate::texts::text_of;
use lq_base_names::{Binder, Name, NameTable};
use lq_logic_text::Calling;
use lq_text_walk::scoped::Scoped;
use lq_top_answers::type_text::{Parameters, Writing};
use std::alloc::{AllocError, Global};

// A table with so many names has room for one more.
const ROOM: u32 = 1 << 31;

/// The name of a text, which is added where the table lacks it.
pub(crate) fn name_of(names: &mut NameTable, text: &str) -> Result<Option<Name>, AllocError> {
    if names.len() > ROOM {
        return Ok(None);
    }
    Ok(Some(names.intern(text)?))
}

/// The source name of each binder.
pub(crate) fn sources_of(alloc: Global, scoped: &Scoped) -> Result<Vec<Option<Name>>, AllocError> {
    let mut sources = Vec::new(alloc);
    for at in 0..scoped.binders() {
        if at < ROOM as usize {
            sources.push(scoped.source_of(Binder(at as u32)))?;
        }
    }
    Ok(sources)
}

// How many of these are the name.
fn count_of(sources: &[Option<Name>], name: Name) -> usize {
    let mut count: usize = 0;
    for source in sources {
        if *source == Some(name) {
            count = count.saturating_add(1);
        }
    }
    count
}

// What a binder with this source name is called, so many of which came before.
fn label_for(
    alloc: Global,
    names: &mut NameTable,
    name: Name,
    before: usize,
) -> Result<Option<Name>, AllocError> {
    if before == 0 {
        return Ok(Some(name));
    }
    let ordinal = before.saturating_add(1);
    let text = text_of(names, name);
    let label = format!(in alloc; "{text}@{ordinal}")?;
    name_of(names, label.as_str())
}

/// What each binder of a program is called.
pub(crate) fn labels_of(
    alloc: Global,
    names: &mut NameTable,
    scoped: &Scoped,
) -> Result<Vec<Option<Name>>, AllocError> {
    let sources = sources_of(alloc, scoped)?;
    let mut labels = Vec::new(alloc);
    for at in 0..sources.len() {
        let label = match sources[at] {
            Some(name) => label_for(alloc, names, name, count_of(&sources[..at], name))?,
            None => None,
        };
        labels.push(label)?;
    }
    Ok(labels)
}

/// The texts of names, what each binder is called where those of one name are told apart, its source name, the numbers of made names, and the
/// names of parameters.
#[derive(Drop)]
pub(crate) struct Labels {
    pub(crate) names: NameTable,
    pub(crate) labels: Vec<Option<Name>>,
    pub(crate) sources: Vec<Option<Name>>,
    pub(crate) made: Vec<Option<usize>>,
    pub(crate) parameters: Parameters,
}

impl Labels {
    pub(crate) fn calling(&self) -> Calling<'_>
        ensures { IsTold result }
    {
        Calling {
            table: &self.names,
            sources: &self.labels,
            made: &self.made,
            ordinals: None,
        }
    }

    pub(crate) fn writing(&self) -> Writing<'_> {
        Writing {
            table: &self.names,
            sources: &self.sources,
            made: &self.made,
            parameters: &self.parameters,
        }
    }
}
