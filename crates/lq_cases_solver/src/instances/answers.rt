// Instances as text.

use crate::instances::printing::{Names, pred_text};
use crate::instances::scopes::read_asked;
use crate::instances::texts::texts_of;
use lq_base_names::NameTable;
use lq_refined_instances::{InstanceList, Instances, QualError, all_instances};
use std::alloc::{AllocError, Global};

// The instances of an unknown, a line each.
fn list_told(
    alloc: Global,
    names: &Names,
    list: &InstanceList,
    lines: &mut Vec<String>,
) -> Result<(), AllocError> {
    for at in 0..list.len() {
        if let Some(instance) = list.get(at) {
            lines.push(pred_text(alloc, names, instance)?)?;
        }
    }
    Ok(())
}

// The instances of all unknowns, with a line between those of one and those of the next.
fn all_told(alloc: Global, names: &Names, all: &Instances) -> Result<Vec<String>, AllocError> {
    let mut lines = Vec::new(alloc);
    for at in 0..all.len() {
        if at > 0 {
            lines.push(String::from_str(alloc, "and")?)?;
        }
        if let Some(list) = all.get(at) {
            list_told(alloc, names, list, &mut lines)?;
        }
    }
    Ok(lines)
}

// One line.
fn alone(alloc: Global, text: String) -> Result<Vec<String>, AllocError> {
    let mut lines = Vec::new(alloc);
    lines.push(text)?;
    Ok(lines)
}

/// The instances that a line asks for, or why there are none.
pub(crate) fn told(
    alloc: Global,
    program: &str,
    measures: &str,
    qualifiers: &str,
    text: &str,
) -> Result<Vec<String>, AllocError> {
    let mut table = NameTable::new(alloc)?;
    let Some(texts) = texts_of(alloc, &mut table, program, measures, qualifiers)? else {
        return alone(alloc, String::from_str(alloc, "no texts")?);
    };
    let asked = read_asked(alloc, &mut table, text)?;
    let names = Names {
        table: &table,
        bound: &asked.bound,
    };
    match all_instances(alloc, &texts.qualifiers, &texts.measures, &asked.unknowns) {
        Ok(all) => all_told(alloc, &names, &all),
        Err(QualError::InstancesPast(count)) => alone(alloc, format!(in alloc; "15: {count}")?),
        Err(QualError::Memory) => Err(AllocError),
    }
}
