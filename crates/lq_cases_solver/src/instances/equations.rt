// Equations of measures that a line asks for: `DATATYPE NUMBER: FIELD, FIELD = NAME`, where a field is a name, a number or `#1`.

use crate::instances::printing::{Names, pred_text};
use crate::instances::scopes::{Bound, bind};
use crate::instances::texts::{name_of, texts_of};
use lq_base_names::NameTable;
use lq_logic_predicates::{Preds, Symbol, Term, Terms};
use lq_refined_measures::equations::measure_facts;
use std::alloc::{AllocError, Global};

// The term that a text says.
fn term_of(alloc: Global, bound: &mut Vec<Bound>, text: &str) -> Result<Term, AllocError> {
    if let Ok(number) = text.parse::<i128>() {
        return Ok(Term::Whole(number));
    }
    match text.strip_prefix("#") {
        Some(number) => Ok(Term::Var(Symbol::Position(number.parse::<u32>().unwrap_or(0)))),
        None => Ok(Term::Var(bind(alloc, bound, text)?)),
    }
}

// The terms of fields.
fn terms_of(alloc: Global, bound: &mut Vec<Bound>, text: &str) -> Result<Terms, AllocError> {
    let mut terms = Terms::new(alloc)?;
    for field in text.split(",") {
        let field = field.trim();
        if !field.is_empty() {
            terms.push(term_of(alloc, bound, field)?)?;
        }
    }
    Ok(terms)
}

// The predicates, a line each.
fn lines_of(alloc: Global, names: &Names, facts: &Preds) -> Result<Vec<String>, AllocError> {
    let mut lines = Vec::new(alloc);
    for fact in facts.as_slice() {
        lines.push(pred_text(alloc, names, fact)?)?;
    }
    Ok(lines)
}

// The parts of a line: the datatype, the number, the fields and the value.
fn parts(text: &str) -> Option<(&str, usize, &str, &str)> {
    let (head, rest) = text.split_once(":")?;
    let (datatype, number) = head.split_once(" ")?;
    let (fields, value) = rest.split_once("=")?;
    match number.parse::<usize>() {
        Ok(number) => Some((datatype, number, fields, value.trim())),
        Err(_) => None,
    }
}

/// The equations that a line asks for.
pub(crate) fn equations_told(
    alloc: Global,
    program: &str,
    measures: &str,
    text: &str,
) -> Result<Vec<String>, AllocError> {
    let mut table = NameTable::new(alloc)?;
    let nothing = Vec::new(alloc);
    let Some(texts) = texts_of(alloc, &mut table, program, measures, "")? else {
        return Ok(nothing);
    };
    let Some((datatype, constructor, fields, value)) = parts(text) else {
        return Ok(nothing);
    };
    let Some(datatype) = name_of(&mut table, datatype)? else {
        return Ok(nothing);
    };
    let mut bound = Vec::new(alloc);
    let fields = terms_of(alloc, &mut bound, fields)?;
    let value = term_of(alloc, &mut bound, value)?;
    let facts = measure_facts(
        alloc,
        &texts.measures,
        datatype,
        constructor,
        &fields,
        &value,
    )?;
    let names = Names {
        table: &table,
        bound: &bound,
    };
    lines_of(alloc, &names, &facts)
}
