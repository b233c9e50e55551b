// Cases as typed programs in normal form.
ghost use Rattle.std.specs.Prelude.{IfOk, IfSome};
ghost use Rattle.lq_cases_rules.specs.Cases.{IsPosable};

use crate::calling::{Labels, labels_of, name_of, sources_of};
use crate::case::Case;
use crate::texts::texts_of;
use lq_base_names::{Name, NameTable};
use lq_generate_reading::notes::{Noted, note, noted_are_known};
use lq_meaning_normalize::made_names::made_numbers;
use lq_meaning_normalize::normalize::{NormalProgram, normal};
use lq_refined_substitution::substitution::Scopes;
use lq_refined_subtyping::table::RefinedTypes;
use lq_sound_readiness::normal_texts::typed_texts_have_rules;
use lq_sound_readiness::text_programs::noted_texts_are_ready;
use lq_text_front::texts::ScopedTexts;
use lq_text_qualifiers::sorting::{ScopedMeasure, ScopedQualifier};
use lq_text_walk::scoped::{DataType, Scoped};
use lq_top_answers::assignment::{Assignment, Given};
use lq_top_answers::type_text::{Parameters, Shown, shown};
use lq_types_infer::annotation::infer;
use lq_types_infer::instantiation::instantiate;
use std::alloc::{AllocError, Global};

/// A typed program with its normal form, and its measures and qualifiers.
#[derive(Drop)]
pub(crate) struct Typed {
    pub(crate) noted: Noted,
    pub(crate) normal: NormalProgram,
    pub(crate) measures: Vec<ScopedMeasure>,
    pub(crate) qualifiers: Vec<ScopedQualifier>,
}

impl Typed {
    /// The program with its names bound.
    pub(crate) fn scoped(&self) -> &Scoped {
        self.noted.program().annotated().scoped()
    }
}

// What a case is, or None where a text of it is refused.
fn typed_case(
    alloc: Global,
    names: &mut NameTable,
    case: &Case,
) -> Result<Option<Typed>, AllocError>
    ensures { IfOk result (λ found. IfSome found IsPosable) }
{
    typed_texts_have_rules();
    noted_are_known();
    noted_texts_are_ready();
    let Some(texts) = texts_of(alloc, names, case)? else {
        return Ok(None);
    };
    let ScopedTexts {
        program,
        measures,
        qualifiers,
    } = texts;
    let normal = normal(alloc, &program)?;
    let Ok(annotated) = infer(alloc, program) else {
        return Ok(None);
    };
    let Some(value) = name_of(names, "v")? else {
        return Ok(None);
    };
    let program = instantiate(alloc, annotated)?;
    let noted = note(alloc, program, value)?;
    Ok(Some(Typed {
        noted,
        normal,
        measures,
        qualifiers,
    }))
}

// Puts a row at a number, behind empty ones.
fn put_row(
    alloc: Global,
    rows: &mut Vec<Vec<Name>>,
    number: usize,
    row: Vec<Name>,
) -> Result<(), AllocError> {
    for _ in 0..u32::MAX {
        if rows.len() > number {
            break;
        }
        rows.push(Vec::new(alloc))?;
    }
    if let Some(place) = rows.get_mut(number) {
        *place = row;
    }
    Ok(())
}

fn copy_of(alloc: Global, names: &[Name]) -> Result<Vec<Name>, AllocError> {
    let mut row = Vec::new(alloc);
    row.extend_from_slice(names)?;
    Ok(row)
}

/// The names of the parameters of the predeclared datatypes and of these.
pub(crate) fn parameters_of(
    alloc: Global,
    datatypes: &[DataType],
) -> Result<Parameters, AllocError> {
    let mut rows = Vec::new(alloc);
    let single = vec![in alloc; Name::TYPE_VARIABLE_A]?;
    put_row(
        alloc,
        &mut rows,
        Name::LIST.0 as usize,
        copy_of(alloc, &single)?,
    )?;
    put_row(alloc, &mut rows, Name::OPTION.0 as usize, single)?;
    for datatype in datatypes {
        let row = copy_of(alloc, &datatype.parameters)?;
        put_row(alloc, &mut rows, datatype.name.0 as usize, row)?;
    }
    Ok(Parameters { rows })
}

/// The type of a number of a table under an assignment; None where there is no such number.
pub(crate) fn tree_of(
    alloc: Global,
    types: &mut RefinedTypes,
    scopes: &Scopes,
    assignment: &Assignment,
    row: usize,
) -> Result<Option<Shown>, AllocError> {
    if row >= types.len() {
        return Ok(None);
    }
    let given = Given { scopes, assignment };
    let tree = shown(alloc, types, &given, row);
    let Given {
        scopes: _scopes,
        assignment: _assignment,
    } = given;
    Ok(Some(tree?))
}

/// A typed program, and what its names are called.
#[derive(Drop)]
pub(crate) struct Labelled {
    pub(crate) typed: Typed,
    pub(crate) labels: Labels,
}

// What the binders of a program are called.
fn labels_for(alloc: Global, mut names: NameTable, typed: &Typed) -> Result<Labels, AllocError> {
    let scoped = typed.scoped();
    let labels = labels_of(alloc, &mut names, scoped)?;
    let sources = sources_of(alloc, scoped)?;
    let made = made_numbers(alloc, &sources, typed.normal.definitions())?;
    let parameters = parameters_of(alloc, scoped.datatypes())?;
    Ok(Labels {
        names,
        labels,
        sources,
        made,
        parameters,
    })
}

/// What a case is, and what its names are called.
pub(crate) fn labelled_case(alloc: Global, case: &Case) -> Result<Option<Labelled>, AllocError>
    ensures { IfOk result (λ found. IfSome found (λ l. IsPosable l.typed)) }
{
    let mut names = NameTable::new(alloc)?;
    let Some(typed) = typed_case(alloc, &mut names, case)? else {
        return Ok(None);
    };
    let labels = labels_for(alloc, names, &typed)?;
    Ok(Some(Labelled { typed, labels }))
}

/// One line alone.
pub(crate) fn one_line(alloc: Global, line: &str) -> Result<Vec<String>, AllocError> {
    let line = String::from_str(alloc, line)?;
    let lines = vec![in alloc; line]?;
    Ok(lines)
}

/// Bytes as text.
pub(crate) fn text_from(alloc: Global, bytes: Vec<u8>) -> Result<String, AllocError> {
    match String::from_utf8(bytes) {
        Ok(text) => Ok(text),
        Err(_) => String::from_str(alloc, "?"),
    }
}
