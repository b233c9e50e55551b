// What binders and the parameters of datatypes are called.
ghost use Rattle.std.specs.Prelude.{◌≡◌, ℕ, ◌+◌, ◌<◌, ◌≤◌, ◌^◌, length, map, slice_get, IfOk, OnOk};
ghost use Rattle.lq_types_infer.specs.Annotation.Whole.{program_of};
ghost use Rattle.lq_meaning_normalize.specs.MadeNames.Numbers.{made_number};
ghost use Rattle.lq_meaning_normalize.specs.Normalize.Made.{normal_view};
ghost use Rattle.lq_logic_text.specs.Calling.{AreOrdinals};
ghost use Rattle.lq_logic_text.specs.Views.{calling_view, made_view, source_view, IsTold};
ghost use Rattle.lq_text_walk.specs.Scoped.Views.{data_view};
ghost use Rattle.lq_text_walk.specs.Scoped.Whole.{scoped_view};
ghost use Rattle.lq_top_answers.specs.TypeText.Views.{names_at, parameters_view};
ghost use Rattle.lq_top_judge.specs.Verdict.Names.{called_by, parameters_among, parameters_in};
ghost use Rattle.lq_top_judge.specs.Verdict.Rows.{numbers_of, IsRowPut};

use lq_base_names::{Binder, Name, NameTable};
use lq_logic_text::Calling;
use lq_meaning_normalize::made_names::made_numbers;
use lq_text_walk::scoped::{DataType, Scoped};
use lq_top_answers::type_text::Parameters;
use lq_top_pose::TypedTexts;
use std::alloc::{AllocError, Global};

// The numbers of `list` and `option`, and of `'a`, which is their parameter.
const LIST: Name = Name(4);

const OPTION: Name = Name(5);

const VARIABLE: Name = Name(11);

// The source name of each binder.
pub(crate) fn binder_sources(
    alloc: Global,
    program: &Scoped,
) -> Result<Vec<Option<Name>>, AllocError>
    requires { length (scoped_view program.now).sources ≤ 2 ^ 31 }
    ensures { IfOk result (λ names. map source_view names.items ≡ (scoped_view program.now).sources) }
{
    let mut names = Vec::new(alloc);
    for at in 0..program.binders() {
        names.push(program.source_of(Binder(at as u32)))?;
    }
    Ok(names)
}

// Makes rows reach this number.
fn reach(alloc: Global, rows: &mut Vec<Vec<Name>>, number: usize) -> Result<(), AllocError>
    requires { number + 1 < 2 ^ 64 }
    ensures same { OnOk result ((d : ℕ) → names_at (slice_get rows.new.items d) ≡ names_at (slice_get rows.old.items d)) }
    ensures long { OnOk result (number + 1 ≤ length rows.new.items) }
{
    for _ in rows.len()..number + 1 {
        rows.push(Vec::new(alloc))?;
    }
    Ok(())
}

// Puts the row of a name in place of the one that it had.
fn put(alloc: Global, rows: &mut Vec<Vec<Name>>, name: Name, row: &[Name]) -> Result<(), AllocError>
    ensures { OnOk result (IsRowPut name.0 (numbers_of row.now) rows.old.items rows.new.items) }
{
    let number = name.0 as usize;
    reach(alloc, rows, number)?;
    rows[number] = Vec::from_slice(alloc, row)?;
    Ok(())
}

// The names of each datatype's parameters; those of the last one that has its name.
pub(crate) fn parameters_of(alloc: Global, datatypes: &[DataType]) -> Result<Parameters, AllocError>
    ensures { IfOk result (λ p. (d : ℕ) → parameters_view p d ≡ parameters_in (map data_view datatypes.now) d) }
{
    let mut rows = Vec::new(alloc);
    for datatype in datatypes {
        put(alloc, &mut rows, datatype.name, &datatype.parameters)?;
    }
    put(alloc, &mut rows, LIST, &[VARIABLE])?;
    put(alloc, &mut rows, OPTION, &[VARIABLE])?;
    Ok(Parameters { rows })
}

// The source name of each binder, and the k of each made name `%k`.
#[derive(Drop)]
pub(crate) struct Names {
    pub(crate) sources: Vec<Option<Name>>,
    pub(crate) made: Vec<Option<usize>>,
}

// What the binders of a program and of its normal form are called by.
pub(crate) fn names_of(alloc: Global, texts: &TypedTexts) -> Result<Names, AllocError>
    requires { length (program_of texts.now.noted.program.annotated).sources ≤ 2 ^ 31 }
    ensures sources { IfOk result (λ n. map source_view n.sources.items ≡ (program_of texts.now.noted.program.annotated).sources) }
    ensures made { IfOk result (λ n. made_view n.made.items
        ≡ made_number (program_of texts.now.noted.program.annotated).sources (normal_view texts.now.normal).items) }
{
    let sources = binder_sources(alloc, texts.noted.program().annotated().scoped())?;
    let made = made_numbers(alloc, &sources, texts.normal.definitions())?;
    Ok(Names { sources, made })
}

// What binders are called where they are told apart.
pub(crate) fn calling_of<'a>(
    table: &'a NameTable,
    names: &'a Names,
    ordinals: &'a [usize],
) -> Calling<'a>
    requires { AreOrdinals (map source_view names.now.sources.items) ordinals.now }
    ensures view { calling_view result ≡ called_by table.now (map source_view names.now.sources.items)
        (made_view names.now.made.items) }
    ensures told { IsTold result }
{
    Calling {
        table,
        sources: &names.sources,
        made: &names.made,
        ordinals: Some(ordinals),
    }
}
