// Texts are fetched, one file after another.
ghost use Rattle.std.specs.Prelude.{◌≡◌, ◌≤◌, ◌<◌, ℕ, List, length, IfErr, IfOk, IsErr, OnOk};
ghost use Rattle.std.specs.Option.{option_map};
ghost use Rattle.lq_top_words.specs.Inputs.Visits.{visit, IsFileFault, IsHanded};
ghost use Rattle.lq_top_words.specs.Inputs.Wanted.{wanted_by, names_in, AreHanded, IsFaultIfNamed, IsHandedIfNamed, IfTold, WasFault};
ghost use Rattle.lq_top_words.specs.declared.inputs.inputs.TheConstants.{FILE_LIMIT};

use crate::command::Judge;
use crate::inputs::fault::{NotFetched, file_report};
use crate::inputs::inputs::{FILE_LIMIT, Inputs};
use lq_base_io::{FetchError, Folder};
use std::alloc::Global;

/// Fetches the texts that the command names: the program, then the measures, then the qualifiers.
///
/// The folder may tell nothing of what it holds, as that of a machine does; the clauses then say what can be said by its counts.
pub fn fetch_inputs<F: Folder>(
    alloc: Global,
    files: &Judge<'_>,
    folder: &mut F,
) -> Result<Inputs, NotFetched>
    // The folder didn't fail, and the texts are what it holds.
    ensures handed { let v = visit F.files F.absents F.failures folder.old folder.new in
        IfOk result (λ i. AreHanded v (wanted_by files.now) i.program.items i.measures.items i.quals.items) }
    ensures program { IfOk result (λ i. length i.program.items ≤ FILE_LIMIT) }
    ensures measures { IfOk result (λ i. length i.measures.items ≤ FILE_LIMIT) }
    ensures quals { IfOk result (λ i. length i.quals.items ≤ FILE_LIMIT) }
    // The line is on the first file that didn't come.
    ensures fault { let v = visit F.files F.absents F.failures folder.old folder.new in
        IfErr result (IfTold (WasFault v (names_in (wanted_by files.now)))) }
    ensures fails { F.failures folder.old < F.failures folder.new → IsErr result }
{
    let program = fetch_text(alloc, files.program, folder)?;
    let measures = fetch_named(alloc, files.measures, folder)?;
    let quals = fetch_named(alloc, files.quals, folder)?;
    Ok(Inputs {
        program,
        measures,
        quals,
    })
}

// The text of a file, and nothing where none is named.
fn fetch_named<F: Folder>(
    alloc: Global,
    name: Option<&str>,
    folder: &mut F,
) -> Result<Vec<u8>, NotFetched>
    ensures handed { let v = visit F.files F.absents F.failures folder.old folder.new in
        IfOk result (λ text. IsHandedIfNamed v (option_map (λ n. n.now) name.entry) text.items) }
    ensures bound { IfOk result (λ text. length text.items ≤ FILE_LIMIT) }
    ensures calm { OnOk result (F.failures folder.new ≡ F.failures folder.old) }
    ensures fault { let v = visit F.files F.absents F.failures folder.old folder.new in
        IfErr result (IfTold (IsFaultIfNamed v (option_map (λ n. n.now) name.entry))) }
    ensures absents { F.absents folder.old ≤ F.absents folder.new }
    ensures failures { F.failures folder.old ≤ F.failures folder.new }
    ensures same { F.files folder.new ≡ F.files folder.old }
{
    match name {
        Some(name) => fetch_text(alloc, name, folder),
        None => Ok(Vec::new(alloc)),
    }
}

// The text of a file.
fn fetch_text<F: Folder>(alloc: Global, name: &str, folder: &mut F) -> Result<Vec<u8>, NotFetched>
    ensures handed { let v = visit F.files F.absents F.failures folder.old folder.new in
        IfOk result (λ text. IsHanded v name.now text.items) }
    ensures bound { IfOk result (λ text. length text.items ≤ FILE_LIMIT) }
    ensures calm { OnOk result (F.failures folder.new ≡ F.failures folder.old) }
    ensures fault { let v = visit F.files F.absents F.failures folder.old folder.new in
        IfErr result (IfTold (IsFileFault v name.now)) }
    ensures absents { F.absents folder.old ≤ F.absents folder.new }
    ensures failures { F.failures folder.old ≤ F.failures folder.new }
    ensures same { F.files folder.new ≡ F.files folder.old }
{
    let mut text = Vec::new(alloc);
    let what = match folder.fetch(name, FILE_LIMIT, &mut text) {
        Ok(()) => return Ok(text),
        Err(FetchError::Memory) => return Err(NotFetched::Memory),
        Err(FetchError::Absent) => b"absent ".as_slice(),
        Err(FetchError::Failed) => b"failed ".as_slice(),
        Err(FetchError::TooLong) => b"too long ".as_slice(),
    };
    Err(NotFetched::File(file_report(alloc, what, name)?))
}
