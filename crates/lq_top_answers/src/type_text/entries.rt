// Entries of matrices in types.
ghost use Rattle.std.specs.Prelude.{◌≡◌, ◌++◌, OnOk, IfOk};
ghost use Rattle.lq_logic_text.specs.Continued.{Continues};
ghost use Rattle.lq_top_answers.specs.TypeText.Types.{bracketed, entry_text, entry_texts, formulas, formulas_text, if_any, place_text};
ghost use Rattle.lq_top_answers.specs.TypeText.ShownView.{entries_view, entry_view, preds_view};
ghost use Rattle.lq_top_answers.specs.TypeText.Views.{writing_view};
ghost use Rattle.lq_top_answers.specs.TypeText.Rows.{is_open_behind, more_entries, opening};

use crate::type_text::predicates::push_predicates;
use crate::type_text::tree::Entry;
use crate::type_text::writing::{Writing, push_count};
use lq_base_names::Name;
use lq_logic_predicates::Preds;
use std::alloc::AllocError;

// Writes the predicates of an entry.
#[tactic(auto, using(crate::proofs::TypeTextLemmas::Known::formulas_known, lq_logic_text::specs::Continued::continuing))]
fn push_formulas(line: &mut Vec<u8>, writing: &Writing<'_>, preds: &Preds) -> Result<(), AllocError>
    ensures written { OnOk result (line.new.items ≡ line.old.items
        ++ formulas_text (writing_view writing.now).calling (formulas (preds_view preds.now))) }
    ensures begins { Continues line.old.items line.new.items }
{
    let calling = writing.calling();
    push_predicates(line, &calling, preds.as_slice())
}

// Writes the place of an entry of a datatype's matrix.
#[tactic(auto, using(lq_logic_text::specs::Continued::continuing))]
fn push_place(
    line: &mut Vec<u8>,
    writing: &Writing<'_>,
    data: Name,
    entry: &Entry,
) -> Result<(), AllocError>
    ensures written { OnOk result (line.new.items ≡ line.old.items
        ++ place_text (writing_view writing.now) data.0 (entry_view entry.now)) }
    ensures begins { Continues line.old.items line.new.items }
{
    writing.push_name(line, entry.constructor)?;
    line.extend_from_slice(b" ")?;
    push_count(line, entry.field as u64 + 1)?;
    line.extend_from_slice(b" ")?;
    writing.push_parameter(line, data, entry.parameter)
}

// Writes an entry of a datatype's matrix.
#[tactic(auto, using(lq_logic_text::specs::Continued::continuing))]
fn push_entry(
    line: &mut Vec<u8>,
    writing: &Writing<'_>,
    data: Name,
    entry: &Entry,
) -> Result<(), AllocError>
    ensures written { OnOk result (line.new.items ≡ line.old.items
        ++ entry_text (writing_view writing.now) data.0 (entry_view entry.now)) }
    ensures begins { Continues line.old.items line.new.items }
{
    push_place(line, writing, data, entry)?;
    line.extend_from_slice(b": ")?;
    push_formulas(line, writing, &entry.preds)
}

// Writes what stands before an entry: a bracket before the first one.
#[tactic(auto, using(lq_logic_text::specs::Continued::continuing))]
fn push_opening(line: &mut Vec<u8>, is_open: bool) -> Result<(), AllocError>
    ensures written { OnOk result (line.new.items ≡ line.old.items ++ opening is_open) }
    ensures begins { Continues line.old.items line.new.items }
{
    if is_open {
        line.extend_from_slice(b"; ")
    } else {
        line.extend_from_slice(b" [")
    }
}

// Writes the next entry, where it has predicates, and answers whether the bracket is open then.
#[tactic(auto, using(lq_logic_text::specs::Continued::continuing))]
fn push_next(
    line: &mut Vec<u8>,
    writing: &Writing<'_>,
    data: Name,
    entry: &Entry,
    is_open: bool,
) -> Result<bool, AllocError>
    ensures is_open { IfOk result (λ r. r ≡ is_open_behind is_open (if_any (formulas (entry_view entry.now).parts)
        (entry_text (writing_view writing.now) data.0 (entry_view entry.now)))) }
    ensures text { OnOk result (line.new.items ≡ line.old.items ++ more_entries is_open (if_any (formulas (entry_view entry.now).parts)
        (entry_text (writing_view writing.now) data.0 (entry_view entry.now)))) }
    ensures begins { Continues line.old.items line.new.items }
{
    if entry.preds.len() == 0 {
        return Ok(is_open);
    }
    push_opening(line, is_open)?;
    push_entry(line, writing, data, entry)?;
    Ok(true)
}

// Writes the entries that have predicates.
#[tactic(auto, using(lq_logic_text::specs::Continued::continuing))]
pub(crate) fn push_entries(
    line: &mut Vec<u8>,
    writing: &Writing<'_>,
    data: Name,
    entries: &[Entry],
) -> Result<(), AllocError>
    ensures written { OnOk result (line.new.items ≡ line.old.items
        ++ bracketed (entry_texts (writing_view writing.now) data.0 (entries_view entries.now))) }
    ensures begins { Continues line.old.items line.new.items }
{
    let mut is_open = false;
    for entry in entries {
        is_open = push_next(line, writing, data, entry, is_open)?;
    }
    if is_open {
        line.extend_from_slice(b"]")
    } else {
        Ok(())
    }
}
