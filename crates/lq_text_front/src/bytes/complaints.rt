// How complaints about names are refused.
ghost use Rattle.std.specs.Prelude.{◌≡◌, IfOk};
ghost use Rattle.lq_text_scope.specs.Known.{text_of};
ghost use Rattle.lq_text_scope.specs.Views as program;
ghost use Rattle.lq_text_qualifiers.specs.Faults.Views as sorts;
ghost use Rattle.lq_text_front.specs.Texts.Resolution.{IsResolution, Resolution, Sources};
ghost use Rattle.lq_text_front.specs.Bytes.Refusals.{cause_refusal, dotted_text, sort_refusal, resolution_refusal};

use lq_base_names::{Name, NameTable, NameText, Place};
use lq_text_qualifiers::faults::{Cause as SortCause, SortComplaint};
use lq_text_refusal::Refused;
use lq_text_scope::{Cause, Complaint};
use std::alloc::{AllocError, Global};

/// The text of a name, empty past the last one.
fn text_of(table: &NameTable, name: Name) -> &str
    ensures { result.now ≡ text_of table.now name.0 }
{
    if name.0 < table.len() {
        table.text(name)
    } else {
        ""
    }
}

/// An upper and a lower name with a dot between them.
fn dotted(alloc: Global, names: &NameTable, front: Name, name: Name) -> Result<NameText, AllocError>
    ensures { IfOk result (λ t. t ≡ dotted_text names.now front.0 name.0) }
{
    let mut text = String::from_str(alloc, text_of(names, front))?;
    text.push_str(".")?;
    text.push_str(text_of(names, name))?;
    NameText::new(alloc, text.as_str())
}

fn unknown(
    alloc: Global,
    names: &NameTable,
    code: u8,
    place: Place,
    name: Name,
) -> Result<Refused, AllocError>
    ensures { IfOk result (λ r. r ≡ Refused.Named code place (text_of names.now name.0)) }
{
    let text = NameText::new(alloc, text_of(names, name))?;
    Ok(Refused::Named(code, place, text))
}

/// How a complaint about a name of the program is refused.
pub(crate) fn program_refusal(
    alloc: Global,
    names: &NameTable,
    complaint: Complaint,
) -> Result<Refused, AllocError>
    ensures { IfOk result (λ r. r ≡ cause_refusal names.now (program.complaint_view complaint).place
        (program.complaint_view complaint).cause) }
{
    let place = complaint.place;
    match complaint.cause {
        Cause::Unknown(name) => unknown(alloc, names, 6, place, name),
        Cause::UnknownIn(front, name) => {
            let text = dotted(alloc, names, front, name)?;
            Ok(Refused::Named(6, place, text))
        }
        Cause::Twice(name) => unknown(alloc, names, 7, place, name),
        Cause::Arity(wanted, found) => Ok(Refused::Wanted(8, place, wanted as u64, found as u64)),
        Cause::NotPositive => Ok(Refused::At(9, place)),
    }
}

/// How a complaint about measures or qualifiers is refused.
pub(crate) fn sort_refusal(
    alloc: Global,
    names: &NameTable,
    complaint: SortComplaint,
) -> Result<Refused, AllocError>
    ensures { IfOk result (λ r. r ≡ sort_refusal names.now (sorts.complaint_view complaint).place
        (sorts.complaint_view complaint).cause) }
{
    let place = complaint.place;
    match complaint.cause {
        SortCause::Unknown(name) => unknown(alloc, names, 6, place, name),
        SortCause::UnknownIn(front, name) => {
            let text = dotted(alloc, names, front, name)?;
            Ok(Refused::Named(6, place, text))
        }
        SortCause::Twice(name) => unknown(alloc, names, 7, place, name),
        SortCause::Arity(wanted, found) => {
            Ok(Refused::Wanted(8, place, wanted as u64, found as u64))
        }
        SortCause::NotStructural => Ok(Refused::At(10, place)),
        SortCause::BadSort => Ok(Refused::At(11, place)),
    }
}
