// What is wrong with a name, and the least of such complaints.
ghost use Rattle.std.specs.Prelude.{◌≡◌};
ghost use Rattle.lq_text_walk.specs.Walk.Visits.{is_before};
ghost use Rattle.lq_text_scope.specs.Complaints.{at, code_of, is_less, lesser, least_with};
ghost use Rattle.lq_text_scope.specs.Known.{counted};
ghost use Rattle.lq_text_scope.specs.Views.{cause_view, complaint_view, found_view};

use lq_base_names::{Name, Place};

/// What is wrong with a name of a text.
#[derive(Clone, Copy, Debug, PartialEq, Eq)]
pub enum Cause {
    /// It has no definition.
    Unknown(Name),
    /// An upper and a lower name with a dot between them, which have no definition.
    UnknownIn(Name, Name),
    /// It is defined again, where it may not be.
    Twice(Name),
    /// It takes as many arguments as the first number says, and is given as many as the second.
    Arity(usize, usize),
    /// It is a parameter of a datatype, or the datatype itself, left of an arrow or under `array`.
    NotPositive,
}

/// What is wrong with a name at this place.
#[derive(Clone, Copy, Debug, PartialEq, Eq)]
pub struct Complaint {
    pub place: Place,
    pub cause: Cause,
}

impl Cause {
    /// The code of the refusal, from 6 to 9.
    pub fn code(&self) -> u8
        ensures { result ≡ code_of (cause_view self.now) }
    {
        match self {
            Cause::Unknown(_) => 6,
            Cause::UnknownIn(_, _) => 6,
            Cause::Twice(_) => 7,
            Cause::Arity(_, _) => 8,
            Cause::NotPositive => 9,
        }
    }
}

// Whether a place lies before another one of the same text.
fn is_before(place: Place, other: Place) -> bool
    ensures { result ≡ is_before place other }
{
    place.line < other.line || (place.line == other.line && place.column < other.column)
}

// Whether the first is told before the second.
fn is_less(complaint: Complaint, other: Complaint) -> bool
    ensures { result ≡ is_less (complaint_view complaint) (complaint_view other) }
{
    is_before(complaint.place, other.place)
        || (complaint.place.line == other.place.line
            && complaint.place.column == other.place.column
            && complaint.cause.code() < other.cause.code())
}

/// The least complaint that was found.
#[derive(Clone, Copy)]
pub(crate) struct Least {
    pub(crate) found: Option<Complaint>,
}

impl Least {
    /// One complaint more.
    pub(crate) fn note(&mut self, place: Place, cause: Cause)
        ensures { found_view self.new.found
            ≡ lesser (found_view self.old.found) (at place (cause_view cause)) }
    {
        let complaint = Complaint { place, cause };
        self.found = match self.found {
            None => Some(complaint),
            Some(best) => {
                if is_less(complaint, best) {
                    Some(complaint)
                } else {
                    Some(best)
                }
            }
        };
    }

    /// What there is to say of a name with its arguments: as many as it takes, where it is defined.
    pub(crate) fn note_count(
        &mut self,
        place: Place,
        wanted: Option<usize>,
        undefined: Cause,
        found: usize,
    )
        ensures { found_view self.new.found ≡ least_with (found_view self.old.found)
            (counted place wanted (cause_view undefined) found) }
    {
        match wanted {
            None => self.note(place, undefined),
            Some(wanted) => {
                if wanted != found {
                    self.note(place, Cause::Arity(wanted, found));
                }
            }
        }
    }
}
