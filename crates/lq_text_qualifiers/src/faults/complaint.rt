// What is wrong with a text of measures or of qualifiers, and the least of such complaints.
ghost use Rattle.std.specs.Prelude.{◌≡◌};
ghost use Rattle.lq_text_walk.specs.Walk.Visits.{is_before};
ghost use Rattle.lq_text_qualifiers.specs.Faults.Complaints.{at, code_of, is_less, lesser, least_with};
ghost use Rattle.lq_text_qualifiers.specs.Faults.Equations.{counted};
ghost use Rattle.lq_text_qualifiers.specs.Faults.Predicates.{mismatch};
ghost use Rattle.lq_text_qualifiers.specs.Faults.Views.{asked_view, cause_view, complaint_view, found_view, shape_view};

use crate::faults::shape::Shape;
use lq_base_names::{Name, Place};

/// What is wrong at a place of a text of measures or of qualifiers.
#[derive(Clone, Copy, Debug, PartialEq, Eq)]
pub enum Cause {
    /// The name has no definition.
    Unknown(Name),
    /// An upper and a lower name with a dot between them, which have no definition.
    UnknownIn(Name, Name),
    /// A measure is defined again, a constructor has a second equation, or a pattern binds a name twice.
    Twice(Name),
    /// The first number says how many arguments or equations are wanted, the second how many there are.
    Arity(usize, usize),
    /// In an equation a measure is applied to something other than a field, or a measure that is defined later is applied.
    NotStructural,
    /// The shapes of a predicate or a term don't fit, a name is no shape that may stand there, or a pattern is no constructor of the
    /// measure's datatype.
    BadSort,
}

/// What is wrong at this place.
#[derive(Clone, Copy, Debug, PartialEq, Eq)]
pub struct SortComplaint {
    pub place: Place,
    pub cause: Cause,
}

impl Cause {
    /// The code of the refusal: 6, 7, 8, 10 or 11.
    pub fn code(&self) -> u8
        ensures { result ≡ code_of (cause_view self.now) }
    {
        match self {
            Cause::Unknown(_) => 6,
            Cause::UnknownIn(_, _) => 6,
            Cause::Twice(_) => 7,
            Cause::Arity(_, _) => 8,
            Cause::NotStructural => 10,
            Cause::BadSort => 11,
        }
    }
}

// Whether a place lies before another one of the same text.
fn is_before(place: Place, other: Place) -> bool
    ensures { result ≡ is_before place other }
{
    place.line < other.line || (place.line == other.line && place.column < other.column)
}

// Whether the first is told before the second.
fn is_less(complaint: SortComplaint, other: SortComplaint) -> bool
    ensures { result ≡ is_less (complaint_view complaint) (complaint_view other) }
{
    is_before(complaint.place, other.place)
        || (complaint.place.line == other.place.line
            && complaint.place.column == other.place.column
            && complaint.cause.code() < other.cause.code())
}

/// The least complaint that was found.
#[derive(Clone, Copy)]
pub(crate) struct Least {
    pub(crate) found: Option<SortComplaint>,
}

impl Least {
    /// One complaint more.
    pub(crate) fn note(&mut self, place: Place, cause: Cause)
        ensures { found_view self.new.found
            ≡ lesser (found_view self.old.found) (at place (cause_view cause)) }
    {
        let complaint = SortComplaint { place, cause };
        self.found = match self.found {
            None => Some(complaint),
            Some(best) => {
                if is_less(complaint, best) {
                    Some(complaint)
                } else {
                    Some(best)
                }
            }
        };
    }

    /// What there is to say of a shape where this one is asked for.
    pub(crate) fn note_shape(&mut self, place: Place, asked: Option<Shape>, given: Shape)
        ensures { found_view self.new.found ≡ least_with (found_view self.old.found)
            (mismatch place (asked_view asked) (shape_view given)) }
    {
        match asked {
            None => {}
            Some(shape) => {
                if !shape.is_same(given) {
                    self.note(place, Cause::BadSort);
                }
            }
        }
    }

    /// What there is to say where so many are wanted, if it is known, and so many found.
    pub(crate) fn note_count(&mut self, place: Place, wanted: Option<usize>, found: usize)
        ensures { found_view self.new.found
            ≡ least_with (found_view self.old.found) (counted place wanted found) }
    {
        match wanted {
            None => {}
            Some(wanted) => {
                if wanted != found {
                    self.note(place, Cause::Arity(wanted, found));
                }
            }
        }
    }
}
