// What facts say of flags, noted while choices are looked through.
use lq_logic_predicates::{Nnf, Nnfs, Symbol};
use lq_prover_case::state::PathState;
use std::alloc::Global;

/// How many flags are noted at once, at most.
const PLACES: usize = 64;

/// A flag with the value that facts give it, where they do.
#[derive(Clone, Copy)]
struct Note {
    flag: Symbol,
    value: Option<bool>,
}

/// Values of flags by places, of each place those of the flag that was asked for last. They are of one state, and of use for as long as no
/// fact is taken: what is noted only chooses between open choices, and no clause speaks of it.
#[derive(Drop)]
pub(crate) struct FlagNotes {
    notes: Vec<Option<Note>>,
}

/// The place of a flag.
fn place_of(flag: Symbol) -> usize {
    match flag {
        Symbol::Value => 0,
        Symbol::Bound(binder) => binder.0 as usize % PLACES,
        Symbol::Position(position) => position as usize % PLACES,
    }
}

impl FlagNotes {
    /// Nothing is noted.
    pub(crate) fn new(alloc: Global) -> FlagNotes {
        FlagNotes {
            notes: Vec::new(alloc),
        }
    }

    // Notes what is known of a flag at a place. Where memory is wanting it isn't noted.
    fn note(&mut self, place: usize, note: Note) {
        for _ in self.notes.len()..place.saturating_add(1) {
            let Ok(()) = self.notes.push(None) else {
                return;
            };
        }
        if place < self.notes.len() {
            self.notes[place] = Some(note);
        }
    }

    /// The value that facts give a flag.
    fn value(&mut self, state: &PathState, flag: Symbol) -> Option<bool> {
        let place = place_of(flag);
        if let Some(Some(note)) = self.notes.get(place) {
            if note.flag == flag {
                return note.value;
            }
        }
        let value = match state.flag(flag) {
            Some(given) => Some(given.value),
            None => None,
        };
        self.note(place, Note { flag, value });
        value
    }

    /// Whether facts say of a flag that it has a value.
    fn says(&mut self, state: &PathState, flag: Symbol, value: bool) -> bool {
        match self.value(state, flag) {
            Some(given) => given == value,
            None => false,
        }
    }

    /// Whether a literal never holds, or says of a flag the opposite of what facts say.
    fn refutes(&mut self, state: &PathState, literal: &Nnf) -> bool {
        match literal {
            Nnf::No => true,
            Nnf::Flag(flag, value) => self.says(state, *flag, !*value),
            Nnf::Yes | Nnf::Row(_) | Nnf::Same(_, _, _) | Nnf::All(_) | Nnf::Any(_) => false,
        }
    }

    /// Whether one of some literals is refuted.
    fn refutes_one(&mut self, state: &PathState, literals: &Nnfs) -> bool {
        for literal in literals.as_slice() {
            if self.refutes(state, literal) {
                return true;
            }
        }
        false
    }

    /// Whether a member, or a part of it, is refuted.
    fn is_dead(&mut self, state: &PathState, member: &Nnf) -> bool {
        match member {
            Nnf::All(all) => self.refutes_one(state, all),
            Nnf::Yes | Nnf::No | Nnf::Row(_) | Nnf::Flag(_, _) | Nnf::Same(_, _, _) | Nnf::Any(_) =>
                self.refutes(state, member),
        }
    }

    /// Whether a member is a flag as facts say it, or always holds.
    fn is_known(&mut self, state: &PathState, member: &Nnf) -> bool {
        match member {
            Nnf::Yes => true,
            Nnf::Flag(flag, value) => self.says(state, *flag, *value),
            Nnf::No | Nnf::Row(_) | Nnf::Same(_, _, _) | Nnf::All(_) | Nnf::Any(_) => false,
        }
    }

    /// Whether at most one member isn't dead, and none is known.
    pub(crate) fn forces(&mut self, state: &PathState, members: &Nnfs) -> bool {
        let mut alive = false;
        for member in members.as_slice() {
            if self.is_known(state, member) {
                return false;
            }
            if !self.is_dead(state, member) {
                if alive {
                    return false;
                }
                alive = true;
            }
        }
        true
    }

    /// How many members aren't dead.
    pub(crate) fn count_alive(&mut self, state: &PathState, members: &Nnfs) -> usize {
        let mut count: usize = 0;
        for member in members.as_slice() {
            if !self.is_dead(state, member) {
                count = count.saturating_add(1);
            }
        }
        count
    }
}
