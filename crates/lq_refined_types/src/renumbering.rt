//! Refined types whose unknowns have other numbers: definitions and laws.

mod laws;

pub use laws::{
    renumbering_by_zero_keeps, renumbering_keeps_kinds, renumbering_keeps_simple_types,
    renumbering_twice_adds,
};
