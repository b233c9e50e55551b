//! The rules of a whole program's types, visit by visit.

mod laws;

pub use laws::{
    examples, front_items_are_rules, fronts_are_rules, ill_typed_places_are_first, one_inference,
    renamed_are_principal, visits_are_rules,
};
