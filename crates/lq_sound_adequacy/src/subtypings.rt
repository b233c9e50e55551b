//! That what a program is asked for speaks of bound names: laws.

mod laws;

pub use laws::{
    environments_differ, implications_are_bound, normal_forms_are_posed, obligations_are_bound,
};
