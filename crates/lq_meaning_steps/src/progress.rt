//! Types: a typed program never gets stuck.

mod laws;

pub use laws::{examples, typed_expressions, typed_programs};
