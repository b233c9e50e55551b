//! That matrices over names are sorted under an assignment: laws.

mod laws;

pub use laws::{arguments_lack_fields, matrices_are_sorted, variables_have_no_entries};
