//! That code 9 refuses what soundness can't have in definitions of datatypes.

mod laws;

pub use laws::named_programs_are_covariant;
