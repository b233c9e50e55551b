//! That normal forms can be read as programs of the typing rules.

mod laws;

pub use laws::normal_forms_can_be_read;
