//! What a program that is read binds: laws.

mod laws;

pub use laws::{binders_of_normal_forms_differ, what_is_read_binds_the_same};
