//! The names of normal forms: each is bound before it is used, and none twice. Laws.

mod laws;

pub use laws::{normal_forms_are_scoped, normal_forms_bind_once};
