//! Names and what they are bound to: the first that has no definition, or one too many, or the wrong number of arguments.
#![tactic(auto)]

mod binders;
mod checker;
mod complaint;
mod datatypes;
mod laws;
mod patterns;
mod primitives;
mod scope;

pub use binders::Binding;
pub use checker::{first_complaint, first_constructors};
pub use complaint::{Cause, Complaint};
pub use datatypes::show_constructors;
pub use laws::least_is_least;
pub use patterns::push_binders;
pub use primitives::text_of;
pub use scope::Scope;
