//! Three texts, a program, measures and qualifiers, from their bytes to these with their names bound, or why they are refused.

mod binding;
mod bound;
mod complaints;
mod error;
mod laws;
mod reading;

pub use binding::bind;
pub use bound::BoundTexts;
pub use error::Refusing;
pub use laws::one_binding;
