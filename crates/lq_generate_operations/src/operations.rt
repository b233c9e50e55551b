//! The types that operations give, what is demanded of their operands, and the environments of arms and bodies.

mod arms;
mod bodies;
mod builds;
mod contexts;
mod demands;
mod fields;
mod keys;
mod operations;
mod quotients;
mod shapes;
mod tuples;

pub use arms::{in_arm, matched, missing_context};
pub use bodies::{BodyTypes, body_types};
pub use builds::{built_type, empty_type, field_types};
pub use contexts::{bind, unless, when};
pub use demands::{in_range, not_negative, not_zero};
pub use keys::element_at;
pub use operations::{called_type, type_of};
pub use quotients::quotient_type;
pub use shapes::{FunctionType, element_of, function_type, row_at, unit};
