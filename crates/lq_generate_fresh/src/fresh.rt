//! Templates in tables: refined types with unknowns for simple types, with the scopes and shapes of the unknowns, those of a program's points.

mod defined;
mod empty;
mod fields;
mod laws;
mod matrix;
mod patterns;
mod plain;
mod points;
mod simple;
mod templates;
mod walk;

pub use fields::{Constructor, Datatypes, Field};
pub use laws::{cells_are_of_shapes, constructors_differ};
pub use points::{PointTemplates, make};
pub use simple::Given;
pub use templates::Templates;
