//! Measures and qualifiers with their names bound: their predicates apart from their terms, and variables, placeholders and measures by
//! numbers.

mod constructors;
mod equations;
mod laws;
mod measures;
mod placeholders;
mod predicates;
mod qualifiers;
mod setting;
mod shape;
mod sorted;
mod table;
mod terms;

pub use laws::{measures_become, qualifiers_become};
pub use measures::bind_measures;
pub use qualifiers::bind_qualifiers;
pub use shape::Shape;
pub use sorted::{ScopedMeasure, ScopedPred, ScopedQualifier, ScopedTerm, Variable};
