//! The measures of a text: that they are measures of values by their equations, which speak of fields at their sorts.

mod laws;

pub use laws::{text_measures_are_sorted, text_measures_fit};
