//! The equations of measures at a value that is made by a constructor.

mod facts;
mod terms;

pub use facts::measure_facts;
