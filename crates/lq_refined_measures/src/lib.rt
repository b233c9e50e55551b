//! The equations of measures, and what lengths and measures are of the values of a program.
#![tactic(auto)]

pub mod equations;
pub mod values;
