//! Typed texts whose implications are valid are safe: definitions and laws.
#![tactic(auto)]

pub mod instances;
pub mod measures;
pub mod texts;
pub mod typed_texts;
pub mod variance;
