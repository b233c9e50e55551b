//! Laws outside the headline: what a program is asked for speaks of bound names and is well sorted, and templates are subtypes of themselves.
#![tactic(auto)]

pub mod demands;
pub mod implications;
pub mod obligations;
pub mod points;
pub mod programs;
pub mod reflexivity;
pub mod subtypings;
pub mod templates;
pub mod texts;
