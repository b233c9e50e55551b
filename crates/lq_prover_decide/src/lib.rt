//! Cases: literals in order, with the table that numbers the terms of their rows.
#![tactic(auto)]

mod answer;
mod deciding;
mod fact;
mod laws;
mod literals;
mod objects;
mod searching;
mod taking;
mod values;

pub use answer::CaseAnswer;
pub use deciding::decide;
pub use fact::{Fact, Facts};
pub use laws::proved_cases_have_no_point;
pub use literals::Literals;
