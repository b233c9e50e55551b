//! What is reported of a judgement: types of definitions, and demands that fail with their points.
#![tactic(auto)]

pub mod assignment;
pub mod failure;
pub mod inferred;
pub mod type_text;
