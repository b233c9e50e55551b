//! Proof trees: what they prove of an implication, and why that is so.

mod laws;
mod tree;

pub use laws::{examples, proved_implications_are_valid, proved_paths_have_no_point};
pub use tree::{CaseProof, Multipliers, ProofTree, Tags, Trees};
