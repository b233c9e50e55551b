//! Three texts, from their bytes to what is to be solved for them, or why they are refused.
#![tactic(auto)]

mod laws;
mod posing;
mod typing;

pub use laws::one_posing;
pub use posing::{PosedTexts, pose_texts};
pub use typing::TypedTexts;
