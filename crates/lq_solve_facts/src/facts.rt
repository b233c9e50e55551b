//! What is known of hypotheses: their literals as facts, what these prove, and whether values that solve them meet the hypotheses.

mod clash;
mod known;
mod plain;
mod read;
mod reads;
mod standing;
mod values;

pub use known::Known;
pub use read::ReadPred;
pub use standing::Stand;
