//! The top call: the words of the command line in, the status and the report out.
#![tactic(auto)]

mod answer;
mod laws;
mod run;
mod send;
mod status;
mod verdict;

pub use laws::one_report;
pub use lq_top_judge::judgement::judge;
pub use lq_top_judge::verdict::{Judgement, Refusal};
pub use lq_top_words::command::Words;
pub use lq_top_words::inputs::FILE_LIMIT;
pub use run::run_words;
pub use status::Status;
