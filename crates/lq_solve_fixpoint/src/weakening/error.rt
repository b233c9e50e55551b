// Why there is no solution and no proof that there is none.
use lq_logic_predicates::Stop;
use thiserror::Error;

/// Why weakening stopped.
#[derive(Debug, Drop, Error)]
pub enum SolveError {
    /// The implication of this number wasn't decided.
    #[error("implication {0} was not decided")]
    At(u64, Stop),
    #[error("out of memory")]
    Memory,
}
