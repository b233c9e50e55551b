// What `valid` answers.
use lq_logic_points::Point;
use lq_prover_proof_tree::trees::ProofTree;

/// Whether an implication is valid.
#[derive(Drop)]
pub enum Answer {
    /// It is, as this tree proves.
    Valid(ProofTree),
    /// It isn't: this point meets the hypotheses and the negated goal.
    Fails(Point),
}
