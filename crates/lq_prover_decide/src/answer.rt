// What deciding a case answers.
use lq_logic_points::Point;
use lq_prover_proof_tree::trees::ProofTree;

/// Whether a case has a point.
#[derive(Drop)]
pub enum CaseAnswer {
    /// It has none, as this tree proves.
    NoPoint(ProofTree),
    /// It has this one.
    Has(Point),
}
