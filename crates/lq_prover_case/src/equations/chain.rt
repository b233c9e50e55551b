// A chain of nodes that say that results are equal.
ghost use Rattle.std.specs.Prelude.{◌≡◌, IfOk};
ghost use Rattle.lq_prover_proof_tree.specs.Trees.TreeView.{tree_view};
ghost use Rattle.lq_prover_case.specs.Equations.Equating.{around};

use lq_prover_proof_tree::trees::{ProofTree, Tags};
use std::alloc::{AllocError, Global};

/// Two applications of one function of one object, by their numbers from 1, and the facts that join their objects.
#[derive(Drop)]
pub struct Joint {
    pub left: u64,
    pub right: u64,
    pub tags: Tags,
}

/// The tree with these nodes around it, the first one outermost.
pub fn wrapped(alloc: Global, joints: Vec<Joint>, tree: ProofTree) -> Result<ProofTree, AllocError>
    ensures is { IfOk result (λ whole. tree_view whole ≡ around joints.items (tree_view tree)) }
{
    let mut rest = joints;
    let mut whole = tree;
    while let Some(joint) = rest.pop() {
        whole = ProofTree::Equal(joint.left, joint.right, joint.tags, Box::new(alloc, whole)?);
    }
    Ok(whole)
}
