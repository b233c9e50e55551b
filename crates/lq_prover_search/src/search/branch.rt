// What refuting the members of a split gives.
ghost use Rattle.std.specs.Prelude.{◌≡◌, ◌<◌, IfErr, IfOk, Some, length, slice_get};
ghost use Rattle.std.specs.List.{filter};
ghost use Rattle.lq_prover_proof_tree.specs.Trees.Path.{Path, taken};
ghost use Rattle.lq_prover_proof_tree.specs.Trees.Proves.{Numbering, Proves};
ghost use Rattle.lq_prover_proof_tree.specs.Trees.Tree.{leaf};
ghost use Rattle.lq_prover_proof_tree.specs.Trees.TreeView.{clash_of, tree_view};
ghost use Rattle.lq_prover_case.specs.Equations.Equating.{around};
ghost use Rattle.lq_logic_rows.specs.Row.{Row};
ghost use Rattle.lq_logic_rows.specs.declared.engine.LinearStop.TheVariants.{Memory};
ghost use Rattle.lq_prover_proof_tree.specs.Literals.Parts.{is_application};
ghost use Rattle.lq_logic_predicates.specs.NnfView.{nnf_view, nnfs_view};
ghost use Rattle.lq_logic_predicates.specs.Reading.{Readings};
ghost use Rattle.lq_prover_search.specs.Search.Branches.{BranchProves, SplitProves};
ghost use Rattle.lq_prover_search.specs.Search.Pairs.{IsPair};

use crate::search::counting::{Counts, count_added};
use crate::search::laws::pairs_are_split_by_their_ways;
use crate::search::pair::Pair;
use crate::search::sparing::without_reading;
use lq_logic_predicates::Nnf;
use lq_logic_rows::LinearStop;
use lq_prover_case::equations::{Joint, wrapped};
use lq_prover_proof_tree::trees::{CaseProof, ProofTree, Trees};
use std::alloc::{AllocError, Global};

/// A tree of the path with a member taken.
#[derive(Drop)]
pub(crate) enum Branch {
    /// It speaks of nothing that the member added, and proves the path before.
    Whole(ProofTree),
    Own(ProofTree),
}

/// Trees of a path by the members of a split.
#[derive(Drop)]
pub(crate) enum Split {
    /// One of them proves the path.
    Whole(ProofTree),
    /// One for each member.
    Each(Trees),
}

/// A tree of the path with a member taken, as one of the path before where it speaks of nothing that the member added.
pub(crate) fn branch_of(
    alloc: Global,
    tree: ProofTree,
    before: Counts,
    member: &Nnf,
) -> Result<Branch, LinearStop>
    ensures branch { IfOk result (λ branch. (n : Numbering) (p : Path) → before.facts ≡ length p.facts
        → before.choices ≡ length p.choices → Proves n (taken p (nnf_view member.now)) (tree_view tree)
        → BranchProves n p (nnf_view member.now) branch) }
    ensures memory { IfErr result (λ stop. stop ≡ Memory) }
{
    let Some(added) = count_added(member) else {
        return Ok(Branch::Own(tree));
    };
    match without_reading(alloc, &tree, before, added) {
        Ok(Some(whole)) => Ok(Branch::Whole(whole)),
        Ok(None) => Ok(Branch::Own(tree)),
        Err(AllocError) => Err(LinearStop::Memory),
    }
}

/// The node of a choice at a place.
pub(crate) fn any_tree(at: usize, split: Split) -> ProofTree
    requires { at < 18446744073709551615 }
    ensures { (n : Numbering) (p : Path) (members : Readings Row) → slice_get p.choices at ≡ Some members
        → SplitProves n p members split → Proves n p (tree_view result) }
{
    match split {
        Split::Whole(tree) => tree,
        Split::Each(trees) => ProofTree::Any(at as u64 + 1, trees),
    }
}

/// The node of a pair.
pub(crate) fn apart_tree(pair: &Pair, split: Split) -> ProofTree
    ensures { (n : Numbering) (p : Path) → n.applications ≡ filter is_application n.terms → IsPair n.terms pair.now
        → SplitProves n p (nnfs_view pair.now.ways) split → Proves n p (tree_view result) }
{
    pairs_are_split_by_their_ways();
    match split {
        Split::Whole(tree) => tree,
        Split::Each(trees) => ProofTree::Apart(pair.left, pair.right, trees),
    }
}

/// A tree behind equations.
pub(crate) fn tree_around(
    alloc: Global,
    joints: Vec<Joint>,
    tree: ProofTree,
) -> Result<ProofTree, LinearStop>
    ensures tree { IfOk result (λ whole. tree_view whole ≡ around joints.items (tree_view tree)) }
    ensures memory { IfErr result (λ stop. stop ≡ Memory) }
{
    match wrapped(alloc, joints, tree) {
        Ok(whole) => Ok(whole),
        Err(AllocError) => Err(LinearStop::Memory),
    }
}

/// A clash behind equations.
pub(crate) fn leaf_around(
    alloc: Global,
    joints: Vec<Joint>,
    clash: CaseProof,
) -> Result<ProofTree, LinearStop>
    ensures tree { IfOk result (λ whole. tree_view whole ≡ around joints.items (leaf (clash_of clash))) }
    ensures memory { IfErr result (λ stop. stop ≡ Memory) }
{
    tree_around(alloc, joints, ProofTree::Leaf(clash))
}
