// Splits that are left out.
ghost use Rattle.std.specs.Prelude.{◌≡◌, IfNone, IfOk, IfSome, length};
ghost use Rattle.lq_prover_proof_tree.specs.Trees.Path.{Path, nothing, taken};
ghost use Rattle.lq_prover_proof_tree.specs.Trees.Proves.{Numbering, Proves};
ghost use Rattle.lq_prover_proof_tree.specs.Trees.TreeView.{tree_view};
ghost use Rattle.lq_logic_rows.specs.Row.{Row};
ghost use Rattle.lq_logic_predicates.specs.Reading.{Reading};
ghost use Rattle.lq_prover_search.specs.Pruning.Moved.{Spares};
ghost use Rattle.lq_prover_search.specs.Search.Splits.{span};

use crate::pruning::{Span, spared_facts_can_go, spares, without};
use crate::search::counting::Counts;
use lq_prover_proof_tree::trees::ProofTree;
use std::alloc::{AllocError, Global};

/// The tree of a path with a reading taken as one of the path before, where it speaks of nothing that the reading added. So many facts
/// and choices stood before, and so many were added.
pub fn without_reading(
    alloc: Global,
    tree: &ProofTree,
    before: Counts,
    added: Counts,
) -> Result<Option<ProofTree>, AllocError>
    ensures proves { IfOk result (λ found. IfSome found (λ t. (n : Numbering) (p : Path) (reading : Reading Row)
        → before.facts ≡ length p.facts → before.choices ≡ length p.choices
        → added.facts ≡ length (taken nothing reading).facts
        → added.choices ≡ length (taken nothing reading).choices
        → Proves n (taken p reading) (tree_view tree.now) → Proves n p (tree_view t))) }
    ensures none { IfOk result (λ found. IfNone found (Spares (span before.facts added.facts)
        (span before.choices added.choices) (tree_view tree.now) → ⊥)) }
{
    spared_facts_can_go();
    let facts = Span {
        before: before.facts,
        count: added.facts,
    };
    let choices = Span {
        before: before.choices,
        count: added.choices,
    };
    if !spares(tree, facts, choices) {
        return Ok(None);
    }
    Ok(Some(without(alloc, tree, facts, choices)?))
}
