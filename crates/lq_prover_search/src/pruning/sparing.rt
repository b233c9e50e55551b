// Whether proof trees speak of some facts and choices.
ghost use Rattle.std.specs.Prelude.{◌↔◌, IsTrue, All};
ghost use Rattle.lq_prover_proof_tree.specs.Trees.TreeView.{clash_of, multiplier_items, tree_view, trees_view};
ghost use Rattle.lq_prover_search.specs.Pruning.Moved.{ClashSpares, EachSpares, Spares};
ghost use Rattle.lq_prover_search.specs.Pruning.Span.{IsOutside};

use crate::pruning::span::Span;
use lq_prover_proof_tree::trees::{CaseProof, Multipliers, ProofTree, Trees};

/// Whether each of some numbers is none of these.
fn all_outside(numbers: &[u64], span: Span) -> bool
    ensures { IsTrue result ↔ All (IsOutside span) numbers.now }
{
    for number in numbers {
        if !span.spares(*number) {
            return false;
        }
    }
    true
}

/// Whether none of the rows is one of these facts.
fn rows_spare(multipliers: &Multipliers, facts: Span) -> bool
    ensures { IsTrue result ↔ All (λ m. IsOutside facts m.0) (multiplier_items multipliers.now) }
{
    for multiplier in multipliers.as_slice() {
        if !facts.spares(multiplier.0) {
            return false;
        }
    }
    true
}

/// Whether a clash speaks of none of these facts.
fn clash_spares(clash: &CaseProof, facts: Span) -> bool
    ensures { IsTrue result ↔ ClashSpares facts (clash_of clash.now) }
{
    match clash {
        CaseProof::Rows(multipliers) => rows_spare(multipliers, facts),
        CaseProof::Flags(left, right) => facts.spares(*left) && facts.spares(*right),
        CaseProof::Merges(number, tags) => {
            facts.spares(*number) && all_outside(tags.as_slice(), facts)
        }
    }
}

/// Whether a tree speaks of none of these facts and of none of these choices.
#[cycle(spares)]
pub fn spares(tree: &ProofTree, facts: Span, choices: Span) -> bool
    ensures { IsTrue result ↔ Spares facts choices (tree_view tree.now) }
{
    match tree {
        ProofTree::Any(choice, trees) => choices.spares(*choice)
            && all_spare(trees, facts, choices),
        ProofTree::Apart(_, _, trees) => all_spare(trees, facts, choices),
        ProofTree::Equal(_, _, tags, inner) => {
            all_outside(tags.as_slice(), facts) && spares(inner, facts, choices)
        }
        ProofTree::False(number) => facts.spares(*number),
        ProofTree::Leaf(clash) => clash_spares(clash, facts),
    }
}

/// Whether each of some trees speaks of none of these facts and of none of these choices.
#[cycle(spares)]
fn all_spare(trees: &Trees, facts: Span, choices: Span) -> bool
    ensures { IsTrue result ↔ EachSpares facts choices (trees_view trees.now) }
{
    for tree in trees.as_slice() {
        if !spares(tree, facts, choices) {
            return false;
        }
    }
    true
}
