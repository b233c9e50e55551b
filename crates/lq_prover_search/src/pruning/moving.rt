// Proof trees with other numbers.
ghost use Rattle.std.specs.Prelude.{◌≡◌, IfOk, map};
ghost use Rattle.lq_prover_proof_tree.specs.Trees.TreeView.{clash_of, multiplier_items, multiplier_views, tag_items, tree_view, trees_view};
ghost use Rattle.lq_prover_search.specs.Pruning.Moved.{moved_clash, moved_tree, moved_trees};
ghost use Rattle.lq_prover_search.specs.Pruning.Span.{moved};

use crate::pruning::span::Span;
use lq_prover_proof_tree::trees::{CaseProof, Multipliers, ProofTree, Tags, Trees};
use std::alloc::{AllocError, Global};

/// Numbers of facts once these are gone.
fn tags_without(alloc: Global, tags: &Tags, facts: Span) -> Result<Tags, AllocError>
    ensures { IfOk result (λ all. tag_items all ≡ map (moved facts) (tag_items tags.now)) }
{
    let mut all = Tags::new(alloc)?;
    for tag in tags.as_slice() {
        all.push(facts.moved(*tag))?;
    }
    Ok(all)
}

/// Rows by the numbers of their facts once these are gone.
fn rows_without(
    alloc: Global,
    multipliers: &Multipliers,
    facts: Span,
) -> Result<Multipliers, AllocError>
    ensures { IfOk result (λ all. multiplier_items all
        ≡ map (λ m. (moved facts m.0, m.1)) (multiplier_items multipliers.now)) }
{
    let mut all = Multipliers::new(alloc)?;
    for multiplier in multipliers.as_slice() {
        all.push((facts.moved(multiplier.0), multiplier.1))?;
    }
    Ok(all)
}

/// A clash once these facts are gone.
fn case_without(alloc: Global, clash: &CaseProof, facts: Span) -> Result<CaseProof, AllocError>
    ensures { IfOk result (λ found. clash_of found ≡ moved_clash facts (clash_of clash.now)) }
{
    match clash {
        CaseProof::Rows(multipliers) => {
            Ok(CaseProof::Rows(rows_without(alloc, multipliers, facts)?))
        }
        CaseProof::Flags(left, right) => {
            Ok(CaseProof::Flags(facts.moved(*left), facts.moved(*right)))
        }
        CaseProof::Merges(number, tags) => Ok(CaseProof::Merges(
            facts.moved(*number),
            tags_without(alloc, tags, facts)?,
        )),
    }
}

/// A tree with the numbers that facts and choices have once these are gone.
#[cycle(without)]
pub fn without(
    alloc: Global,
    tree: &ProofTree,
    facts: Span,
    choices: Span,
) -> Result<ProofTree, AllocError>
    ensures { IfOk result (λ found. tree_view found ≡ moved_tree facts choices (tree_view tree.now)) }
{
    match tree {
        ProofTree::Any(choice, trees) => {
            let trees = all_without(alloc, trees, facts, choices)?;
            Ok(ProofTree::Any(choices.moved(*choice), trees))
        }
        ProofTree::Apart(left, right, trees) => {
            let trees = all_without(alloc, trees, facts, choices)?;
            Ok(ProofTree::Apart(*left, *right, trees))
        }
        ProofTree::Equal(left, right, tags, inner) => {
            let tags = tags_without(alloc, tags, facts)?;
            let inner = without(alloc, inner, facts, choices)?;
            Ok(ProofTree::Equal(*left, *right, tags, Box::new(alloc, inner)?))
        }
        ProofTree::False(number) => Ok(ProofTree::False(facts.moved(*number))),
        ProofTree::Leaf(clash) => Ok(ProofTree::Leaf(case_without(alloc, clash, facts)?)),
    }
}

/// Trees with the numbers that facts and choices have once these are gone.
#[cycle(without)]
fn all_without(
    alloc: Global,
    trees: &Trees,
    facts: Span,
    choices: Span,
) -> Result<Trees, AllocError>
    ensures { IfOk result (λ all. trees_view all ≡ moved_trees facts choices (trees_view trees.now)) }
{
    let mut all = Trees::new(alloc)?;
    for tree in trees.as_slice() {
        all.push(without(alloc, tree, facts, choices)?)?;
    }
    Ok(all)
}
