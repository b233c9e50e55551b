// Whether a proof tree proves the opening path of an implication, node by node.
use crate::prover::applied::Applications;
use crate::prover::clashes::{are_joined, clashes};
use crate::prover::error::CaseError;
use crate::prover::nodes::Nodes;
use crate::prover::opening::opening;
use crate::prover::path::{Path, path_of, take};
use lq_logic_predicates::{Closed, Nnf, Nnfs, TermTable};
use lq_prover_proof_tree::trees::{CaseProof, ProofTree, Tags, Trees};
use std::alloc::Global;

/// What a check knows beside the tree and the path.
#[derive(Drop)]
struct Check<'a> {
    alloc: Global,
    applications: Applications<'a>,
    nodes: Nodes,
}

impl<'a> Check<'a> {
    fn is_leaf(&mut self, leaf: &CaseProof, path: &Path<'a>) -> Result<bool, CaseError> {
        self.nodes.add_leaf(leaf);
        clashes(self.alloc, leaf, path, self.applications.count())
    }

    fn is_never(&mut self, number: u64, path: &Path<'a>) -> bool {
        self.nodes.never = true;
        matches!(path.literal(number), Some(Nnf::No))
    }
}

/// Whether a tree proves a path.
#[cycle(proof_tree)]
fn proves<'a>(
    tree: &ProofTree,
    path: &mut Path<'a>,
    check: &mut Check<'a>,
) -> Result<bool, CaseError> {
    match tree {
        ProofTree::Any(number, trees) => match path.choice(*number) {
            Some(members) => prove_members(trees, members, path, check),
            None => Ok(false),
        },
        ProofTree::Apart(first, second, trees) => {
            prove_ways(trees, *first, *second, path, check)
        }
        ProofTree::Equal(first, second, tags, tree) => {
            if !add_joined(*first, *second, tags, path, check)? {
                return Ok(false);
            }
            proves(tree, path, check)
        }
        ProofTree::False(number) => Ok(check.is_never(*number, path)),
        ProofTree::Leaf(leaf) => check.is_leaf(leaf, path),
    }
}

/// Whether a tree for each member of a choice proves the path with that member taken.
#[cycle(proof_tree)]
fn prove_members<'a>(
    trees: &Trees,
    members: &'a Nnfs,
    path: &mut Path<'a>,
    check: &mut Check<'a>,
) -> Result<bool, CaseError> {
    check.nodes.any = true;
    if trees.len() != members.len() {
        return Ok(false);
    }
    for (at, tree) in trees.as_slice().iter().enumerate() {
        let Some(member) = members.get(at) else {
            return Ok(false);
        };
        let mark = path.mark();
        take(member, path)?;
        if !proves(tree, path, check)? {
            return Ok(false);
        }
        path.back_to(mark);
    }
    Ok(true)
}

/// Whether a tree for each of the five ways of two applications proves the path with the rows of that way.
#[cycle(proof_tree)]
fn prove_ways<'a>(
    trees: &Trees,
    first: u64,
    second: u64,
    path: &mut Path<'a>,
    check: &mut Check<'a>,
) -> Result<bool, CaseError> {
    check.nodes.apart = true;
    let Some((s, t)) = check.applications.two(first, second) else {
        return Ok(false);
    };
    if trees.len() != 5 {
        return Ok(false);
    }
    for (way, tree) in trees.as_slice().iter().enumerate() {
        let mark = path.mark();
        check.applications.add_way(way, &s, &t, path)?;
        if !proves(tree, path, check)? {
            return Ok(false);
        }
        path.back_to(mark);
    }
    Ok(true)
}

/// Adds the row that two lengths or measures are equal, whose objects the facts of these numbers join. It is false where they don't.
fn add_joined<'a>(
    first: u64,
    second: u64,
    tags: &Tags,
    path: &mut Path<'a>,
    check: &mut Check<'a>,
) -> Result<bool, CaseError> {
    check.nodes.equal = true;
    let applications = &mut check.applications;
    let Some((a, b)) = applications.objects(first, second) else {
        return Ok(false);
    };
    let (Some(s), Some(t)) = (applications.term(first), applications.term(second)) else {
        return Ok(false);
    };
    if !are_joined(tags, a, b, path) {
        return Ok(false);
    }
    applications.add_equal(s, t, path)?;
    Ok(true)
}

/// The forms of a tree's nodes where it proves a path, and None where it doesn't. The terms are those of the implication.
pub(crate) fn nodes_with<'a>(
    alloc: Global,
    implication: &Closed,
    tree: &ProofTree,
    mut path: Path<'a>,
    terms: &'a TermTable,
) -> Result<Option<Nodes>, CaseError> {
    let mut check = Check {
        alloc,
        applications: Applications::new(alloc, implication, terms)?,
        nodes: Nodes::default(),
    };
    if proves(tree, &mut path, &mut check)? {
        Ok(Some(check.nodes))
    } else {
        Ok(None)
    }
}

/// The forms of a tree's nodes where it proves the implication, and None where it doesn't.
pub(crate) fn nodes_of_proof(
    alloc: Global,
    implication: &Closed,
    tree: &ProofTree,
) -> Result<Option<Nodes>, CaseError> {
    let readings = opening(alloc, implication)?;
    let terms = implication.terms(alloc)?;
    let path = path_of(alloc, readings.as_slice(), readings.len())?;
    nodes_with(alloc, implication, tree, path, &terms)
}
