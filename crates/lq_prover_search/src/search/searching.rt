// The search for a point of a path, or for a tree that proves it.
ghost use Rattle.std.specs.Prelude.{◌≡◌, ◌<◌, IfErr, IfNone, IfOk, IfSome, OnSome, length, true};
ghost use Rattle.lq_prover_case.specs.State.PathState.{objects_in};
ghost use Rattle.lq_prover_case.specs.State.RowState.{is_solved};
ghost use Rattle.lq_prover_proof_tree.specs.Trees.Path.{taken};
ghost use Rattle.lq_prover_proof_tree.specs.Trees.Proves.{Proves};
ghost use Rattle.lq_prover_proof_tree.specs.Trees.TreeView.{tree_view};
ghost use Rattle.lq_prover_case.specs.Equations.Equating.{AreEquated, numbering_by};
ghost use Rattle.lq_logic_predicates.specs.NnfView.{nnf_view, nnfs_view};
ghost use Rattle.lq_logic_predicates.specs.Reading.{any_of, yes};
ghost use Rattle.lq_prover_search.specs.Search.Branches.{BranchProves, SplitProves};
ghost use Rattle.lq_prover_search.specs.Search.Scope.{AreWithin, IsWithin};
ghost use Rattle.lq_prover_search.specs.Search.SearchPath.{AreGiven, EndsMet, IsBack, IsLonger, IsReady, IsReadyFor, IsReadyForAny, facts_of, path_of, scope_of};
ghost use Rattle.lq_prover_search.specs.Search.Splits.{IsOpen};
ghost use Rattle.lq_prover_search.specs.Search.Stopping.{HandsFrom, ReachesFrom, StopsFrom};

use crate::search::branch::{
    Branch, Split, any_tree, apart_tree, branch_of, leaf_around, tree_around,
};
use crate::search::choosing::forced_choice;
use crate::search::counting::Counts;
use crate::search::givens::Givens;
use crate::search::open::{Open, next_open};
use crate::search::probing::probed_pair;
use crate::search::reading::take_reading;
use crate::search::search_path::{SearchPath, set_done};
use lq_logic_predicates::{Nnf, Nnfs};
use lq_logic_rows::LinearStop;
use lq_prover_case::equations::equate_all;
use lq_prover_proof_tree::trees::{ProofTree, Trees};
use std::alloc::{AllocError, Global};

// A tree that proves a path, which is then as before. Where there is none, nothing is left to split: of each choice and of each pair a
// member was taken or is met, and values are known.
#[cycle(search)]
fn search<'a>(
    alloc: Global,
    givens: &Givens<'a>,
    path: &mut SearchPath<'a>,
) -> Result<Option<ProofTree>, LinearStop>
    requires given { AreGiven (scope_of givens.now) givens.now.pairs.now }
    requires ready { IsReady (scope_of givens.now) givens.now.pairs.now path.old }
    ensures tree { IfOk result (λ found. IfSome found (λ t. Proves (numbering_by (scope_of givens.now).terms)
        (path_of (scope_of givens.now) path.old) (tree_view t))) }
    ensures back { IfOk result (λ found. OnSome found (IsBack path.old path.new)) }
    ensures met { IfOk result (λ found. IfNone found (EndsMet (scope_of givens.now) givens.now.pairs.now
        (path_of (scope_of givens.now) path.old) path.new)) }
    ensures reached { IfOk result (λ found. IfNone found (ReachesFrom yes (scope_of givens.now)
        givens.now.pairs.now path.old path.new)) }
    ensures handed { IfOk result (λ found. OnSome found (HandsFrom yes (scope_of givens.now)
        givens.now.pairs.now path.old path.new)) }
    ensures stop { IfErr result (StopsFrom yes (scope_of givens.now)
        givens.now.pairs.now path.old) }
{
    path.state.facts_are_few();
    let before = path.counts();
    let (joints, clash) = equate_all(alloc, &mut path.state, givens.objects, givens.terms)?;
    if let Some(clash) = clash {
        path.back_to(before);
        return Ok(Some(leaf_around(alloc, joints, clash)?));
    }
    match search_on(alloc, givens, path)? {
        Some(tree) => {
            path.back_to(before);
            Ok(Some(tree_around(alloc, joints, tree)?))
        }
        None => Ok(None),
    }
}

/// The same where lengths and measures of one object are equal.
#[cycle(search)]
fn search_on<'a>(
    alloc: Global,
    givens: &Givens<'a>,
    path: &mut SearchPath<'a>,
) -> Result<Option<ProofTree>, LinearStop>
    requires given { AreGiven (scope_of givens.now) givens.now.pairs.now }
    requires ready { IsReady (scope_of givens.now) givens.now.pairs.now path.old }
    requires equated { AreEquated (scope_of givens.now).objects (scope_of givens.now).terms (objects_in path.old.state)
        (facts_of (scope_of givens.now) path.old) }
    ensures tree { IfOk result (λ found. IfSome found (λ t. Proves (numbering_by (scope_of givens.now).terms)
        (path_of (scope_of givens.now) path.old) (tree_view t))) }
    ensures back { IfOk result (λ found. OnSome found (IsBack path.old path.new)) }
    ensures met { IfOk result (λ found. IfNone found (EndsMet (scope_of givens.now) givens.now.pairs.now
        (path_of (scope_of givens.now) path.old) path.new)) }
    ensures reached { IfOk result (λ found. IfNone found (ReachesFrom yes (scope_of givens.now)
        givens.now.pairs.now path.old path.new)) }
    ensures handed { IfOk result (λ found. OnSome found (HandsFrom yes (scope_of givens.now)
        givens.now.pairs.now path.old path.new)) }
    ensures stop { IfErr result (StopsFrom yes (scope_of givens.now)
        givens.now.pairs.now path.old) }
{
    path.state.facts_are_few();
    if let Some(at) = forced_choice(alloc, &path.state, &path.choices, path.order.forced()) {
        return split_choice(alloc, givens, path, at, true);
    }
    if let Some(clash) = path.state.check()? {
        return Ok(Some(ProofTree::Leaf(clash)));
    }
    match next_open(alloc, givens, path) {
        Some(Open::Choice(at)) => split_choice(alloc, givens, path, at, false),
        Some(Open::Pair(at)) => split_probed(alloc, givens, path, at),
        None => Ok(None),
    }
}

/// Splits a pair where the values break the one at a place, which pair is found by probing.
#[cycle(search)]
fn split_probed<'a>(
    alloc: Global,
    givens: &Givens<'a>,
    path: &mut SearchPath<'a>,
    first: usize,
) -> Result<Option<ProofTree>, LinearStop>
    requires given { AreGiven (scope_of givens.now) givens.now.pairs.now }
    requires ready { IsReady (scope_of givens.now) givens.now.pairs.now path.old }
    requires solved { is_solved path.old.state.rows ≡ true }
    requires is_open { IsOpen path.old.pairs.items first }
    ensures tree { IfOk result (λ found. IfSome found (λ t. Proves (numbering_by (scope_of givens.now).terms)
        (path_of (scope_of givens.now) path.old) (tree_view t))) }
    ensures back { IfOk result (λ found. OnSome found (IsBack path.old path.new)) }
    ensures met { IfOk result (λ found. IfNone found (EndsMet (scope_of givens.now) givens.now.pairs.now
        (path_of (scope_of givens.now) path.old) path.new)) }
    ensures reached { IfOk result (λ found. IfNone found (ReachesFrom yes (scope_of givens.now)
        givens.now.pairs.now path.old path.new)) }
    ensures handed { IfOk result (λ found. OnSome found (HandsFrom yes (scope_of givens.now)
        givens.now.pairs.now path.old path.new)) }
    ensures stop { IfErr result (StopsFrom yes (scope_of givens.now)
        givens.now.pairs.now path.old) }
{
    let at = probed_pair(alloc, givens, path, first);
    split_pair(alloc, givens, path, at)
}

/// Splits a choice of which no member was taken, and which may be forced.
#[cycle(search)]
fn split_choice<'a>(
    alloc: Global,
    givens: &Givens<'a>,
    path: &mut SearchPath<'a>,
    at: usize,
    is_forced: bool,
) -> Result<Option<ProofTree>, LinearStop>
    requires given { AreGiven (scope_of givens.now) givens.now.pairs.now }
    requires ready { IsReady (scope_of givens.now) givens.now.pairs.now path.old }
    requires is_open { IsOpen path.old.choices.items at }
    ensures tree { IfOk result (λ found. IfSome found (λ t. Proves (numbering_by (scope_of givens.now).terms)
        (path_of (scope_of givens.now) path.old) (tree_view t))) }
    ensures back { IfOk result (λ found. OnSome found (IsBack path.old path.new)) }
    ensures met { IfOk result (λ found. IfNone found (EndsMet (scope_of givens.now) givens.now.pairs.now
        (path_of (scope_of givens.now) path.old) path.new)) }
    ensures reached { IfOk result (λ found. IfNone found (ReachesFrom yes (scope_of givens.now)
        givens.now.pairs.now path.old path.new)) }
    ensures handed { IfOk result (λ found. OnSome found (HandsFrom yes (scope_of givens.now)
        givens.now.pairs.now path.old path.new)) }
    ensures stop { IfErr result (StopsFrom yes (scope_of givens.now)
        givens.now.pairs.now path.old) }
{
    let members = path.choices[at].members;
    path.order.split(at, is_forced);
    set_done(&mut path.choices, at, true);
    match refute_each(alloc, givens, path, members)? {
        Some(split) => {
            set_done(&mut path.choices, at, false);
            path.order.refuted(at, &split);
            Ok(Some(any_tree(at, split)))
        }
        None => Ok(None),
    }
}

/// Splits a pair of which no way was taken.
#[cycle(search)]
fn split_pair<'a>(
    alloc: Global,
    givens: &Givens<'a>,
    path: &mut SearchPath<'a>,
    at: usize,
) -> Result<Option<ProofTree>, LinearStop>
    requires given { AreGiven (scope_of givens.now) givens.now.pairs.now }
    requires ready { IsReady (scope_of givens.now) givens.now.pairs.now path.old }
    requires is_open { IsOpen path.old.pairs.items at }
    ensures tree { IfOk result (λ found. IfSome found (λ t. Proves (numbering_by (scope_of givens.now).terms)
        (path_of (scope_of givens.now) path.old) (tree_view t))) }
    ensures back { IfOk result (λ found. OnSome found (IsBack path.old path.new)) }
    ensures met { IfOk result (λ found. IfNone found (EndsMet (scope_of givens.now) givens.now.pairs.now
        (path_of (scope_of givens.now) path.old) path.new)) }
    ensures reached { IfOk result (λ found. IfNone found (ReachesFrom yes (scope_of givens.now)
        givens.now.pairs.now path.old path.new)) }
    ensures handed { IfOk result (λ found. OnSome found (HandsFrom yes (scope_of givens.now)
        givens.now.pairs.now path.old path.new)) }
    ensures stop { IfErr result (StopsFrom yes (scope_of givens.now)
        givens.now.pairs.now path.old) }
{
    let pair = &givens.pairs[at];
    set_done(&mut path.pairs, at, true);
    match refute_each(alloc, givens, path, &pair.ways)? {
        Some(split) => {
            set_done(&mut path.pairs, at, false);
            Ok(Some(apart_tree(pair, split)))
        }
        None => Ok(None),
    }
}

/// Trees of a path by the members of a split, or one that proves it.
#[cycle(search)]
fn refute_each<'a>(
    alloc: Global,
    givens: &Givens<'a>,
    path: &mut SearchPath<'a>,
    members: &'a Nnfs,
) -> Result<Option<Split>, LinearStop>
    requires given { AreGiven (scope_of givens.now) givens.now.pairs.now }
    requires within { AreWithin (scope_of givens.now) (nnfs_view members.now) }
    requires ready { IsReadyForAny (nnfs_view members.now) (scope_of givens.now) givens.now.pairs.now path.old }
    ensures split { IfOk result (λ found. IfSome found (SplitProves (numbering_by (scope_of givens.now).terms)
        (path_of (scope_of givens.now) path.old) (nnfs_view members.now))) }
    ensures back { IfOk result (λ found. OnSome found (IsBack path.old path.new)) }
    ensures met { IfOk result (λ found. IfNone found (EndsMet (scope_of givens.now) givens.now.pairs.now
        (path_of (scope_of givens.now) path.old) path.new)) }
    ensures reached { IfOk result (λ found. IfNone found (ReachesFrom (any_of (nnfs_view members.now)) (scope_of givens.now)
        givens.now.pairs.now path.old path.new)) }
    ensures handed { IfOk result (λ found. OnSome found (HandsFrom (any_of (nnfs_view members.now)) (scope_of givens.now)
        givens.now.pairs.now path.old path.new)) }
    ensures stop { IfErr result (StopsFrom (any_of (nnfs_view members.now)) (scope_of givens.now)
        givens.now.pairs.now path.old) }
{
    let Ok(mut trees) = Trees::new(alloc) else {
        return Err(LinearStop::Memory);
    };
    for member in members.as_slice() {
        match refute_with(alloc, givens, path, member)? {
            None => return Ok(None),
            Some(Branch::Whole(tree)) => return Ok(Some(Split::Whole(tree))),
            Some(Branch::Own(tree)) => {
                let Ok(()) = trees.push(tree) else {
                    return Err(LinearStop::Memory);
                };
            }
        }
    }
    Ok(Some(Split::Each(trees)))
}

/// A tree of a path with a member taken, or of the path. The path is then as before.
#[cycle(search)]
fn refute_with<'a>(
    alloc: Global,
    givens: &Givens<'a>,
    path: &mut SearchPath<'a>,
    member: &'a Nnf,
) -> Result<Option<Branch>, LinearStop>
    requires given { AreGiven (scope_of givens.now) givens.now.pairs.now }
    requires within { IsWithin (scope_of givens.now) (nnf_view member.now) }
    requires ready { IsReadyFor (nnf_view member.now) (scope_of givens.now) givens.now.pairs.now path.old }
    ensures branch { IfOk result (λ found. IfSome found (BranchProves (numbering_by (scope_of givens.now).terms)
        (path_of (scope_of givens.now) path.old) (nnf_view member.now))) }
    ensures back { IfOk result (λ found. OnSome found (IsBack path.old path.new)) }
    ensures met { IfOk result (λ found. IfNone found (EndsMet (scope_of givens.now) givens.now.pairs.now
        (path_of (scope_of givens.now) path.old) path.new)) }
    ensures reached { IfOk result (λ found. IfNone found (ReachesFrom (nnf_view member.now) (scope_of givens.now)
        givens.now.pairs.now path.old path.new)) }
    ensures handed { IfOk result (λ found. OnSome found (HandsFrom (nnf_view member.now) (scope_of givens.now)
        givens.now.pairs.now path.old path.new)) }
    ensures stop { IfErr result (StopsFrom (nnf_view member.now) (scope_of givens.now)
        givens.now.pairs.now path.old) }
{
    let before = path.counts();
    match search_with(alloc, givens, path, member)? {
        Some(tree) => {
            path.back_to(before);
            Ok(Some(branch_of(alloc, tree, before, member)?))
        }
        None => Ok(None),
    }
}

// Takes a reading and searches. Where a tree is found, the path may have more facts and choices than before.
#[cycle(search)]
fn search_with<'a>(
    alloc: Global,
    givens: &Givens<'a>,
    path: &mut SearchPath<'a>,
    reading: &'a Nnf,
) -> Result<Option<ProofTree>, LinearStop>
    requires given { AreGiven (scope_of givens.now) givens.now.pairs.now }
    requires within { IsWithin (scope_of givens.now) (nnf_view reading.now) }
    requires ready { IsReadyFor (nnf_view reading.now) (scope_of givens.now) givens.now.pairs.now path.old }
    ensures tree { IfOk result (λ found. IfSome found (λ t. Proves (numbering_by (scope_of givens.now).terms)
        (taken (path_of (scope_of givens.now) path.old) (nnf_view reading.now)) (tree_view t))) }
    ensures longer { IfOk result (λ found. OnSome found (IsLonger path.old path.new)) }
    ensures met { IfOk result (λ found. IfNone found (EndsMet (scope_of givens.now) givens.now.pairs.now
        (taken (path_of (scope_of givens.now) path.old) (nnf_view reading.now)) path.new)) }
    ensures reached { IfOk result (λ found. IfNone found (ReachesFrom (nnf_view reading.now) (scope_of givens.now)
        givens.now.pairs.now path.old path.new)) }
    ensures handed { IfOk result (λ found. OnSome found (HandsFrom (nnf_view reading.now) (scope_of givens.now)
        givens.now.pairs.now path.old path.new)) }
    ensures stop { IfErr result (StopsFrom (nnf_view reading.now) (scope_of givens.now)
        givens.now.pairs.now path.old) }
{
    if let Some(leaf) = take_reading(alloc, givens, path, reading)? {
        return Ok(Some(leaf));
    }
    search(alloc, givens, path)
}

/// What a search comes to: a tree that proves the path, where there is one, and the path behind the search.
#[derive(Drop)]
pub struct Searched<'a> {
    pub tree: Option<ProofTree>,
    pub path: SearchPath<'a>,
}

/// Searches a path on which a reading is taken. Where there is no tree, nothing is left to split: of each choice and of each pair a member was
/// taken or is met, and values are known. Where the search stops, nothing of the path is left.
pub fn search_reading<'a>(
    alloc: Global,
    givens: &Givens<'a>,
    mut path: SearchPath<'a>,
    reading: &'a Nnf,
) -> Result<Searched<'a>, LinearStop>
    requires given { AreGiven (scope_of givens.now) givens.now.pairs.now }
    requires within { IsWithin (scope_of givens.now) (nnf_view reading.now) }
    requires ready { IsReadyFor (nnf_view reading.now) (scope_of givens.now) givens.now.pairs.now path }
    ensures tree { IfOk result (λ s. IfSome s.tree (λ t. Proves (numbering_by (scope_of givens.now).terms)
        (taken (path_of (scope_of givens.now) path.entry) (nnf_view reading.now)) (tree_view t))) }
    ensures longer { IfOk result (λ s. OnSome s.tree (IsLonger path.entry s.path)) }
    ensures met { IfOk result (λ s. IfNone s.tree (EndsMet (scope_of givens.now) givens.now.pairs.now
        (taken (path_of (scope_of givens.now) path.entry) (nnf_view reading.now)) s.path)) }
    ensures reached { IfOk result (λ s. IfNone s.tree (ReachesFrom (nnf_view reading.now) (scope_of givens.now)
        givens.now.pairs.now path.entry s.path)) }
    ensures handed { IfOk result (λ s. OnSome s.tree (HandsFrom (nnf_view reading.now) (scope_of givens.now)
        givens.now.pairs.now path.entry s.path)) }
    ensures stop { IfErr result (StopsFrom (nnf_view reading.now) (scope_of givens.now) givens.now.pairs.now path.entry) }
{
    let tree = search_with(alloc, givens, &mut path, reading)?;
    Ok(Searched { tree, path })
}
