// A reading is taken on a path.
ghost use Rattle.std.specs.Prelude.{IfErr, IfNone, IfOk, IfSome, OnOk};
ghost use Rattle.lq_prover_case.specs.State.PathState.{KeepsHanded};
ghost use Rattle.lq_prover_proof_tree.specs.Trees.Path.{taken};
ghost use Rattle.lq_prover_proof_tree.specs.Trees.Proves.{Proves};
ghost use Rattle.lq_prover_proof_tree.specs.Trees.TreeView.{tree_view};
ghost use Rattle.lq_prover_case.specs.Equations.Equating.{numbering_by};
ghost use Rattle.lq_logic_predicates.specs.NnfView.{nnf_view};
ghost use Rattle.lq_prover_search.specs.Search.Scope.{IsWithin};
ghost use Rattle.lq_prover_search.specs.Search.SearchPath.{IsLonger, IsReady, IsReadyFor, IsTaken, path_of, scope_of};
ghost use Rattle.lq_prover_search.specs.Search.Stopping.{StopsFrom};

use crate::search::givens::Givens;
use crate::search::parts::add_parts;
use crate::search::search_path::SearchPath;
use crate::search::taking::take_parts;
use lq_logic_predicates::Nnf;
use lq_logic_rows::LinearStop;
use lq_prover_proof_tree::trees::{ProofTree, proved_paths_have_no_point};
use std::alloc::Global;

/// Takes a reading without a search: its literals are the next facts, and readings in it of which one is to hold the next choices. A tree is a
/// leaf, of a clash on the way, which proves the path with all of the reading taken; the path then has some of it. Where there is none, all
/// of it is taken, and more can be taken behind it, or searched. [`SearchPath::back_to`] takes it back.
pub fn take_reading<'a>(
    alloc: Global,
    givens: &Givens<'a>,
    path: &mut SearchPath<'a>,
    reading: &'a Nnf,
) -> Result<Option<ProofTree>, LinearStop>
    requires within { IsWithin (scope_of givens.now) (nnf_view reading.now) }
    requires ready { IsReadyFor (nnf_view reading.now) (scope_of givens.now) givens.now.pairs.now path.old }
    ensures tree { IfOk result (λ found. IfSome found (λ t. Proves (numbering_by (scope_of givens.now).terms)
        (taken (path_of (scope_of givens.now) path.old) (nnf_view reading.now)) (tree_view t))) }
    ensures longer { OnOk result (IsLonger path.old path.new) }
    ensures taken { IfOk result (λ found. IfNone found (IsTaken (scope_of givens.now) (nnf_view reading.now) path.old path.new)) }
    ensures ready { IfOk result (λ found. IfNone found (IsReady (scope_of givens.now) givens.now.pairs.now path.new)) }
    ensures handed { KeepsHanded path.old.state path.new.state }
    ensures stop { IfErr result (StopsFrom (nnf_view reading.now) (scope_of givens.now) givens.now.pairs.now path.old) }
{
    proved_paths_have_no_point();
    path.state.facts_are_few();
    let mut parts = Vec::new(alloc);
    let Ok(()) = add_parts(reading, &mut parts, &mut path.choices) else {
        return Err(LinearStop::Memory);
    };
    if let Some(leaf) = take_parts(&mut path.state, givens.objects, &parts)? {
        return Ok(Some(leaf));
    }
    Ok(None)
}
