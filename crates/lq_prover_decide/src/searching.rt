// A case without a point has a proof tree.
ghost use Rattle.std.specs.Prelude.{◌≡◌, [], IfErr, IfOk, IfNone, IfSome, length};
ghost use Rattle.lq_prover_case.specs.State.PathState.{HasHanded, facts_in};
ghost use Rattle.lq_prover_case.specs.State.RowState.{terms_of as row_terms};
ghost use Rattle.lq_prover_proof_tree.specs.Trees.Proves.{Proves};
ghost use Rattle.lq_prover_proof_tree.specs.Trees.Tree.{leaf};
ghost use Rattle.lq_prover_proof_tree.specs.Trees.TreeView.{clash_of, tree_view};
ghost use Rattle.lq_prover_decide.specs.Case.{path_of};
ghost use Rattle.lq_prover_decide.specs.CaseView.{case_of};
ghost use Rattle.lq_prover_decide.specs.Deciding.{IsChainOfEquals};
ghost use Rattle.lq_prover_case.specs.Equations.Equating.{around, numbering_by};
ghost use Rattle.lq_prover_case.specs.Equations.Naming.{AllBelow, HasAllArguments, HasAllSides, name_in, objects_of};
ghost use Rattle.lq_prover_decide.specs.Settled.{IsSettled};
ghost use Rattle.lq_prover_decide.specs.Stopping.{HandsItsRows, StopsOnRows};
ghost use Rattle.lq_logic_rows.specs.declared.engine.LinearStop.TheVariants.{Memory};

use crate::literals::Literals;
use crate::taking::take_facts;
use lq_logic_rows::LinearStop;
use lq_prover_case::equations::{Joint, ObjectTable, equate_all, wrapped};
use lq_prover_case::state::PathState;
use lq_prover_proof_tree::trees::{CaseProof, ProofTree};
use std::alloc::{AllocError, Global};

/// The tree of a clash behind these nodes.
fn refutation(alloc: Global, joints: Vec<Joint>, clash: CaseProof) -> Result<ProofTree, LinearStop>
    ensures memory { IfErr result (λ stop. stop ≡ Memory) }
    ensures is { IfOk result (λ tree. tree_view tree ≡ around joints.items (leaf (clash_of clash))) }
{
    match wrapped(alloc, joints, ProofTree::Leaf(clash)) {
        Ok(tree) => Ok(tree),
        Err(AllocError) => Err(LinearStop::Memory),
    }
}

/// A proof tree of a case. Where there is none, the state has taken its literals and has values for them.
pub(crate) fn refute(
    alloc: Global,
    literals: &Literals,
    objects: &ObjectTable,
    state: &mut PathState,
) -> Result<Option<ProofTree>, LinearStop>
    requires empty { facts_in (name_in (objects_of objects.now)) state.old ≡ [] }
    requires handed { HasHanded state.old [] }
    requires sides { HasAllSides (objects_of objects.now) (case_of literals.now).facts }
    requires arguments { HasAllArguments (objects_of objects.now) (case_of literals.now).terms }
    requires below { AllBelow (row_terms state.old.rows) (case_of literals.now).facts }
    requires count { state.old.objects.count ≡ length (objects_of objects.now) }
    requires terms { row_terms state.old.rows ≡ length (case_of literals.now).terms }
    ensures tree { IfOk result (λ found. IfSome found (λ t. Proves (numbering_by (case_of literals.now).terms)
        (path_of (case_of literals.now)) (tree_view t))) }
    ensures form { IfOk result (λ found. IfSome found (λ t. IsChainOfEquals (tree_view t))) }
    ensures settled { IfOk result (λ found. IfNone found (IsSettled (objects_of objects.now)
        (case_of literals.now) state.new)) }
    ensures handed { IfOk result (λ found. IfNone found (HandsItsRows (case_of literals.now) state.new)) }
    ensures terms { row_terms state.new.rows ≡ row_terms state.old.rows }
    ensures count { state.new.objects.count ≡ state.old.objects.count }
    ensures stop { IfErr result (StopsOnRows state.old.rows.pivots (case_of literals.now)) }
{
    let table = literals.table();
    let _terms = table.len();
    let _count = objects.len();
    if let Some(clash) = take_facts(state, objects, literals.facts().as_slice())? {
        return Ok(Some(ProofTree::Leaf(clash)));
    }
    let (joints, found) = equate_all(alloc, state, objects, table)?;
    if let Some(clash) = found {
        return Ok(Some(refutation(alloc, joints, clash)?));
    }
    match state.check()? {
        Some(clash) => Ok(Some(refutation(alloc, joints, clash)?)),
        None => Ok(None),
    }
}
