// Literals become the next facts of a path.
ghost use Rattle.std.specs.Prelude.{◌≡◌, ℕ, [], ◌∷◌, ◌++◌, List, IfErr, IfNone, IfOk, IfSome, length};
ghost use Rattle.lq_prover_case.specs.State.PathState.{KeepsHanded, facts_in, objects_in};
ghost use Rattle.lq_prover_case.specs.State.RowState.{terms_of};
ghost use Rattle.lq_prover_proof_tree.specs.Trees.Path.{never};
ghost use Rattle.lq_prover_proof_tree.specs.Trees.Proves.{rows_among};
ghost use Rattle.lq_prover_proof_tree.specs.Trees.TreeView.{tree_view};
ghost use Rattle.lq_prover_differences.specs.Stops.{StopsBy};
ghost use Rattle.lq_prover_differences.specs.Table.{constants};
ghost use Rattle.lq_prover_case.specs.Equations.Equating.{Grows};
ghost use Rattle.lq_prover_case.specs.Equations.Naming.{AllBelow, AllTold, HasAllSides, HasSides, IsBelow, name_in, objects_of};
ghost use Rattle.lq_logic_rows.specs.Row.{Row};
ghost use Rattle.lq_logic_rows.specs.declared.engine.LinearStop.TheVariants.{Memory};
ghost use Rattle.lq_prover_search.specs.Path.SearchPath.{IsLeafOf, SameLimits};
ghost use Rattle.lq_logic_predicates.specs.Reading.{Readings};
ghost use Rattle.lq_logic_predicates.specs.Sum.{Sum};
ghost use Rattle.lq_prover_search.specs.Search.Parts.{facts_of, part_fact, path_with};
ghost use Rattle.lq_prover_search.specs.Search.Scope.{AllMayHold, MayHold};

use crate::pruning::clashes_stay;
use crate::search::parts::Part;
use lq_logic_rows::LinearStop;
use lq_prover_case::equations::{ObjectTable, take_literal};
use lq_prover_case::state::PathState;
use lq_prover_proof_tree::trees::ProofTree;

/// The tree of a fact that never holds, which is the next one.
fn never(state: &PathState) -> Result<ProofTree, LinearStop>
    ensures leaf { IfOk result (λ t. (name : ℕ → Sum) (choices : List (Readings Row))
        → IsLeafOf (path_with (facts_in name state.now ++ never ∷ []) choices) (tree_view t)) }
    ensures memory { IfErr result (λ stop. stop ≡ Memory) }
{
    match state.mark().0.checked_add(1) {
        Some(number) => Ok(ProofTree::False(number)),
        None => Err(LinearStop::Memory),
    }
}

/// Takes a literal as the next fact. A clash with it is the answer, and so is what never holds, which isn't taken.
fn take_part(
    state: &mut PathState,
    objects: &ObjectTable,
    part: &Part<'_>,
) -> Result<Option<ProofTree>, LinearStop>
    requires sides { HasSides (objects_of objects.now) (part_fact part.now) }
    requires below { IsBelow (terms_of state.old.rows) (part_fact part.now) }
    requires count { state.old.objects.count ≡ length (objects_of objects.now) }
    ensures stands { IfOk result (λ found. IfNone found (facts_in (name_in (objects_of objects.now)) state.new
        ≡ facts_in (name_in (objects_of objects.now)) state.old ++ part_fact part.now ∷ [])) }
    ensures may_hold { IfOk result (λ found. IfNone found (MayHold (part_fact part.now))) }
    ensures told { IfOk result (λ found. IfNone found (AllTold (objects_of objects.now) (objects_in state.old)
        (facts_in (name_in (objects_of objects.now)) state.old) → AllTold (objects_of objects.now) (objects_in state.new)
        (facts_in (name_in (objects_of objects.now)) state.new))) }
    ensures leaf { IfOk result (λ found. IfSome found (λ t. (choices : List (Readings Row))
        → IsLeafOf (path_with (facts_in (name_in (objects_of objects.now)) state.old ++ part_fact part.now ∷ []) choices)
        (tree_view t))) }
    ensures grows { (name : ℕ → Sum) → Grows (facts_in name state.old) (facts_in name state.new) }
    ensures limits { SameLimits state.new state.old }
    ensures handed { KeepsHanded state.old state.new }
    ensures stop { IfErr result (StopsBy (constants (rows_among (facts_in (name_in (objects_of objects.now)) state.old
        ++ part_fact part.now ∷ [])))) }
{
    let literal = match part {
        Part::Never => return Ok(Some(never(state)?)),
        Part::Known(literal) => literal,
    };
    match take_literal(state, objects, literal)? {
        Some(clash) => Ok(Some(ProofTree::Leaf(clash))),
        None => Ok(None),
    }
}

/// Takes literals in order, up to the first clash.
pub(crate) fn take_parts(
    state: &mut PathState,
    objects: &ObjectTable,
    parts: &[Part<'_>],
) -> Result<Option<ProofTree>, LinearStop>
    requires sides { HasAllSides (objects_of objects.now) (facts_of parts.now) }
    requires below { AllBelow (terms_of state.old.rows) (facts_of parts.now) }
    requires count { state.old.objects.count ≡ length (objects_of objects.now) }
    ensures stands { IfOk result (λ found. IfNone found (facts_in (name_in (objects_of objects.now)) state.new
        ≡ facts_in (name_in (objects_of objects.now)) state.old ++ facts_of parts.now)) }
    ensures may_hold { IfOk result (λ found. IfNone found (AllMayHold (facts_of parts.now))) }
    ensures told { IfOk result (λ found. IfNone found (AllTold (objects_of objects.now) (objects_in state.old)
        (facts_in (name_in (objects_of objects.now)) state.old) → AllTold (objects_of objects.now) (objects_in state.new)
        (facts_in (name_in (objects_of objects.now)) state.new))) }
    ensures leaf { IfOk result (λ found. IfSome found (λ t. (choices : List (Readings Row))
        → IsLeafOf (path_with (facts_in (name_in (objects_of objects.now)) state.old ++ facts_of parts.now) choices)
        (tree_view t))) }
    ensures grows { (name : ℕ → Sum) → Grows (facts_in name state.old) (facts_in name state.new) }
    ensures limits { SameLimits state.new state.old }
    ensures handed { KeepsHanded state.old state.new }
    ensures stop { IfErr result (StopsBy (constants (rows_among (facts_in (name_in (objects_of objects.now)) state.old
        ++ facts_of parts.now)))) }
{
    clashes_stay();
    for part in parts {
        if let Some(leaf) = take_part(state, objects, part)? {
            return Ok(Some(leaf));
        }
    }
    Ok(None)
}
