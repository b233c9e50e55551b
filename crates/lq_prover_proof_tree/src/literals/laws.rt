// What the sources of literals are.
ghost use Rattle.std.specs.Prelude.{◌≡◌, ◌↔◌};
ghost use Rattle.lq_logic_predicates.specs.ClosedImplication.{ClosedImplication};
ghost use Rattle.lq_logic_predicates.specs.Formula.{Formula};
ghost use Rattle.lq_logic_predicates.specs.Literals.{implication_literals};
ghost use Rattle.lq_prover_proof_tree.specs.Literals.Gathered.{CanBeGathered, AllGathered, IsFirstPast};
ghost use Rattle.lq_prover_proof_tree.specs.Literals.Sources.{sources_of, literals_in};

/// The literals of the sources are those of the implication, in their order. So an implication can be
/// gathered exactly where each of its sources can, and where one is the first that can't, the implication can't.
pub fn sources_have_the_literals()
    ensures literals { (i : ClosedImplication) → literals_in (sources_of i) ≡ implication_literals i }
    ensures gathered { (i : ClosedImplication) → AllGathered (sources_of i) ↔ CanBeGathered i }
    ensures past { (i : ClosedImplication) (p : Formula) → IsFirstPast (sources_of i) p → CanBeGathered i
        → ⊥ }
{}
