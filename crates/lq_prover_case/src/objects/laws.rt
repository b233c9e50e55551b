// What facts about objects are among the facts of a path.
ghost use Rattle.std.specs.Prelude.{ℕ, List};
ghost use Rattle.lq_prover_proof_tree.specs.Trees.Path.{Fact};
ghost use Rattle.lq_prover_proof_tree.specs.Trees.Proves.{AreJoined, Clashes};
ghost use Rattle.lq_prover_proof_tree.specs.Trees.Tree.{Clash};
ghost use Rattle.lq_prover_case.specs.Objects.Joined.{IsClash, IsJoined, StandAs};
ghost use Rattle.lq_prover_case.specs.declared.objects.fact.ObjectFact.{ObjectFact};
ghost use Rattle.lq_logic_predicates.specs.Sum.{Sum};

/// Where each fact about objects stands on a path under its number, over a naming of the objects by terms, what joins two objects joins
/// their terms, and a clash is one of the path.
pub fn objects_say_what_facts_say()
    ensures joined { (name : ℕ → Sum) (objects : List ObjectFact) (facts : List Fact) (tags : List ℕ) (a b : ℕ)
        → StandAs name objects facts → IsJoined objects tags a b → AreJoined facts tags (name a) (name b) }
    ensures clash { (name : ℕ → Sum) (objects : List ObjectFact) (facts : List Fact) (clash : Clash)
        → StandAs name objects facts → IsClash objects clash → Clashes facts clash }
{}
