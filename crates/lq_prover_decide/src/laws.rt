// What a proof tree says of a case.
ghost use Rattle.std.specs.Prelude.{IsTrue};
ghost use Rattle.lq_prover_proof_tree.specs.Trees.Met.{AllHold};
ghost use Rattle.lq_prover_proof_tree.specs.Trees.Proves.{Proves};
ghost use Rattle.lq_prover_proof_tree.specs.Trees.Tree.{Tree};
ghost use Rattle.lq_prover_decide.specs.Case.{Case, numbering_of, path_of};
ghost use Rattle.lq_logic_rows.specs.Row.{Valuation};
ghost use Rattle.lq_logic_predicates.specs.ClosedImplication.{IsPoint};
ghost use Rattle.lq_logic_predicates.specs.Points.{Point};
ghost use Rattle.lq_logic_predicates.specs.RowMeaning.{AgreesOn};
ghost use Rattle.lq_logic_predicates.specs.Table.{all_differ};

use lq_prover_proof_tree::trees::proved_paths_have_no_point;

/// A case has no point where a tree proves the path whose facts are its literals in order.
pub fn proved_cases_have_no_point()
    ensures { (c : Case) (tree : Tree) (v : Valuation) (p : Point) → IsTrue (all_differ c.terms)
        → AgreesOn c.terms v p → IsPoint c.implication p → AllHold v p c.facts
        → Proves (numbering_of c) (path_of c) tree → ⊥ }
{
    proved_paths_have_no_point();
}
