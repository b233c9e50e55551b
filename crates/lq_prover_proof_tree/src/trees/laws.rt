// What is known of a path and of an implication that a tree proves.
ghost use Rattle.std.specs.Prelude.{◌≡◌, ◌↔◌, false, List, IsTrue};
ghost use Rattle.lq_logic_rows.specs.Row.{Row, Valuation};
ghost use Rattle.lq_prover_proof_tree.specs.Literals.Parts.{applications_in};
ghost use Rattle.lq_logic_predicates.specs.ClosedImplication.{ClosedImplication, IsValid, MeetsEach};
ghost use Rattle.lq_logic_predicates.specs.Points.{Point, Meets};
ghost use Rattle.lq_logic_predicates.specs.Reading.{Reading, reading_of};
ghost use Rattle.lq_logic_predicates.specs.RowMeaning.{AgreesOn, MeetsRows};
ghost use Rattle.lq_logic_predicates.specs.Sum.{Sum};
ghost use Rattle.lq_logic_predicates.specs.Table.{all_differ};
ghost use Rattle.lq_prover_proof_tree.specs.Trees.Examples.{IsProvedBy, both, both_path, both_tree, itself, itself_path};
ghost use Rattle.lq_prover_proof_tree.specs.Trees.Met.{MeetsPath, EachAgree};
ghost use Rattle.lq_prover_proof_tree.specs.Trees.Path.{Path, taken, IsOpening};
ghost use Rattle.lq_prover_proof_tree.specs.Trees.Proves.{Numbering, Proves};
ghost use Rattle.lq_prover_proof_tree.specs.Trees.Tree.{Tree, flags, leaf};
ghost use Rattle.lq_logic_predicates.specs.declared.symbol.Symbol.{Symbol};

use lq_logic_predicates::rows_say_what_comparisons_say;
use lq_logic_rows::conflict_or_point;

/// No point meets a path that a tree proves, at which each two of the applications agree. A point meets a
/// path with a reading taken exactly where it meets the path and the reading.
pub fn proved_paths_have_no_point()
    ensures none { (n : Numbering) (v : Valuation) (p : Point) (path : Path) (tree : Tree)
        → IsTrue (all_differ n.terms) → AgreesOn n.terms v p → EachAgree p n.applications
        → MeetsPath v p path → Proves n path tree → ⊥ }
    ensures taken { (v : Valuation) (p : Point) (path : Path) (reading : Reading Row)
        → MeetsPath v p (taken path reading) ↔ (MeetsPath v p path × MeetsRows v p reading) }
{
    conflict_or_point();
    rows_say_what_comparisons_say();
}

/// An implication is valid where a tree proves its opening path. A point meets that path exactly where it
/// meets the hypotheses and the negated goal.
pub fn proved_implications_are_valid()
    ensures valid { (terms : List Sum) (i : ClosedImplication) (path : Path) (tree : Tree)
        → IsTrue (all_differ terms) → IsOpening terms i path
        → Proves (record { terms = terms; applications = applications_in i }) path tree → IsValid i }
    ensures met { (terms : List Sum) (v : Valuation) (p : Point) (i : ClosedImplication) (path : Path)
        → IsTrue (all_differ terms) → AgreesOn terms v p → IsOpening terms i path
        → MeetsPath v p path ↔ (MeetsEach p i.hypotheses × Meets p (reading_of false i.goal)) }
{
    proved_paths_have_no_point();
    rows_say_what_comparisons_say();
}

/// Small implications with the trees that prove them.
pub fn examples()
    ensures itself { (x : Symbol) → IsProvedBy (itself x) (itself_path x) (leaf (flags 1 2)) }
    ensures both { (x y : Symbol) → IsProvedBy (both x y) (both_path x y) both_tree }
{}
