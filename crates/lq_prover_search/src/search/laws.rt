// What splitting a pair proves, and what is met where nothing is left to split.
ghost use Rattle.std.specs.Prelude.{◌≡◌, List};
ghost use Rattle.std.specs.List.{filter};
ghost use Rattle.lq_prover_case.specs.State.RowState.{row_point};
ghost use Rattle.lq_prover_proof_tree.specs.Trees.Met.{AllChosen, MeetsPath};
ghost use Rattle.lq_prover_proof_tree.specs.Trees.Path.{Path};
ghost use Rattle.lq_prover_proof_tree.specs.Trees.Proves.{Numbering, Proves, ProvesEach};
ghost use Rattle.lq_prover_proof_tree.specs.Trees.Tree.{Trees, apart};
ghost use Rattle.lq_prover_proof_tree.specs.Literals.Parts.{is_application};
ghost use Rattle.lq_prover_search.specs.Path.Meeting.{IsAt};
ghost use Rattle.lq_logic_predicates.specs.NnfView.{nnfs_view};
ghost use Rattle.lq_logic_predicates.specs.Points.{Point};
ghost use Rattle.lq_prover_search.specs.Search.Pairs.{IsPair};
ghost use Rattle.lq_prover_search.specs.Search.Scope.{Scope};
ghost use Rattle.lq_prover_search.specs.Search.SearchPath.{EndsMet, ways_of};
ghost use Rattle.lq_prover_search.specs.declared.search.pair.Pair.{Pair};
ghost use Rattle.lq_prover_search.specs.declared.search.search_path.SearchPath.{SearchPath};

/// Trees that prove a path with each of the ways of a pair taken prove the path, under one node for the pair.
pub fn pairs_are_split_by_their_ways()
    ensures { (n : Numbering) (p : Path) (pair : Pair) (trees : Trees)
        → n.applications ≡ filter is_application n.terms → IsPair n.terms pair
        → ProvesEach n p (nnfs_view pair.ways) trees → Proves n p (apart pair.left pair.right trees) }
{}

/// Who is where the flags and objects of a path are on which nothing is left to split meets, at its values, the path that it began with
/// and a way of each pair.
pub fn settled_paths_are_met()
    ensures { (s : Scope) (pairs : List Pair) (path : Path) (p : SearchPath) (q : Point) → EndsMet s pairs path p
        → IsAt s.objects p.state q → MeetsPath (row_point p.state.rows) q path
        × AllChosen (row_point p.state.rows) q (ways_of pairs) }
{}
