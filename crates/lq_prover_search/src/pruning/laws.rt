// What a tree proves that speaks of none of some facts and choices.
ghost use Rattle.std.specs.Prelude.{◌≡◌, ◌++◌, List, length};
ghost use Rattle.lq_prover_proof_tree.specs.Trees.Path.{Fact};
ghost use Rattle.lq_prover_proof_tree.specs.Trees.Proves.{Clashes, Numbering, Proves};
ghost use Rattle.lq_prover_proof_tree.specs.Trees.Tree.{Clash, Tree};
ghost use Rattle.lq_logic_rows.specs.Row.{Row};
ghost use Rattle.lq_logic_predicates.specs.Reading.{Readings};
ghost use Rattle.lq_prover_search.specs.Pruning.Moved.{Spares, moved_tree};
ghost use Rattle.lq_prover_search.specs.declared.pruning.span.Span.{Span};

/// Where a tree that proves a path speaks of none of some facts and choices that stand in a row each, it proves the path without them,
/// with the numbers that are left.
pub fn spared_facts_can_go()
    ensures { (n : Numbering) (f g h : List Fact) (c d e : List (Readings Row)) (facts choices : Span) (tree : Tree)
        → facts.before ≡ length f → facts.count ≡ length g → choices.before ≡ length c → choices.count ≡ length d
        → Spares facts choices tree
        → Proves n (record { facts = f ++ (g ++ h); choices = c ++ (d ++ e) }) tree
        → Proves n (record { facts = f ++ h; choices = c ++ e }) (moved_tree facts choices tree) }
{}

/// Facts that clash do so with more facts behind them.
pub fn clashes_stay()
    ensures { (f g : List Fact) (clash : Clash) → Clashes f clash → Clashes (f ++ g) clash }
{}
