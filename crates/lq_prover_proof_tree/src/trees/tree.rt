// Proof trees.
ghost use Rattle.std.specs.Prelude.{◌≡◌, [], ◌∷◌, ◌++◌, length, slice_get, option_copied, OnOk, OnErr, IfOk};

use lq_base_numbers::fractions::Frac;
use std::alloc::{AllocError, Global};

/// Numbers of facts in a row.
#[derive(Drop)]
pub struct Tags {
    items: Vec<u64>,
}

impl Tags {
    ghost use Rattle.lq_prover_proof_tree.specs.Trees.TreeView.{tag_items};

    /// No numbers.
    pub fn new(alloc: Global) -> Result<Tags, AllocError>
        ensures { IfOk result (λ tags. tag_items tags ≡ []) }
    {
        Ok(Tags {
            items: Vec::new(alloc),
        })
    }

    /// How many numbers there are.
    pub fn len(&self) -> usize
        ensures { result ≡ length (tag_items self.now) }
    {
        self.items.len()
    }

    /// The number at an index, and None past the last one.
    pub fn get(&self, at: usize) -> Option<&u64>
        ensures { option_copied result ≡ slice_get (tag_items self.now) at }
    {
        self.items.get(at)
    }

    /// The numbers in their order.
    pub fn as_slice(&self) -> &[u64]
        ensures { result.now ≡ tag_items self.now }
    {
        self.items.as_slice()
    }

    /// Adds a number at the end. Where memory is refused, the numbers stay as they were.
    pub fn push(&mut self, tag: u64) -> Result<(), AllocError>
        ensures ok { OnOk result (tag_items self.new ≡ tag_items self.old ++ tag ∷ []) }
        ensures err { OnErr result (tag_items self.new ≡ tag_items self.old) }
    {
        self.items.push(tag)?;
        Ok(())
    }
}

/// Rows by the numbers of their facts, each with its multiplier.
#[derive(Drop)]
pub struct Multipliers {
    items: Vec<(u64, Frac)>,
}

impl Multipliers {
    ghost use Rattle.lq_prover_proof_tree.specs.Trees.TreeView.{multiplier_items};

    /// No rows.
    pub fn new(alloc: Global) -> Result<Multipliers, AllocError>
        ensures { IfOk result (λ multipliers. multiplier_items multipliers ≡ []) }
    {
        Ok(Multipliers {
            items: Vec::new(alloc),
        })
    }

    /// How many rows there are.
    pub fn len(&self) -> usize
        ensures { result ≡ length (multiplier_items self.now) }
    {
        self.items.len()
    }

    /// The row at an index with its multiplier, and None past the last one.
    pub fn get(&self, at: usize) -> Option<&(u64, Frac)>
        ensures { option_copied result ≡ slice_get (multiplier_items self.now) at }
    {
        self.items.get(at)
    }

    /// The rows in their order.
    pub fn as_slice(&self) -> &[(u64, Frac)]
        ensures { result.now ≡ multiplier_items self.now }
    {
        self.items.as_slice()
    }

    /// Adds a row at the end. Where memory is refused, the rows stay as they were.
    pub fn push(&mut self, multiplier: (u64, Frac)) -> Result<(), AllocError>
        ensures ok { OnOk result (multiplier_items self.new ≡ multiplier_items self.old ++ multiplier ∷ []) }
        ensures err { OnErr result (multiplier_items self.new ≡ multiplier_items self.old) }
    {
        self.items.push(multiplier)?;
        Ok(())
    }
}

/// Why the facts of a path can't all hold.
#[derive(Drop)]
pub enum CaseProof {
    /// Rows that sum to a contradiction.
    Rows(Multipliers),
    /// Two facts that give one flag two values.
    Flags(u64, u64),
    /// A fact that two objects differ, and facts that join them.
    Merges(u64, Tags),
}

/// Why a path has no point. Facts, choices and applications are numbered from 1.
#[cycle(proof_tree)]
#[derive(Drop)]
pub enum ProofTree {
    /// A choice, with a tree for each of its members.
    Any(u64, Trees),
    /// Two applications of one of `*`, `/` and `mod`, with a tree for each of the five ways in which they
    /// stand.
    Apart(u64, u64, Trees),
    /// Two applications of one function of one object, the facts that join their objects, and the tree behind
    /// the row that the two are equal.
    Equal(u64, u64, Tags, Box<ProofTree>),
    /// A fact that never holds.
    False(u64),
    /// Facts that can't all hold.
    Leaf(CaseProof),
}

/// Proof trees in a row.
#[cycle(proof_tree)]
#[derive(Drop)]
pub struct Trees {
    items: Vec<ProofTree>,
}

impl Trees {
    ghost use Rattle.lq_prover_proof_tree.specs.Trees.TreeView.{tree_items};

    /// No trees.
    pub fn new(alloc: Global) -> Result<Trees, AllocError>
        ensures { IfOk result (λ trees. tree_items trees ≡ []) }
    {
        Ok(Trees {
            items: Vec::new(alloc),
        })
    }

    /// How many trees there are.
    pub fn len(&self) -> usize
        ensures { result ≡ length (tree_items self.now) }
    {
        self.items.len()
    }

    /// The tree at an index, and None past the last one.
    pub fn get(&self, at: usize) -> Option<&ProofTree>
        ensures { option_copied result ≡ slice_get (tree_items self.now) at }
    {
        self.items.get(at)
    }

    /// The trees in their order.
    pub fn as_slice(&self) -> &[ProofTree]
        ensures { result.now ≡ tree_items self.now }
    {
        self.items.as_slice()
    }

    /// Adds a tree at the end. Where memory is refused, the trees stay as they were.
    pub fn push(&mut self, tree: ProofTree) -> Result<(), AllocError>
        ensures ok { OnOk result (tree_items self.new ≡ tree_items self.old ++ tree ∷ []) }
        ensures err { OnErr result (tree_items self.new ≡ tree_items self.old) }
    {
        self.items.push(tree)?;
        Ok(())
    }
}
