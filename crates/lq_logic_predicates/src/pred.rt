// Predicates, implications without unknowns, and why an implication has no verdict.
ghost use Rattle.std.specs.Prelude.{◌≡◌, [], ◌∷◌, ◌++◌, length, slice_get, IfOk, OnOk, OnErr};
ghost use Rattle.std.specs.Option.{option_copied};

use crate::gathering::number_terms;
use crate::symbol::Symbol;
use crate::table::TermTable;
use crate::term::Term;
use lq_base_names::CompareOp;
use lq_base_numbers::fractions::NumberPast;
use std::alloc::{AllocError, Global};
use thiserror::Error;

/// A predicate.
#[derive(Debug, Drop)]
pub enum Pred {
    /// It always holds.
    True,
    /// It never holds.
    False,
    /// A truth value is true.
    Flag(Symbol),
    /// Two whole numbers compare so.
    Compare(CompareOp, Term, Term),
    /// Two objects are one.
    Same(Term, Term),
    /// It doesn't hold.
    Not(Box<Pred>),
    /// Both hold.
    And(Box<Pred>, Box<Pred>),
    /// At least one of them holds.
    Or(Box<Pred>, Box<Pred>),
    /// Both hold, or neither does.
    Iff(Box<Pred>, Box<Pred>),
}

impl Pred {
    ghost use Rattle.lq_logic_predicates.specs.PredView.{formula_of};
    ghost use Rattle.lq_logic_predicates.specs.Reading.{formula_numbered};
    ghost use Rattle.lq_logic_predicates.specs.Table.{Extends};
    ghost use Rattle.lq_logic_predicates.specs.TableView.{terms_of};

    /// An equal predicate.
    #[cycle(copy)]
    pub fn copy(&self, alloc: Global) -> Result<Pred, AllocError>
        ensures { IfOk result (λ pred. formula_of pred ≡ formula_of self.now) }
    {
        match self {
            Pred::True => Ok(Pred::True),
            Pred::False => Ok(Pred::False),
            Pred::Flag(x) => Ok(Pred::Flag(*x)),
            Pred::Compare(op, a, b) => Ok(Pred::Compare(*op, a.copy(alloc)?, b.copy(alloc)?)),
            Pred::Same(a, b) => Ok(Pred::Same(a.copy(alloc)?, b.copy(alloc)?)),
            Pred::Not(p) => Ok(Pred::Not(p.boxed(alloc)?)),
            Pred::And(p, q) => Ok(Pred::And(p.boxed(alloc)?, q.boxed(alloc)?)),
            Pred::Or(p, q) => Ok(Pred::Or(p.boxed(alloc)?, q.boxed(alloc)?)),
            Pred::Iff(p, q) => Ok(Pred::Iff(p.boxed(alloc)?, q.boxed(alloc)?)),
        }
    }

    /// Numbers the terms of the predicate that a table numbers, in the order of its text, an inner one
    /// before the outer.
    #[tactic(auto, using(crate::specs::Growing::growing))]
    pub fn number_terms(&self, alloc: Global, table: &mut TermTable) -> Result<(), AllocError>
        ensures numbered { OnOk result (terms_of table.new ≡ formula_numbered (terms_of table.old)
            (formula_of self.now)) }
        ensures grows { Extends (terms_of table.old) (terms_of table.new) }
    {
        match self {
            Pred::True | Pred::False | Pred::Flag(_) | Pred::Same(_, _) => Ok(()),
            Pred::Compare(_, a, b) => {
                number_terms(alloc, a, table)?;
                number_terms(alloc, b, table)
            }
            Pred::Not(p) => p.number_terms(alloc, table),
            Pred::And(p, q) | Pred::Or(p, q) | Pred::Iff(p, q) => {
                p.number_terms(alloc, table)?;
                q.number_terms(alloc, table)
            }
        }
    }

    #[cycle(copy)]
    fn boxed(&self, alloc: Global) -> Result<Box<Pred>, AllocError>
        ensures { IfOk result (λ b. formula_of b.value ≡ formula_of self.now) }
    {
        let copied = self.copy(alloc)?;
        Ok(Box::new(alloc, copied)?)
    }
}

/// Predicates in a row.
#[derive(Debug, Drop)]
pub struct Preds {
    pub(crate) items: Vec<Pred>,
}

impl Preds {
    ghost use Rattle.std.specs.Prelude.{map};
    ghost use Rattle.lq_logic_predicates.specs.PredView.{formula_of, pred_items};

    /// No predicates.
    pub fn new(alloc: Global) -> Result<Preds, AllocError>
        ensures { IfOk result (λ preds. pred_items preds ≡ []) }
    {
        Ok(Preds {
            items: Vec::new(alloc),
        })
    }

    /// How many predicates there are.
    pub fn len(&self) -> usize
        ensures { result ≡ length (pred_items self.now) }
    {
        self.items.len()
    }

    /// The predicate at an index, and None past the last one.
    pub fn get(&self, at: usize) -> Option<&Pred>
        ensures { option_copied result ≡ slice_get (pred_items self.now) at }
    {
        self.items.get(at)
    }

    /// The predicates in their order.
    pub fn as_slice(&self) -> &[Pred]
        ensures { result.now ≡ pred_items self.now }
    {
        self.items.as_slice()
    }

    /// Adds a predicate at the end. Where memory is refused, the predicates stay as they were.
    pub fn push(&mut self, pred: Pred) -> Result<(), AllocError>
        ensures ok { OnOk result (pred_items self.new ≡ pred_items self.old ++ pred ∷ []) }
        ensures err { OnErr result (pred_items self.new ≡ pred_items self.old) }
    {
        self.items.push(pred)?;
        Ok(())
    }

    /// Equal predicates in the same order.
    pub fn copy(&self, alloc: Global) -> Result<Preds, AllocError>
        ensures { IfOk result (λ preds. map formula_of (pred_items preds)
            ≡ map formula_of (pred_items self.now)) }
    {
        let mut copied = Vec::new(alloc);
        for pred in &self.items {
            copied.push(pred.copy(alloc)?)?;
        }
        Ok(Preds { items: copied })
    }
}

/// An implication without unknowns.
#[derive(Debug, Drop)]
pub struct Closed {
    /// What is given, in order.
    pub hypotheses: Preds,
    /// What is to follow from the hypotheses.
    pub goal: Pred,
}

impl Closed {
    ghost use Rattle.std.specs.Prelude.{◌≡◌, IfOk};
    ghost use Rattle.lq_logic_predicates.specs.ClosedImplication.{terms_in};
    ghost use Rattle.lq_logic_predicates.specs.PredView.{implication_of};
    ghost use Rattle.lq_logic_predicates.specs.TableView.{terms_of};

    /// The terms of the hypotheses and then of the goal, numbered by their first appearance, an inner one
    /// before the outer.
    pub fn terms(&self, alloc: Global) -> Result<TermTable, AllocError>
        ensures { IfOk result (λ table. terms_of table ≡ terms_in (implication_of self.now)) }
    {
        let mut table = TermTable::new(alloc)?;
        for pred in self.hypotheses.as_slice() {
            pred.number_terms(alloc, &mut table)?;
        }
        self.goal.number_terms(alloc, &mut table)?;
        Ok(table)
    }
}

/// Why no verdict on an implication came.
#[derive(Debug, Drop, Error)]
pub enum Stop {
    /// An operation on two fractions has no form of 128 bits.
    #[error("{0}")]
    Number(NumberPast),
    /// A comparison can't be gathered.
    #[error("a comparison has a number past 128 bits")]
    Gather(Pred),
    /// The limit on pivots was spent.
    #[error("the limit of {0} pivots was spent")]
    Pivots(u64),
    #[error("out of memory")]
    Memory,
}
