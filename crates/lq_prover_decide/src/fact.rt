// The literals of a case.
ghost use Rattle.std.specs.Prelude.{◌≡◌, [], ◌∷◌, ◌++◌, length, OnOk, OnErr, IfOk};

use lq_logic_predicates::{Symbol, Term};
use lq_logic_rows::LinearRow;
use std::alloc::{AllocError, Global};

/// A literal of a case.
#[derive(Drop)]
pub enum Fact {
    /// A row of linear arithmetic.
    Row(LinearRow),
    /// A flag has a value.
    Flag(Symbol, bool),
    /// Two objects are one, or they differ.
    Same(Term, Term, bool),
}

/// Literals in a row.
#[derive(Drop)]
pub struct Facts {
    items: Vec<Fact>,
}

impl Facts {
    ghost use Rattle.lq_prover_decide.specs.Case.{fact_items};

    /// No literals.
    pub fn new(alloc: Global) -> Result<Facts, AllocError>
        ensures { IfOk result (λ facts. fact_items facts ≡ []) }
    {
        Ok(Facts {
            items: Vec::new(alloc),
        })
    }

    /// How many literals there are.
    pub fn len(&self) -> usize
        ensures { result ≡ length (fact_items self.now) }
    {
        self.items.len()
    }

    /// The literals in their order.
    pub fn as_slice(&self) -> &[Fact]
        ensures { result.now ≡ fact_items self.now }
    {
        self.items.as_slice()
    }

    /// Adds a literal at the end. Where memory is refused, the literals stay as they were.
    pub fn push(&mut self, fact: Fact) -> Result<(), AllocError>
        ensures ok { OnOk result (fact_items self.new ≡ fact_items self.old ++ fact ∷ []) }
        ensures err { OnErr result (fact_items self.new ≡ fact_items self.old) }
    {
        self.items.push(fact)?;
        Ok(())
    }
}
