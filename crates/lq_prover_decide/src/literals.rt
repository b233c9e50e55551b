// One case of an implication.
use crate::fact::Facts;
use lq_logic_predicates::{Closed, TermTable};

/// One case of an implication: its literals in order, and the table that numbers the terms of their rows.
#[derive(Drop)]
pub struct Literals {
    facts: Facts,
    table: TermTable,
    implication: Closed,
}

impl Literals {
    ghost use Rattle.std.specs.Prelude.{◌≡◌};
    ghost use Rattle.lq_prover_decide.specs.Case.{facts_of};
    ghost use Rattle.lq_prover_decide.specs.CaseView.{case_of};
    ghost use Rattle.lq_logic_predicates.specs.PredView.{implication_of};
    ghost use Rattle.lq_logic_predicates.specs.TableView.{terms_of};

    /// The case of these literals.
    pub fn new(facts: Facts, table: TermTable, implication: Closed) -> Literals
        ensures { case_of result ≡ record {
          facts = facts_of facts;
          terms = terms_of table;
          implication = implication_of implication;
        } }
    {
        Literals {
            facts,
            table,
            implication,
        }
    }

    /// The literals in order.
    pub fn facts(&self) -> &Facts
        ensures { facts_of result.now ≡ (case_of self.now).facts }
    {
        &self.facts
    }

    /// The table.
    pub fn table(&self) -> &TermTable
        ensures { terms_of result.now ≡ (case_of self.now).terms }
    {
        &self.table
    }

    /// The implication of which it is a case.
    pub fn implication(&self) -> &Closed
        ensures { implication_of result.now ≡ (case_of self.now).implication }
    {
        &self.implication
    }
}
