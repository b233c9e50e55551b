// Predicates that were read.
use lq_logic_predicates::Nnf;

/// A predicate that was read, over numbered terms: it says the same of any facts over these, so it need be read only once.
#[derive(Drop)]
pub struct ReadPred {
    /// Its reading, where it was asked for and could be gathered.
    pub(crate) met: Option<Nnf>,
    /// The reading of its negation, where that could be gathered.
    pub(crate) against: Option<Nnf>,
    /// Whether it has no quotient, no remainder and no product of two unknown factors. Where it has one this is false.
    pub(crate) is_plain: bool,
}

impl ReadPred {
    ghost use Rattle.std.specs.Prelude.{IfSome};
    ghost use Rattle.lq_logic_rows.specs.Row.{Valuation};
    ghost use Rattle.lq_logic_predicates.specs.Formula.{Formula};
    ghost use Rattle.lq_logic_predicates.specs.Points.{Point};
    ghost use Rattle.lq_logic_predicates.specs.Sum.{Sum};
    ghost use Rattle.std.specs.Prelude.{◌↔◌, List};
    ghost use Rattle.lq_logic_predicates.specs.NnfView.{nnf_view};
    ghost use Rattle.lq_logic_predicates.specs.Points.{Meets};
    ghost use Rattle.lq_logic_predicates.specs.Reading.{reading_of};
    ghost use Rattle.lq_logic_predicates.specs.RowMeaning.{AgreesOn, MeetsRows};
    ghost use Rattle.lq_solve_facts.specs.Facts.Read.{IsReadOver};

    // The reading, or that of the negation, where it could be gathered.
    pub(crate) fn side(&self, positive: bool) -> Option<&Nnf>
        ensures { IfSome result (λ n. (terms : List Sum) (h : Formula) → IsReadOver terms self.now h → (v : Valuation) (p : Point)
            → AgreesOn terms v p → MeetsRows v p (nnf_view n.now) ↔ Meets p (reading_of positive h)) }
    {
        if positive {
            return self.met.as_ref();
        }
        self.against.as_ref()
    }
}
