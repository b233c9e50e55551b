// Measures as they are written.
ghost use Rattle.std.specs.Prelude.{◌≡◌, ◌≤◌};
ghost use Rattle.lq_text_tree.specs.MeasureTrees.{definitions_view, definitions_nesting};
ghost use Rattle.lq_base_names.specs.declared.limits.TheConstants.{LEVEL_LIMIT};

use crate::pattern::Pat;
use crate::pred_expr::PredExpr;
use lq_base_names::{Name, Place};

/// A measure, with the place of its name.
#[derive(Drop)]
pub struct Measure {
    pub name: Name,
    pub place: Place,
    /// The datatype whose values the measure takes.
    pub datatype: Name,
    pub datatype_place: Place,
    pub equations: Vec<Equation>,
}

/// What a measure is at the values of one constructor.
#[derive(Drop)]
pub struct Equation {
    pub pattern: Pat<Name>,
    pub term: PredExpr,
}

/// A parsed text of measures, in order. No term of it nests deeper than the limit of levels.
#[derive(Drop)]
pub struct Measures {
    measures: Vec<Measure>,
    ghost shallow: { definitions_nesting (definitions_view measures.items) ≤ LEVEL_LIMIT },
}

impl Measures {
    ghost use Rattle.lq_text_tree.specs.Texts.{measures_view};

    pub fn new(measures: Vec<Measure>) -> Measures
        requires { definitions_nesting (definitions_view measures.items) ≤ LEVEL_LIMIT }
        ensures { measures_view result ≡ definitions_view measures.items }
    {
        Measures { measures }
    }

    /// The measures, in order.
    pub fn measures(&self) -> &[Measure]
        ensures measures { definitions_view result.now ≡ measures_view self.now }
        ensures shallow { definitions_nesting (measures_view self.now) ≤ LEVEL_LIMIT }
    {
        &self.measures
    }
}
