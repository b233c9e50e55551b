// Refined types as trees, without unknowns.
ghost use Rattle.std.specs.Prelude.{◌≡◌, map};
ghost use Rattle.lq_logic_predicates.specs.PredView.{formula_of};
ghost use Rattle.lq_refined_types.specs.Types.Refined.{top};
ghost use Rattle.lq_top_answers.specs.TypeText.ShownView.{shown_view};
ghost use Rattle.lq_top_answers.specs.TypeText.Types.{formulas, is_function};

use lq_base_names::{Binder, Name};
use lq_logic_predicates::{Pred, Preds};

/// An entry of a matrix: the predicates of a parameter at a recursive field of a constructor, both counted from 0.
#[derive(Drop)]
pub struct Entry {
    pub constructor: Name,
    pub field: u32,
    pub parameter: u32,
    pub preds: Preds,
}

/// A refined type with the predicates at its top, where it has a top.
#[derive(Drop)]
pub enum Shown {
    Int(Preds),
    Bool(Preds),
    Unit,
    /// A function, which may name its argument.
    Function(Option<Binder>, Box<Shown>, Box<Shown>),
    Tuple(Vec<Shown>),
    Array(Box<Shown>, Preds),
    /// A datatype with its arguments and its matrix.
    Data(Name, Vec<Shown>, Vec<Entry>, Preds),
    /// A map from whole numbers.
    Map(Box<Shown>, Preds),
    Variable(u64),
}

impl Shown {
    // The predicates at the top.
    #[tactic(auto, using(crate::proofs::TypeTextLemmas::Known::known_views))]
    pub(crate) fn top(&self) -> &[Pred]
        ensures { map formula_of result.now ≡ formulas (top (shown_view self.now)) }
    {
        match self {
            Shown::Int(top) => top.as_slice(),
            Shown::Bool(top) => top.as_slice(),
            Shown::Array(_, top) => top.as_slice(),
            Shown::Data(_, _, _, top) => top.as_slice(),
            Shown::Map(_, top) => top.as_slice(),
            Shown::Unit | Shown::Function(_, _, _) | Shown::Tuple(_) | Shown::Variable(_) => &[],
        }
    }

    pub(crate) fn is_function(&self) -> bool
        ensures { result ≡ is_function (shown_view self.now) }
    {
        match self {
            Shown::Function(_, _, _) => true,
            Shown::Int(_)
            | Shown::Bool(_)
            | Shown::Unit
            | Shown::Tuple(_)
            | Shown::Array(_, _)
            | Shown::Data(_, _, _, _)
            | Shown::Map(_, _)
            | Shown::Variable(_) => false,
        }
    }
}
