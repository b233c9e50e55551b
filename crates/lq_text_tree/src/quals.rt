// Qualifiers as they are written.
ghost use Rattle.std.specs.Prelude.{◌≡◌, ◌≤◌};
ghost use Rattle.lq_text_tree.specs.Qualifiers.{qualifiers_view, qualifiers_nesting};
ghost use Rattle.lq_base_names.specs.declared.limits.TheConstants.{LEVEL_LIMIT};

use crate::pred_expr::PredExpr;
use lq_base_names::{Name, Place};

/// A qualifier, with the place of its first token.
#[derive(Drop)]
pub struct Qualifier {
    pub place: Place,
    pub name: Name,
    /// The variable that stands for the value of which the predicate speaks.
    pub value: Name,
    /// What the value is: `int`, `bool`, `array` or a datatype.
    pub shape: Name,
    pub shape_place: Place,
    pub predicate: PredExpr,
}

/// A parsed text of qualifiers, in order. No predicate of it nests deeper than the limit of levels.
#[derive(Drop)]
pub struct Quals {
    qualifiers: Vec<Qualifier>,
    ghost shallow: { qualifiers_nesting (qualifiers_view qualifiers.items) ≤ LEVEL_LIMIT },
}

impl Quals {
    ghost use Rattle.lq_text_tree.specs.Texts.{quals_view};

    pub fn new(qualifiers: Vec<Qualifier>) -> Quals
        requires { qualifiers_nesting (qualifiers_view qualifiers.items) ≤ LEVEL_LIMIT }
        ensures { quals_view result ≡ qualifiers_view qualifiers.items }
    {
        Quals { qualifiers }
    }

    /// The qualifiers, in order.
    pub fn qualifiers(&self) -> &[Qualifier]
        ensures qualifiers { qualifiers_view result.now ≡ quals_view self.now }
        ensures shallow { qualifiers_nesting (quals_view self.now) ≤ LEVEL_LIMIT }
    {
        &self.qualifiers
    }
}
