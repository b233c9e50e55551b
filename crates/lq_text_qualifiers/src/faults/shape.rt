// The shapes of values.
ghost use Rattle.std.specs.Prelude.{◌≡◌};
ghost use Rattle.lq_text_tree.specs.SimpleTypeView.{simple_type_view};
ghost use Rattle.lq_text_qualifiers.specs.Faults.Shapes.{array, bool, data_of, int, is_same, other, shape_of};
ghost use Rattle.lq_text_qualifiers.specs.Faults.Views.{shape_view};

use lq_base_names::Name;
use lq_text_tree::SimpleType;

/// What a predicate can know of a value by its type.
#[derive(Clone, Copy, Debug)]
pub(crate) enum Shape {
    Int,
    Bool,
    Array,
    /// A datatype.
    Data(Name),
    /// What no predicate speaks of.
    Other,
}

impl Shape {
    /// The shape of the values of a type.
    pub(crate) fn of(written: &SimpleType) -> Shape
        ensures { shape_view result ≡ shape_of (simple_type_view written.now) }
    {
        match written {
            SimpleType::Int => Shape::Int,
            SimpleType::Bool => Shape::Bool,
            SimpleType::Array(_) => Shape::Array,
            SimpleType::Named(name, _) => Shape::Data(*name),
            SimpleType::Unit
            | SimpleType::Var(_)
            | SimpleType::Arrow(_, _)
            | SimpleType::Tuple(_)
            | SimpleType::Map(_) => Shape::Other,
        }
    }

    fn is_int(self) -> bool
        ensures { result ≡ is_same int (shape_view self) }
    {
        match self {
            Shape::Int => true,
            Shape::Bool | Shape::Array | Shape::Data(_) | Shape::Other => false,
        }
    }

    fn is_bool(self) -> bool
        ensures { result ≡ is_same bool (shape_view self) }
    {
        match self {
            Shape::Bool => true,
            Shape::Int | Shape::Array | Shape::Data(_) | Shape::Other => false,
        }
    }

    fn is_array(self) -> bool
        ensures { result ≡ is_same array (shape_view self) }
    {
        match self {
            Shape::Array => true,
            Shape::Int | Shape::Bool | Shape::Data(_) | Shape::Other => false,
        }
    }

    fn is_datatype(self, wanted: Name) -> bool
        ensures { result ≡ is_same (data_of wanted.0) (shape_view self) }
    {
        match self {
            Shape::Data(name) => wanted == name,
            Shape::Int | Shape::Bool | Shape::Array | Shape::Other => false,
        }
    }

    fn is_other(self) -> bool
        ensures { result ≡ is_same other (shape_view self) }
    {
        match self {
            Shape::Other => true,
            Shape::Int | Shape::Bool | Shape::Array | Shape::Data(_) => false,
        }
    }

    /// Whether two shapes are one.
    pub(crate) fn is_same(self, other: Shape) -> bool
        ensures { result ≡ is_same (shape_view self) (shape_view other) }
    {
        match self {
            Shape::Int => other.is_int(),
            Shape::Bool => other.is_bool(),
            Shape::Array => other.is_array(),
            Shape::Data(name) => other.is_datatype(name),
            Shape::Other => other.is_other(),
        }
    }
}
