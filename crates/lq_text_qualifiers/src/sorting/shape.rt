// The shapes of values.
ghost use Rattle.std.specs.Prelude.{◌≡◌};
ghost use Rattle.lq_text_qualifiers.specs.Sorting.Making.{shape_called};
ghost use Rattle.lq_text_qualifiers.specs.Sorting.Views.{shape_view};

use lq_base_names::Name;

/// What a predicate knows of a value by its type.
#[derive(Clone, Copy, Debug, PartialEq, Eq)]
pub enum Shape {
    Int,
    Bool,
    Array,
    /// A datatype.
    Data(Name),
}

impl Shape {
    /// The shape that a name after a colon stands for.
    pub(crate) fn called(name: Name) -> Shape
        ensures { shape_view result ≡ shape_called name.0 }
    {
        if name == Name::INT {
            Shape::Int
        } else if name == Name::BOOL {
            Shape::Bool
        } else if name == Name::ARRAY {
            Shape::Array
        } else {
            Shape::Data(name)
        }
    }
}
