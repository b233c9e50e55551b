// What datatypes say of the names of types and of constructors.
ghost use Rattle.std.specs.Prelude.{◌≡◌, ℕ, map, IfOk, OnOk};
ghost use Rattle.lq_text_walk.specs.Scoped.Views.{constructor_view, data_view};
ghost use Rattle.lq_text_tree.specs.Types.{count_types, type_at};
ghost use Rattle.lq_text_qualifiers.specs.Faults.Datatypes.{constructor, constructors_in, entry_of, predeclared, shape_in, size, size_of};
ghost use Rattle.lq_text_qualifiers.specs.Faults.Lookups.{first_in, or_else};
ghost use Rattle.lq_text_qualifiers.specs.Faults.Shapes.{shape_of};
ghost use Rattle.lq_text_qualifiers.specs.Faults.Views.{asked_view, fields_view, held, made_view, seen, shape_view};

use crate::faults::shape::Shape;
use crate::faults::table::Table;
use lq_base_names::Name;
use lq_text_tree::SimpleTypes;
use lq_text_walk::scoped::{ConstructorType, DataType};
use std::alloc::{AllocError, Global};

/// The types of a constructor's fields: those of a program's constructor, and those of the predeclared ones.
#[derive(Clone, Copy)]
pub(crate) enum Fields<'a> {
    Written(&'a SimpleTypes),
    Nothing,
    Item,
    ItemAndList,
}

/// A constructor's datatype and the types of its fields.
#[derive(Clone, Copy)]
pub(crate) struct Made<'a> {
    pub(crate) datatype: Name,
    pub(crate) fields: Fields<'a>,
}

/// The datatypes that are defined, with the predeclared ones.
#[derive(Drop)]
pub(crate) struct Sorts<'a> {
    // how many constructors a datatype has
    pub(crate) sizes: Table<usize>,
    pub(crate) constructors: Table<Made<'a>>,
}

impl<'a> Fields<'a> {
    pub(crate) fn count(&self) -> usize
        ensures { result ≡ count_types (fields_view self.now) }
    {
        match self {
            Fields::Written(types) => types.len(),
            Fields::Nothing => 0,
            Fields::Item => 1,
            Fields::ItemAndList => 2,
        }
    }

    /// The shape of a field.
    pub(crate) fn shape_at(&self, at: usize) -> Shape
        ensures { shape_view result ≡ shape_of (type_at (fields_view self.now) at) }
    {
        match self {
            Fields::Written(types) => {
                match types.get(at) {
                    Some(written) => Shape::of(written),
                    None => Shape::Other,
                }
            }
            Fields::ItemAndList => {
                if at == 1 {
                    Shape::Data(Name::LIST)
                } else {
                    Shape::Other
                }
            }
            Fields::Nothing | Fields::Item => Shape::Other,
        }
    }
}

// The constructors of a datatype, behind those that are known.
fn add_constructors<'a>(
    known: &mut Table<Made<'a>>,
    datatype: Name,
    constructors: &'a [ConstructorType],
) -> Result<(), AllocError>
    ensures { OnOk result ((x : ℕ) → seen made_view known.new x ≡ or_else (seen made_view known.old x)
        (first_in (map (entry_of datatype.0)
        (map constructor_view constructors.now)) x)) }
{
    for constructor in constructors {
        let made = Made {
            datatype,
            fields: Fields::Written(&constructor.fields),
        };
        known.add(constructor.name, made)?;
    }
    Ok(())
}

impl<'a> Sorts<'a> {
    // `list` and `option`.
    fn predeclared(alloc: Global) -> Result<Sorts<'a>, AllocError>
        ensures sizes { IfOk result (λ s. (x : ℕ) → held s.sizes x
            ≡ first_in (map size_of predeclared) x) }
        ensures constructors { IfOk result (λ s. (x : ℕ) → seen made_view s.constructors x
            ≡ first_in (constructors_in predeclared) x) }
    {
        let mut sizes = Table::new(alloc);
        sizes.add(Name::LIST, 2)?;
        sizes.add(Name::OPTION, 2)?;
        let mut constructors = Table::new(alloc);
        let list = Name::LIST;
        let option = Name::OPTION;
        constructors.add(
            Name::NIL,
            Made {
                datatype: list,
                fields: Fields::Nothing,
            },
        )?;
        constructors.add(
            Name::CONS,
            Made {
                datatype: list,
                fields: Fields::ItemAndList,
            },
        )?;
        constructors.add(
            Name::NONE,
            Made {
                datatype: option,
                fields: Fields::Nothing,
            },
        )?;
        constructors.add(
            Name::SOME,
            Made {
                datatype: option,
                fields: Fields::Item,
            },
        )?;
        Ok(Sorts {
            sizes,
            constructors,
        })
    }

    /// These datatypes behind the predeclared ones.
    pub(crate) fn new(alloc: Global, datatypes: &'a [DataType]) -> Result<Sorts<'a>, AllocError>
        ensures sizes { IfOk result (λ s. held s.sizes ≡ size (map data_view datatypes.now)) }
        ensures constructors { IfOk result (λ s. seen made_view s.constructors
            ≡ constructor (map data_view datatypes.now)) }
    {
        let mut sorts = Sorts::predeclared(alloc)?;
        for datatype in datatypes {
            sorts.sizes.add(datatype.name, datatype.constructors.len())?;
            add_constructors(
                &mut sorts.constructors,
                datatype.name,
                &datatype.constructors,
            )?;
        }
        Ok(sorts)
    }

    /// The shape that a name stands for, if it is a type.
    pub(crate) fn shape_named(&self, name: Name) -> Option<Shape>
        ensures { asked_view result ≡ shape_in (held self.now.sizes) name.0 }
    {
        if name == Name::INT {
            Some(Shape::Int)
        } else if name == Name::BOOL {
            Some(Shape::Bool)
        } else if name == Name::UNIT {
            Some(Shape::Other)
        } else if name == Name::ARRAY {
            Some(Shape::Array)
        } else if name == Name::MAP {
            Some(Shape::Other)
        } else if self.sizes.has(name) {
            Some(Shape::Data(name))
        } else {
            None
        }
    }
}
