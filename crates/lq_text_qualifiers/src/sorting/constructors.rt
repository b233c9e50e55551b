// The constructors of datatypes, by the names of these.
ghost use Rattle.std.specs.Prelude.{◌≡◌, ◌++◌, ℕ, [], map, unwrap_or, IfOk};
ghost use Rattle.lq_text_walk.specs.Scoped.Views.{constructor_view, data_view, name_number};
ghost use Rattle.lq_text_qualifiers.specs.Faults.Datatypes.{predeclared};
ghost use Rattle.lq_text_qualifiers.specs.Faults.Lookups.{first_in};
ghost use Rattle.lq_text_qualifiers.specs.Sorting.Filing.{listed_view};
ghost use Rattle.lq_text_qualifiers.specs.Sorting.Making.{constructor_name, constructors_of};
ghost use Rattle.lq_text_qualifiers.specs.Sorting.Views.{seen};

use crate::sorting::table::Table;
use lq_base_names::Name;
use lq_text_walk::scoped::{ConstructorType, DataType};
use std::alloc::{AllocError, Global};

/// The constructors of a datatype: of one that a program defines, of `list` and of `option`.
#[derive(Clone, Copy)]
pub(crate) enum Listed<'a> {
    Written(&'a [ConstructorType]),
    OfList,
    OfOption,
}

/// The constructors of these datatypes, and of the predeclared ones before them.
pub(crate) fn constructors_of<'a>(
    alloc: Global,
    datatypes: &'a [DataType],
) -> Result<Table<Listed<'a>>, AllocError>
    ensures { IfOk result (λ t. seen listed_view t
        ≡ first_in (map constructors_of (predeclared ++ map data_view datatypes.now))) }
{
    let mut known = Table::new(alloc);
    known.add(Name::LIST, Listed::OfList)?;
    known.add(Name::OPTION, Listed::OfOption)?;
    for datatype in datatypes {
        known.add(datatype.name, Listed::Written(&datatype.constructors))?;
    }
    Ok(known)
}

// The names of constructors.
fn names_of(alloc: Global, constructors: &[ConstructorType]) -> Result<Vec<Name>, AllocError>
    ensures { IfOk result (λ ns. map name_number ns.items
        ≡ map constructor_name (map constructor_view constructors.now)) }
{
    let mut names = Vec::new(alloc);
    for constructor in constructors {
        names.push(constructor.name)?;
    }
    Ok(names)
}

/// The names of the constructors of a datatype; there are none where the name isn't a datatype's.
pub(crate) fn constructors_named(
    alloc: Global,
    known: &Table<Listed<'_>>,
    datatype: Name,
) -> Result<Vec<Name>, AllocError>
    ensures { IfOk result (λ ns. map name_number ns.items
        ≡ unwrap_or (seen listed_view known.now datatype.0) []) }
{
    match known.get(datatype) {
        Some(Listed::Written(constructors)) => {
            let names = names_of(alloc, constructors)?;
            Ok(names)
        }
        Some(Listed::OfList) => Ok(vec![in alloc; Name::NIL, Name::CONS]?),
        Some(Listed::OfOption) => Ok(vec![in alloc; Name::NONE, Name::SOME]?),
        None => Ok(Vec::new(alloc)),
    }
}
