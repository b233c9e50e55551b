// What is wrong with a text of qualifiers.
ghost use Rattle.std.specs.Prelude.{◌≡◌, List, map, IfOk, OnOk, Some, unwrap_or};
ghost use Rattle.lq_text_walk.specs.Scoped.Signature.{DataTree};
ghost use Rattle.lq_text_walk.specs.Scoped.Views.{data_view};
ghost use Rattle.lq_text_tree.specs.Qualifiers.{qualifier_view, qualifiers_view};
ghost use Rattle.lq_text_tree.specs.Texts.{measures_view, quals_view};
ghost use Rattle.lq_text_qualifiers.specs.Faults.Complaints.{least, least_with};
ghost use Rattle.lq_text_qualifiers.specs.Faults.Datatypes.{size};
ghost use Rattle.lq_text_qualifiers.specs.Faults.Lookups.{one};
ghost use Rattle.lq_text_qualifiers.specs.Faults.Qualifiers.{of_all, of_qualifier, of_qualifiers, of_shape};
ghost use Rattle.lq_text_qualifiers.specs.Faults.Shapes.{other};
ghost use Rattle.lq_text_qualifiers.specs.Faults.Views.{asked_view, found_view, held, measured_view, seen, shape_view};

use crate::faults::complaint::{Cause, Least, SortComplaint};
use crate::faults::datatypes::Sorts;
use crate::faults::equations::{Known, measures_of};
use crate::faults::predicate::{Measured, Setting, note_predicate};
use crate::faults::shape::Shape;
use crate::faults::table::Table;
use lq_base_names::{Name, NameTable, Place};
use lq_text_tree::{Measures, Qualifier, Quals};
use lq_text_walk::scoped::DataType;
use std::alloc::{AllocError, Global};

// The name of the shape of a value.
fn note_shape(least: &mut Least, place: Place, name: Name, shape: Option<Shape>)
    ensures { found_view least.new.found ≡ least_with (found_view least.old.found)
        (of_shape place name.0 (asked_view shape)) }
{
    match shape {
        Some(Shape::Other) => least.note(place, Cause::BadSort),
        Some(Shape::Int | Shape::Bool | Shape::Array | Shape::Data(_)) => {}
        None => least.note(place, Cause::Unknown(name)),
    }
}

// The one variable of a qualifier.
fn value_of(alloc: Global, name: Name, shape: Option<Shape>) -> Result<Table<Shape>, AllocError>
    ensures { IfOk result (λ t. seen shape_view t
        ≡ one name.0 (unwrap_or (asked_view shape) other)) }
{
    let mut variables = Table::new(alloc);
    variables.add(name, shape.unwrap_or(Shape::Other))?;
    Ok(variables)
}

fn note_qualifier(
    alloc: Global,
    known: &Known<'_, '_>,
    least: &mut Least,
    qualifier: &Qualifier,
) -> Result<(), AllocError>
    ensures { OnOk result ((ds : List DataTree) → held known.now.sorts.now.sizes ≡ size ds
        → found_view least.new.found ≡ least_with (found_view least.old.found)
        (of_qualifier known.now.names.now ds (seen measured_view known.now.measures.now)
        (qualifier_view qualifier.now))) }
{
    let shape = known.sorts.shape_named(qualifier.shape);
    note_shape(least, qualifier.shape_place, qualifier.shape, shape);
    let setting = Setting {
        names: known.names,
        variables: value_of(alloc, qualifier.value, shape)?,
        measures: known.measures,
        own: None,
    };
    note_predicate(alloc, &setting, least, Shape::Bool, &qualifier.predicate)?;
    Ok(())
}

// The qualifiers, in order.
fn note_qualifiers(
    alloc: Global,
    known: &Known<'_, '_>,
    least: &mut Least,
    qualifiers: &[Qualifier],
) -> Result<(), AllocError>
    ensures { OnOk result ((ds : List DataTree) → held known.now.sorts.now.sizes ≡ size ds
        → found_view least.new.found ≡ least_with (found_view least.old.found)
        (of_all known.now.names.now ds (seen measured_view known.now.measures.now)
        (qualifiers_view qualifiers.now))) }
{
    for qualifier in qualifiers {
        note_qualifier(alloc, known, least, qualifier)?;
    }
    Ok(())
}

// The least complaint about the qualifiers.
fn least_of<'a, 'b>(
    alloc: Global,
    names: &'a NameTable,
    sorts: &'a Sorts<'b>,
    table: &'a Table<Measured>,
    qualifiers: &[Qualifier],
) -> Result<Option<SortComplaint>, AllocError>
    ensures { IfOk result (λ found. (ds : List DataTree) → held sorts.now.sizes ≡ size ds → found_view found
        ≡ least (of_all names.now ds (seen measured_view table.now) (qualifiers_view qualifiers.now))) }
{
    let known = Known {
        names,
        sorts,
        measures: table,
    };
    let mut least = Least { found: None };
    note_qualifiers(alloc, &known, &mut least, qualifiers)?;
    Ok(least.found)
}

/// What is wrong with a text of qualifiers, where these datatypes are defined beside the predeclared `list` and `option`, and these
/// measures: the first in the order of the text, and of several at one place the one of the lowest code. Qualifiers are those of
/// Rondon, Kawaguchi and Jhala (2008).
pub fn first_qualifier_complaint(
    alloc: Global,
    quals: &Quals,
    measures: &Measures,
    datatypes: &[DataType],
    names: &NameTable,
) -> Result<Option<SortComplaint>, AllocError>
    ensures { IfOk result (λ found. found_view found ≡ least (of_qualifiers names.now
        (map data_view datatypes.now) (measures_view measures.now) (quals_view quals.now))) }
{
    let sorts = Sorts::new(alloc, datatypes)?;
    let table = measures_of(alloc, measures.measures())?;
    let found = least_of(alloc, names, &sorts, &table, quals.qualifiers())?;
    Ok(found)
}
