// Qualifiers with their names bound.
ghost use Rattle.std.specs.Prelude.{◌≡◌, map, IfOk};
ghost use Rattle.lq_text_qualifiers.specs.Faults.Lookups.{one};
ghost use Rattle.lq_text_tree.specs.Qualifiers.{qualifier_view as parsed_view};
ghost use Rattle.lq_text_tree.specs.Qualifiers.{qualifiers_view};
ghost use Rattle.lq_text_tree.specs.Texts.{measures_view, quals_view};
ghost use Rattle.lq_text_qualifiers.specs.Sorting.Making.{qualifier_made, qualifiers_made};
ghost use Rattle.lq_text_qualifiers.specs.Sorting.Sorted.{value};
ghost use Rattle.lq_text_qualifiers.specs.Sorting.Views.{measured_view, qualifier_view, seen, variable_view};

use crate::sorting::placeholders::placeholders_in;
use crate::sorting::predicates::predicate_of;
use crate::sorting::setting::{Measured, Setting, measures_of};
use crate::sorting::shape::Shape;
use crate::sorting::sorted::{ScopedQualifier, Variable};
use crate::sorting::table::Table;
use lq_base_names::{Name, NameTable};
use lq_text_tree::{Measures, Qualifier, Quals};
use std::alloc::{AllocError, Global};

// The one variable of a qualifier.
fn value_of(alloc: Global, name: Name) -> Result<Table<Variable>, AllocError>
    ensures { IfOk result (λ t. seen variable_view t ≡ one name.0 value) }
{
    let mut variables = Table::new(alloc);
    variables.add(name, Variable::Value)?;
    Ok(variables)
}

// A qualifier, where these measures are known.
fn qualifier_of(
    alloc: Global,
    names: &NameTable,
    measures: &Table<Measured>,
    qualifier: &Qualifier,
) -> Result<ScopedQualifier, AllocError>
    ensures { IfOk result (λ q. qualifier_view q
        ≡ qualifier_made names.now (seen measured_view measures.now) (parsed_view qualifier.now)) }
{
    let found = placeholders_in(alloc, names, measures, &qualifier.predicate)?;
    let (shapes, numbers) = found.into_parts(alloc)?;
    let setting = Setting {
        variables: value_of(alloc, qualifier.value)?,
        placeholders: numbers,
        measures,
    };
    Ok(ScopedQualifier {
        name: qualifier.name,
        place: qualifier.place,
        shape: Shape::called(qualifier.shape),
        placeholders: shapes,
        predicate: predicate_of(alloc, &setting, &qualifier.predicate)?,
    })
}

// The qualifiers of a text, where these measures are known.
fn qualifiers_of(
    alloc: Global,
    names: &NameTable,
    measures: &Table<Measured>,
    qualifiers: &[Qualifier],
) -> Result<Vec<ScopedQualifier>, AllocError>
    ensures { IfOk result (λ qs. map qualifier_view qs.items
        ≡ map (qualifier_made names.now (seen measured_view measures.now)) (qualifiers_view qualifiers.now)) }
{
    let mut made = Vec::new(alloc);
    for qualifier in qualifiers {
        made.push(qualifier_of(alloc, names, measures, qualifier)?)?;
    }
    Ok(made)
}

/// The qualifiers of a text with their names bound, where these measures are defined. They are what is meant where nothing is wrong with
/// the text; elsewhere what doesn't fit is 0, false or the value. No stack of calls grows with a predicate.
pub fn bind_qualifiers(
    alloc: Global,
    quals: &Quals,
    measures: &Measures,
    names: &NameTable,
) -> Result<Vec<ScopedQualifier>, AllocError>
    ensures { IfOk result (λ qs. map qualifier_view qs.items
        ≡ qualifiers_made names.now (measures_view measures.now) (quals_view quals.now)) }
{
    let known = measures_of(alloc, measures.measures())?;
    let made = qualifiers_of(alloc, names, &known, quals.qualifiers())?;
    Ok(made)
}
