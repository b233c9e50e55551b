// Measures with their names bound.
ghost use Rattle.std.specs.Prelude.{◌≡◌, ◌++◌, List, map, IfOk};
ghost use Rattle.lq_text_walk.specs.Scoped.Signature.{DataTree};
ghost use Rattle.lq_text_walk.specs.Scoped.Views.{data_view, name_number};
ghost use Rattle.lq_text_tree.specs.MeasureTrees.{definitions_view};
ghost use Rattle.lq_text_tree.specs.MeasureTrees.{measure_view as parsed_view};
ghost use Rattle.lq_text_tree.specs.Texts.{measures_view};
ghost use Rattle.lq_text_qualifiers.specs.Faults.Datatypes.{predeclared};
ghost use Rattle.lq_text_qualifiers.specs.Faults.Lookups.{first_in};
ghost use Rattle.lq_text_qualifiers.specs.Sorting.Filing.{filed_view, listed_view};
ghost use Rattle.lq_text_qualifiers.specs.Sorting.Making.{constructors_of, measure_made, measures_made, term_at};
ghost use Rattle.lq_text_qualifiers.specs.Sorting.Views.{measure_view, measured_view, seen, term_view};

use crate::sorting::constructors::{Listed, constructors_named, constructors_of};
use crate::sorting::equations::{FiledEquation, filed, term_at};
use crate::sorting::setting::{Measured, measures_of};
use crate::sorting::sorted::{ScopedMeasure, ScopedTerm};
use crate::sorting::table::Table;
use lq_base_names::Name;
use lq_text_tree::{Measure, Measures};
use lq_text_walk::scoped::DataType;
use std::alloc::{AllocError, Global};

// What a measure with these equations is of values of these constructors.
fn terms_at(
    alloc: Global,
    measures: &Table<Measured>,
    equations: &Table<FiledEquation<'_>>,
    constructors: &[Name],
) -> Result<Vec<ScopedTerm>, AllocError>
    ensures { IfOk result (λ ts. map term_view ts.items ≡ map (term_at (seen measured_view measures.now)
        (seen filed_view equations.now)) (map name_number constructors.now)) }
{
    let mut terms = Vec::new(alloc);
    for constructor in constructors {
        terms.push(term_at(alloc, measures, equations, *constructor)?)?;
    }
    Ok(terms)
}

// A measure, where these constructors and measures are known.
fn measure_of(
    alloc: Global,
    known: &Table<Listed<'_>>,
    measures: &Table<Measured>,
    measure: &Measure,
) -> Result<ScopedMeasure, AllocError>
    ensures { IfOk result (λ m. (ds : List DataTree)
        → seen listed_view known.now ≡ first_in (map constructors_of (predeclared ++ ds))
        → measure_view m ≡ measure_made ds (seen measured_view measures.now) (parsed_view measure.now)) }
{
    let constructors = constructors_named(alloc, known, measure.datatype)?;
    let equations = filed(alloc, &measure.equations)?;
    Ok(ScopedMeasure {
        name: measure.name,
        datatype: measure.datatype,
        terms: terms_at(alloc, measures, &equations, &constructors)?,
    })
}

// The measures of a text, where these constructors and measures are known.
fn measures_made(
    alloc: Global,
    known: &Table<Listed<'_>>,
    measures: &Table<Measured>,
    definitions: &[Measure],
) -> Result<Vec<ScopedMeasure>, AllocError>
    ensures { IfOk result (λ ms. (ds : List DataTree)
        → seen listed_view known.now ≡ first_in (map constructors_of (predeclared ++ ds))
        → map measure_view ms.items ≡ map (measure_made ds (seen measured_view measures.now))
        (definitions_view definitions.now)) }
{
    let mut made = Vec::new(alloc);
    for definition in definitions {
        made.push(measure_of(alloc, known, measures, definition)?)?;
    }
    Ok(made)
}

/// The measures of a text with their names bound, where these datatypes are defined beside the predeclared `list` and `option`. They are
/// what is meant where nothing is wrong with the text; elsewhere what doesn't fit is 0. No stack of calls grows with a term.
pub fn bind_measures(
    alloc: Global,
    measures: &Measures,
    datatypes: &[DataType],
) -> Result<Vec<ScopedMeasure>, AllocError>
    ensures { IfOk result (λ ms. map measure_view ms.items
        ≡ measures_made (map data_view datatypes.now) (measures_view measures.now)) }
{
    let constructors = constructors_of(alloc, datatypes)?;
    let known = measures_of(alloc, measures.measures())?;
    let made = measures_made(alloc, &constructors, &known, measures.measures())?;
    Ok(made)
}
