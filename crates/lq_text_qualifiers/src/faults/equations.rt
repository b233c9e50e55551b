// What is wrong with a text of measures.
ghost use Rattle.std.specs.Prelude.{◌≡◌, ℕ, List, map, Some, IfOk, OnOk};
ghost use Rattle.lq_base_names.specs.declared.name.Name.{Name};
ghost use Rattle.lq_text_scope.specs.Views.{binding_view};
ghost use Rattle.lq_text_walk.specs.Scoped.Signature.{DataTree};
ghost use Rattle.lq_text_walk.specs.Scoped.Views.{data_view};
ghost use Rattle.lq_text_tree.specs.MeasureTrees.{definitions_view, equation_view, measure_view};
ghost use Rattle.lq_text_tree.specs.PatternView.{pat_form_view, pat_view, pats_view};
ghost use Rattle.lq_text_tree.specs.Texts.{measures_view};
ghost use Rattle.lq_text_qualifiers.specs.Faults.Complaints.{least, least_with};
ghost use Rattle.lq_text_qualifiers.specs.Faults.Datatypes.{constructor, shape_in, size};
ghost use Rattle.lq_text_qualifiers.specs.Faults.Equations.{again, behind, bound_at, equation_setting, fields_in, fields_of, measures_in, of_constructor, of_datatype, of_definition, of_equations, of_form, of_measure, of_measures, of_measures_from, of_pattern, repeated};
ghost use Rattle.lq_text_qualifiers.specs.Faults.Predicates.{of_predicate};
ghost use Rattle.lq_text_qualifiers.specs.Faults.Shapes.{int};
ghost use Rattle.std.specs.Option.{option_map};
ghost use Rattle.lq_text_qualifiers.specs.Faults.Lookups.{first_in, no_names, or_else, with_name};
ghost use Rattle.lq_text_qualifiers.specs.Faults.Views.{asked_view, fields_view, found_view, held, made_view, measured_view, names_in, seen, shape_view};

use crate::faults::complaint::{Cause, Least, SortComplaint};
use crate::faults::datatypes::{Made, Sorts};
use crate::faults::predicate::{Measured, Setting, note_predicate};
use crate::faults::shape::Shape;
use crate::faults::table::Table;
use lq_base_names::{Name, NameTable, Place};
use lq_text_scope::{Binding, push_binders};
use lq_text_tree::{Equation, Measure, Measures, Pat, PatNode, Pats};
use lq_text_walk::scoped::DataType;
use std::alloc::{AllocError, Global};

/// What is known around the measures of a text.
#[derive(Clone, Copy)]
pub(crate) struct Known<'a, 'b> {
    pub(crate) names: &'a NameTable,
    pub(crate) sorts: &'a Sorts<'b>,
    pub(crate) measures: &'a Table<Measured>,
}

/// The measures by their names, each with its number.
pub(crate) fn measures_of(
    alloc: Global,
    measures: &[Measure],
) -> Result<Table<Measured>, AllocError>
    ensures { IfOk result (λ t. seen measured_view t ≡ measures_in (definitions_view measures.now)) }
{
    let mut known = Table::new(alloc);
    for number in 0..measures.len() {
        let datatype = measures[number].datatype;
        known.add(measures[number].name, Measured { number, datatype })?;
    }
    Ok(known)
}

// What there is to say of a name that may be among those before it.
fn note_again(before: &Table<Place>, least: &mut Least, place: Place, name: Name)
    ensures { found_view least.new.found ≡ least_with (found_view least.old.found)
        (again (names_in before.now) place name.0) }
{
    if before.has(name) {
        least.note(place, Cause::Twice(name));
    }
}

// What there is to say of names that may be among those before them.
fn note_repeated(alloc: Global, least: &mut Least, bindings: &[Binding]) -> Result<(), AllocError>
    ensures { OnOk result (found_view least.new.found ≡ least_with (found_view least.old.found)
        (repeated no_names (map binding_view bindings.now))) }
{
    let mut before = Table::new(alloc);
    for binding in bindings {
        note_again(&before, least, binding.place, binding.name);
        before.add(binding.name, binding.place)?;
    }
    Ok(())
}

// A constructor of a pattern that begins at the first place.
fn note_constructor(
    least: &mut Least,
    wanted: Name,
    begin: Place,
    place: Place,
    name: Name,
    found: usize,
    known: Option<Made<'_>>,
)
    ensures { found_view least.new.found ≡ least_with (found_view least.old.found)
        (of_constructor wanted.0 begin place name.0 found (option_map made_view known.entry)) }
{
    match known {
        None => least.note(place, Cause::Unknown(name)),
        Some(made) => {
            least.note_count(place, Some(made.fields.count()), found);
            if made.datatype != wanted {
                least.note(begin, Cause::BadSort);
            }
        }
    }
}

// The form of a pattern, behind those of the equations before it.
fn note_form(
    sorts: &Sorts<'_>,
    before: &Table<Place>,
    least: &mut Least,
    wanted: Name,
    pattern: &Pat<Name>,
)
    ensures { (ds : List DataTree) → seen made_view sorts.now.constructors ≡ constructor ds
        → found_view least.new.found ≡ least_with (found_view least.old.found)
        (of_form ds wanted.0 (names_in before.now) pattern.now.place
        (pat_form_view Name (λ n. n.0) pattern.now.node)) }
{
    match &pattern.node {
        PatNode::Build(name, place, row) => {
            let known = sorts.constructors.get(*name);
            note_constructor(
                least,
                wanted,
                pattern.place,
                *place,
                *name,
                row.len(),
                known,
            );
            note_again(before, least, *place, *name);
        }
        PatNode::Any | PatNode::Bind(_) | PatNode::Unit | PatNode::Tuple(_) => {
            least.note(pattern.place, Cause::BadSort);
        }
    }
}

// The pattern of an equation.
fn note_pattern(
    alloc: Global,
    sorts: &Sorts<'_>,
    before: &Table<Place>,
    least: &mut Least,
    wanted: Name,
    pattern: &Pat<Name>,
) -> Result<(), AllocError>
    ensures { OnOk result ((ds : List DataTree) → seen made_view sorts.now.constructors ≡ constructor ds
        → found_view least.new.found ≡ least_with (found_view least.old.found)
        (of_pattern ds wanted.0 (names_in before.now) (pat_view Name (λ n. n.0) pattern.now))) }
{
    note_form(sorts, before, least, wanted, pattern);
    let mut bindings = Vec::new(alloc);
    push_binders(&mut bindings, pattern)?;
    note_repeated(alloc, least, &bindings)?;
    Ok(())
}

// The constructor of a pattern is among those before the next one.
fn add_constructor(before: &mut Table<Place>, pattern: &Pat<Name>) -> Result<(), AllocError>
    ensures { OnOk result (names_in before.new
        ≡ behind (names_in before.old) (pat_view Name (λ n. n.0) pattern.now)) }
{
    match &pattern.node {
        PatNode::Build(name, place, _) => before.add(*name, *place),
        PatNode::Any | PatNode::Bind(_) | PatNode::Unit | PatNode::Tuple(_) => Ok(()),
    }
}

// The variable of a pattern at a field of this shape, behind those that are known.
fn add_field(fields: &mut Table<Shape>, pattern: &Pat<Name>, shape: Shape) -> Result<(), AllocError>
    ensures { OnOk result ((x : ℕ) → seen shape_view fields.new x ≡ or_else (seen shape_view fields.old x)
        (first_in (bound_at (pat_view Name (λ n. n.0) pattern.now) (shape_view shape)) x)) }
{
    match &pattern.node {
        PatNode::Bind(name) => fields.add(*name, shape),
        PatNode::Any | PatNode::Unit | PatNode::Tuple(_) | PatNode::Build(_, _, _) => Ok(()),
    }
}

// The variables of the fields of a constructor.
fn fields_of(alloc: Global, made: &Made<'_>, row: &Pats<Name>) -> Result<Table<Shape>, AllocError>
    ensures { IfOk result (λ t. seen shape_view t
        ≡ first_in (fields_in 0 (fields_view made.now.fields) (pats_view Name (λ n. n.0) row.now))) }
{
    let mut fields = Table::new(alloc);
    for at in 0..row.len() {
        if let Some(pattern) = row.get(at) {
            add_field(&mut fields, pattern, made.fields.shape_at(at))?;
        }
    }
    Ok(fields)
}

// The variables of a pattern.
fn variables_of(
    alloc: Global,
    sorts: &Sorts<'_>,
    pattern: &Pat<Name>,
) -> Result<Table<Shape>, AllocError>
    ensures { IfOk result (λ t. (ds : List DataTree) → seen made_view sorts.now.constructors ≡ constructor ds
        → seen shape_view t ≡ first_in (fields_of ds (pat_view Name (λ n. n.0) pattern.now))) }
{
    match &pattern.node {
        PatNode::Build(name, _, row) => match sorts.constructors.get(*name) {
            Some(made) => {
                let fields = fields_of(alloc, &made, row)?;
                Ok(fields)
            }
            None => Ok(Table::new(alloc)),
        },
        PatNode::Any | PatNode::Bind(_) | PatNode::Unit | PatNode::Tuple(_) => {
            Ok(Table::new(alloc))
        }
    }
}

// The term of an equation.
fn note_term(
    alloc: Global,
    known: &Known<'_, '_>,
    least: &mut Least,
    number: usize,
    equation: &Equation,
) -> Result<(), AllocError>
    ensures { OnOk result ((ds : List DataTree)
        → seen made_view known.now.sorts.now.constructors ≡ constructor ds
        → found_view least.new.found ≡ least_with (found_view least.old.found)
        (of_predicate (equation_setting known.now.names.now ds
        (seen measured_view known.now.measures.now) number
        (equation_view equation.now).pattern) (Some int) (equation_view equation.now).term)) }
{
    let setting = Setting {
        names: known.names,
        variables: variables_of(alloc, known.sorts, &equation.pattern)?,
        measures: known.measures,
        own: Some(number),
    };
    note_predicate(alloc, &setting, least, Shape::Int, &equation.term)?;
    Ok(())
}

// The equations of the measure with this number on this datatype.
fn note_equations(
    alloc: Global,
    known: &Known<'_, '_>,
    least: &mut Least,
    number: usize,
    datatype: Name,
    equations: &[Equation],
) -> Result<(), AllocError>
    ensures { OnOk result ((ds : List DataTree)
        → seen made_view known.now.sorts.now.constructors ≡ constructor ds
        → found_view least.new.found ≡ least_with (found_view least.old.found)
        (of_equations known.now.names.now ds (seen measured_view known.now.measures.now) number
        datatype.0 no_names
        (map equation_view equations.now))) }
{
    let mut before = Table::new(alloc);
    for equation in equations {
        note_pattern(
            alloc,
            known.sorts,
            &before,
            least,
            datatype,
            &equation.pattern,
        )?;
        note_term(alloc, known, least, number, equation)?;
        add_constructor(&mut before, &equation.pattern)?;
    }
    Ok(())
}

// The name of a measure, which may have an earlier definition.
fn note_definition(measures: &Table<Measured>, least: &mut Least, number: usize, measure: &Measure)
    ensures { found_view least.new.found ≡ least_with (found_view least.old.found) (of_definition
        measure.now.place measure.now.name.0 number (seen measured_view measures.now measure.now.name.0)) }
{
    if let Some(first) = measures.get(measure.name) {
        if first.number < number {
            least.note(measure.place, Cause::Twice(measure.name));
        }
    }
}

// The name of the datatype that a measure takes.
fn note_datatype(least: &mut Least, place: Place, name: Name, shape: Option<Shape>)
    ensures { found_view least.new.found ≡ least_with (found_view least.old.found)
        (of_datatype place name.0 (asked_view shape)) }
{
    match shape {
        Some(Shape::Data(_)) => {}
        Some(Shape::Int | Shape::Bool | Shape::Array | Shape::Other) => {
            least.note(place, Cause::BadSort);
        }
        None => least.note(place, Cause::Unknown(name)),
    }
}

// The measure with this number.
fn note_measure(
    alloc: Global,
    known: &Known<'_, '_>,
    least: &mut Least,
    number: usize,
    measure: &Measure,
) -> Result<(), AllocError>
    ensures { OnOk result ((ds : List DataTree) → held known.now.sorts.now.sizes ≡ size ds
        → seen made_view known.now.sorts.now.constructors ≡ constructor ds
        → found_view least.new.found ≡ least_with (found_view least.old.found)
        (of_measure known.now.names.now ds (seen measured_view known.now.measures.now) number
        (measure_view measure.now))) }
{
    note_definition(known.measures, least, number, measure);
    let wanted = known.sorts.sizes.get(measure.datatype);
    least.note_count(measure.place, wanted, measure.equations.len());
    let shape = known.sorts.shape_named(measure.datatype);
    note_datatype(least, measure.datatype_place, measure.datatype, shape);
    note_equations(
        alloc,
        known,
        least,
        number,
        measure.datatype,
        &measure.equations,
    )?;
    Ok(())
}

// The measures, in order.
fn note_measures(
    alloc: Global,
    known: &Known<'_, '_>,
    least: &mut Least,
    measures: &[Measure],
) -> Result<(), AllocError>
    ensures { OnOk result ((ds : List DataTree) → held known.now.sorts.now.sizes ≡ size ds
        → seen made_view known.now.sorts.now.constructors ≡ constructor ds
        → found_view least.new.found ≡ least_with (found_view least.old.found)
        (of_measures_from known.now.names.now ds (seen measured_view known.now.measures.now) 0
        (definitions_view measures.now))) }
{
    for number in 0..measures.len() {
        note_measure(alloc, known, least, number, &measures[number])?;
    }
    Ok(())
}

// The least complaint about the measures.
fn least_of<'a, 'b>(
    alloc: Global,
    names: &'a NameTable,
    sorts: &'a Sorts<'b>,
    table: &'a Table<Measured>,
    measures: &[Measure],
) -> Result<Option<SortComplaint>, AllocError>
    ensures { IfOk result (λ found. (ds : List DataTree) → held sorts.now.sizes ≡ size ds
        → seen made_view sorts.now.constructors ≡ constructor ds → found_view found ≡ least
        (of_measures_from names.now ds (seen measured_view table.now) 0 (definitions_view measures.now))) }
{
    let known = Known {
        names,
        sorts,
        measures: table,
    };
    let mut least = Least { found: None };
    note_measures(alloc, &known, &mut least, measures)?;
    Ok(least.found)
}

/// What is wrong with a text of measures, where these datatypes are defined beside the predeclared `list` and `option`: the first in the
/// order of the text, and of several at one place the one of the lowest code. Measures are those of Kawaguchi, Rondon and Jhala
/// (2009): functions on a datatype by an equation for each constructor, applied to fields alone.
pub fn first_measure_complaint(
    alloc: Global,
    measures: &Measures,
    datatypes: &[DataType],
    names: &NameTable,
) -> Result<Option<SortComplaint>, AllocError>
    ensures { IfOk result (λ found. found_view found ≡ least (of_measures names.now
        (map data_view datatypes.now) (measures_view measures.now))) }
{
    let sorts = Sorts::new(alloc, datatypes)?;
    let table = measures_of(alloc, measures.measures())?;
    let found = least_of(alloc, names, &sorts, &table, measures.measures())?;
    Ok(found)
}
