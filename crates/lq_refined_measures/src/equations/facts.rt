// The equations of measures.
ghost use Rattle.std.specs.Prelude.{◌≡◌, ◌==◌, ◌++◌, map, slice_get, IfOk, OnOk};
ghost use Rattle.lq_logic_predicates.specs.PredView.{formula_of, pred_items};
ghost use Rattle.lq_logic_predicates.specs.TermView.{sum_of, term_items};
ghost use Rattle.lq_text_qualifiers.specs.Sorting.Views.{measure_view, term_view};
ghost use Rattle.lq_refined_measures.specs.Equations.Facts.{equation_at, equations, with_fields};
ghost use Rattle.lq_base_names.specs.declared.operation.CompareOp.TheVariants.{Eq};
ghost use Rattle.lq_logic_predicates.specs.Formula.{compare};
ghost use Rattle.lq_logic_predicates.specs.Sum.{measure};
ghost use Rattle.std.specs.Option.{option_map};
ghost use Rattle.lq_refined_measures.specs.Equations.Views.{name_of};

use crate::equations::terms::with_fields;
use lq_base_names::Name;
use lq_logic_predicates::{CompareOp, Pred, Preds, Term, Terms};
use lq_text_qualifiers::sorting::{ScopedMeasure, ScopedTerm};
use std::alloc::{AllocError, Global};

// Whether a measure is of this datatype.
fn is_of(measure: &ScopedMeasure, datatype: Name) -> bool
    ensures { result ≡ ((measure_view measure.now).datatype == datatype.0) }
{
    measure.datatype.0 == datatype.0
}

// What a measure is of a value of the constructor of this number.
fn term_of(measure: &ScopedMeasure, constructor: usize) -> Option<&ScopedTerm>
    ensures { option_map (λ t. term_view t.now) result
        ≡ slice_get (measure_view measure.now).terms constructor }
{
    measure.terms.get(constructor)
}

// The equation of a measure of this name that is this term.
fn equation(
    alloc: Global,
    measures: &[ScopedMeasure],
    name: Name,
    term: &ScopedTerm,
    fields: &Terms,
    value: &Term,
) -> Result<Pred, AllocError>
    ensures { IfOk result (λ p. formula_of p ≡ compare Eq (measure name (sum_of value.now))
        (with_fields (map name_of measures.now) (map sum_of (term_items fields.now)) (term_view term.now))) }
{
    let left = Term::Measure(name, Box::new(alloc, value.copy(alloc)?)?);
    let right = with_fields(alloc, measures, fields, term)?;
    Ok(Pred::Compare(CompareOp::Eq, left, right))
}

// The equation of a measure behind those that are there.
fn add_equation(
    alloc: Global,
    measures: &[ScopedMeasure],
    measure: &ScopedMeasure,
    constructor: usize,
    fields: &Terms,
    value: &Term,
    facts: &mut Preds,
) -> Result<(), AllocError>
    ensures { OnOk result (map formula_of (pred_items facts.new) ≡ map formula_of (pred_items facts.old)
        ++ equation_at (map name_of measures.now) (map sum_of (term_items fields.now))
        (sum_of value.now) constructor (measure_view measure.now)) }
{
    match term_of(measure, constructor) {
        Some(term) => {
            let fact = equation(alloc, measures, measure.name, term, fields, value)?;
            facts.push(fact)
        }
        None => Ok(()),
    }
}

/// The equations of the measures of a datatype at a value that its constructor of this number, counted from 0 in the order of the
/// definition, makes of these fields: one for each measure of the datatype, in the order of the measures.
///
/// Fields are by their numbers, and a field that is an array or of a datatype is a variable. A measure that has no term of the
/// constructor has no equation.
pub fn measure_facts(
    alloc: Global,
    measures: &[ScopedMeasure],
    datatype: Name,
    constructor: usize,
    fields: &Terms,
    value: &Term,
) -> Result<Preds, AllocError>
    ensures made { IfOk result (λ facts. map formula_of (pred_items facts)
        ≡ equations (map measure_view measures.now) datatype.0 constructor
        (map sum_of (term_items fields.now)) (sum_of value.now)) }
{
    let mut facts = Preds::new(alloc)?;
    for measure in measures {
        if is_of(measure, datatype) {
            add_equation(
                alloc,
                measures,
                measure,
                constructor,
                fields,
                value,
                &mut facts,
            )?;
        }
    }
    Ok(facts)
}
