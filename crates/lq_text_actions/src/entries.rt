// Actions on the entries of qualifiers and measures.
ghost use Rattle.std.specs.Prelude.{◌≡◌, ◌-◌, ◌∷◌, length, map, take, Some, OnOk, IfOk, Err, IsSome, IfErr};
ghost use Rattle.lq_text_tree.specs.MeasureTrees.{equation_view, definitions_view};
ghost use Rattle.lq_text_tree.specs.Qualifiers.{qualifiers_view};
ghost use Rattle.lq_text_actions.specs.Items.{entry_made, add_qualifier, append_equation, add_measure};
ghost use Rattle.lq_text_actions.specs.Value.{qualifiers, equations, measures};
ghost use Rattle.lq_text_actions.specs.Tops.{NoEquations, NoMeasures, NoQualifiers};
ghost use Rattle.lq_text_actions.specs.Views.{views, lexeme_view};
ghost use Rattle.lq_text_actions.specs.declared.values.MakeError.TheVariants.{Misfit};

use crate::values::{
    Lexeme, MakeError, Value, pop_mark, pop_named, pop_pattern, pop_predicate, push,
};
use lq_text_grammar::EntryAction;
use lq_text_tree::{Equation, Measure, Qualifier};
use std::alloc::Global;

/// The qualifiers on top.
pub fn pop_qualifiers(values: &mut Vec<Value>) -> Result<Vec<Qualifier>, MakeError>
    ensures ok { IfOk result (λ qs. views values.old.items ≡ qualifiers (qualifiers_view qs.items)
        ∷ views values.new.items) }
    ensures misfit { IfErr result (λ _. NoQualifiers (views values.old.items)) }
    ensures rest { IfErr result (λ _. values.new.items ≡ take (length values.old.items - 1) values.old.items) }
{
    match values.pop() {
        Some(Value::Qualifiers(row)) => Ok(row),
        _ => Err(MakeError::Misfit),
    }
}

fn pop_equations(values: &mut Vec<Value>) -> Result<Vec<Equation>, MakeError>
    ensures ok { IfOk result (λ es. views values.old.items ≡ equations (map equation_view es.items)
        ∷ views values.new.items) }
    ensures misfit { IfErr result (λ _. NoEquations (views values.old.items)) }
{
    match values.pop() {
        Some(Value::Equations(row)) => Ok(row),
        _ => Err(MakeError::Misfit),
    }
}

/// The measures on top.
pub fn pop_measures(values: &mut Vec<Value>) -> Result<Vec<Measure>, MakeError>
    ensures ok { IfOk result (λ ms. views values.old.items ≡ measures (definitions_view ms.items)
        ∷ views values.new.items) }
    ensures misfit { IfErr result (λ _. NoMeasures (views values.old.items)) }
    ensures rest { IfErr result (λ _. values.new.items ≡ take (length values.old.items - 1) values.old.items) }
{
    match values.pop() {
        Some(Value::Measures(row)) => Ok(row),
        _ => Err(MakeError::Misfit),
    }
}

#[tactic(auto, using(crate::proofs::Shapes::add_qualifier_shape))]
fn add_qualifier(values: &mut Vec<Value>) -> Result<(), MakeError>
    ensures ok { OnOk result (add_qualifier (views values.old.items) ≡ Some (views values.new.items)) }
    ensures fits { IsSome (add_qualifier (views values.old.items)) → result ≡ Err Misfit → ⊥ }
{
    let (predicate, _) = pop_predicate(values)?;
    let (shape, shape_place) = pop_named(values)?;
    let (value, _) = pop_named(values)?;
    let (name, _) = pop_named(values)?;
    let place = pop_mark(values)?;
    let mut row = pop_qualifiers(values)?;
    row.push(Qualifier {
        place,
        name,
        value,
        shape,
        shape_place,
        predicate: Box::into_inner(predicate),
    })?;
    push(values, Value::Qualifiers(row))
}

#[tactic(auto, using(crate::proofs::Shapes::append_equation_shape))]
fn append_equation(values: &mut Vec<Value>) -> Result<(), MakeError>
    ensures ok { OnOk result (append_equation (views values.old.items) ≡ Some (views values.new.items)) }
    ensures fits { IsSome (append_equation (views values.old.items)) → result ≡ Err Misfit → ⊥ }
{
    let (term, _) = pop_predicate(values)?;
    let pattern = pop_pattern(values)?;
    let mut row = pop_equations(values)?;
    row.push(Equation {
        pattern,
        term: Box::into_inner(term),
    })?;
    push(values, Value::Equations(row))
}

#[tactic(auto, using(crate::proofs::Shapes::add_measure_shape))]
fn add_measure(values: &mut Vec<Value>) -> Result<(), MakeError>
    ensures ok { OnOk result (add_measure (views values.old.items) ≡ Some (views values.new.items)) }
    ensures fits { IsSome (add_measure (views values.old.items)) → result ≡ Err Misfit → ⊥ }
{
    let equations = pop_equations(values)?;
    let (datatype, datatype_place) = pop_named(values)?;
    let (name, place) = pop_named(values)?;
    let mut row = pop_measures(values)?;
    row.push(Measure {
        name,
        place,
        datatype,
        datatype_place,
        equations,
    })?;
    push(values, Value::Measures(row))
}

// Does an action on the values on top.
pub(crate) fn entry(
    alloc: Global,
    action: EntryAction,
    token: &Lexeme,
    values: &mut Vec<Value>,
) -> Result<(), MakeError>
    ensures ok { OnOk result (entry_made action (lexeme_view token.now) (views values.old.items)
        ≡ Some (views values.new.items)) }
    ensures fits { IsSome (entry_made action (lexeme_view token.now) (views values.old.items))
        → result ≡ Err Misfit → ⊥ }
{
    match action {
        EntryAction::NoQualifiers => push(values, Value::Qualifiers(Vec::new(alloc))),
        EntryAction::AddQualifier => add_qualifier(values),
        EntryAction::NoMeasures => push(values, Value::Measures(Vec::new(alloc))),
        EntryAction::AddMeasure => add_measure(values),
        EntryAction::NoEquations => push(values, Value::Equations(Vec::new(alloc))),
        EntryAction::AppendEquation => append_equation(values),
    }
}
