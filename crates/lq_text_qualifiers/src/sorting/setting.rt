// What names stand for in a predicate or a term.
ghost use Rattle.std.specs.Prelude.{◌≡◌, IfOk};
ghost use Rattle.lq_text_qualifiers.specs.Faults.Equations.{measures_in};
ghost use Rattle.lq_text_tree.specs.MeasureTrees.{definitions_view};
ghost use Rattle.lq_text_tree.specs.PredView.{pred_view};
ghost use Rattle.lq_text_qualifiers.specs.Sorting.Making.{number_of, variable_of};
ghost use Rattle.lq_text_qualifiers.specs.Sorting.Views.{measured_view, seen, setting_view, variable_view};

use crate::sorting::sorted::Variable;
use crate::sorting::table::Table;
use lq_base_names::Name;
use lq_text_tree::{Measure, PredExpr, PredNode};
use std::alloc::{AllocError, Global};

/// A measure: how many are defined before it, and the datatype that it takes.
#[derive(Clone, Copy)]
pub(crate) struct Measured {
    pub(crate) number: usize,
    pub(crate) datatype: Name,
}

/// What names stand for where a predicate or a term stands.
#[derive(Drop)]
pub(crate) struct Setting<'a> {
    pub(crate) variables: Table<Variable>,
    pub(crate) placeholders: Table<usize>,
    pub(crate) measures: &'a Table<Measured>,
}

/// The measures by their names, each with its number.
pub(crate) fn measures_of(
    alloc: Global,
    measures: &[Measure],
) -> Result<Table<Measured>, AllocError>
    ensures { IfOk result (λ t. seen measured_view t ≡ measures_in (definitions_view measures.now)) }
{
    let mut known = Table::new(alloc);
    for number in 0..measures.len() {
        let datatype = measures[number].datatype;
        known.add(measures[number].name, Measured { number, datatype })?;
    }
    Ok(known)
}

/// The number of a measure.
pub(crate) fn number_of(measures: &Table<Measured>, name: Name) -> usize
    ensures { result ≡ number_of (seen measured_view measures.now name.0) }
{
    match measures.get(name) {
        Some(measured) => measured.number,
        None => 0,
    }
}

/// What a variable or a placeholder stands for.
pub(crate) fn variable_of(setting: &Setting<'_>, source: &PredExpr) -> Variable
    ensures { variable_view result ≡ variable_of (setting_view setting.now) (pred_view source.now) }
{
    match &source.node {
        PredNode::Use(name) => setting.variables.get(*name).unwrap_or(Variable::Value),
        PredNode::Placeholder(name) => {
            Variable::Placeholder(setting.placeholders.get(*name).unwrap_or(0))
        }
        PredNode::Flag(_)
        | PredNode::Whole(_)
        | PredNode::Apply(_, _)
        | PredNode::Qualified(_, _, _)
        | PredNode::Arith(_, _, _)
        | PredNode::Neg(_)
        | PredNode::Compare(_, _, _)
        | PredNode::Not(_)
        | PredNode::And(_, _)
        | PredNode::Or(_, _)
        | PredNode::Iff(_, _) => Variable::Value,
    }
}
