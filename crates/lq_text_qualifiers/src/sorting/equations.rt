// The equations of measures.
ghost use Rattle.std.specs.Prelude.{◌≡◌, ℕ, map, None, IfOk, OnOk};
ghost use Rattle.lq_base_names.specs.declared.name.Name.{Name};
ghost use Rattle.lq_text_tree.specs.MeasureTrees.{equation_view};
ghost use Rattle.lq_text_tree.specs.PatternView.{pat_view, pats_view};
ghost use Rattle.lq_text_qualifiers.specs.Faults.Lookups.{first_in, or_else};
ghost use Rattle.lq_text_qualifiers.specs.Sorting.Making.{bound_at, fields_from, fields_in, filed, filed_by, term_at};
ghost use Rattle.lq_text_qualifiers.specs.Sorting.Views.{held, measured_view, seen, term_view, variable_view};
ghost use Rattle.lq_text_qualifiers.specs.Sorting.Filing.{filed_view};

use crate::sorting::setting::{Measured, Setting};
use crate::sorting::sorted::{ScopedTerm, Variable};
use crate::sorting::table::Table;
use crate::sorting::terms::term_of;
use lq_base_names::Name;
use lq_text_tree::{Equation, Pat, PatNode, Pats};
use std::alloc::{AllocError, Global};

/// An equation of a measure, as a table has it.
#[derive(Clone, Copy)]
pub(crate) struct FiledEquation<'a> {
    equation: &'a Equation,
}

// The variable of a pattern at the field of this number, behind those that are known.
fn add_field(
    fields: &mut Table<Variable>,
    pattern: &Pat<Name>,
    number: usize,
) -> Result<(), AllocError>
    ensures { OnOk result ((x : ℕ) → seen variable_view fields.new x ≡ or_else
        (seen variable_view fields.old x)
        (first_in (bound_at (pat_view Name (λ n. n.0) pattern.now) number) x)) }
{
    match &pattern.node {
        PatNode::Bind(name) => fields.add(*name, Variable::Field(number)),
        PatNode::Any | PatNode::Unit | PatNode::Tuple(_) | PatNode::Build(_, _, _) => Ok(()),
    }
}

// The variables of the patterns of fields.
fn fields_of(alloc: Global, row: &Pats<Name>) -> Result<Table<Variable>, AllocError>
    ensures { IfOk result (λ t. seen variable_view t
        ≡ first_in (fields_from 0 (pats_view Name (λ n. n.0) row.now))) }
{
    let mut fields = Table::new(alloc);
    for at in 0..row.len() {
        if let Some(pattern) = row.get(at) {
            add_field(&mut fields, pattern, at)?;
        }
    }
    Ok(fields)
}

// The variables of a pattern.
fn variables_of(alloc: Global, pattern: &Pat<Name>) -> Result<Table<Variable>, AllocError>
    ensures { IfOk result (λ t. seen variable_view t
        ≡ first_in (fields_in (pat_view Name (λ n. n.0) pattern.now))) }
{
    match &pattern.node {
        PatNode::Build(_, _, row) => {
            let fields = fields_of(alloc, row)?;
            Ok(fields)
        }
        PatNode::Any | PatNode::Bind(_) | PatNode::Unit | PatNode::Tuple(_) => {
            Ok(Table::new(alloc))
        }
    }
}

// An equation behind those that are filed.
fn file<'a>(known: &mut Table<FiledEquation<'a>>, equation: &'a Equation) -> Result<(), AllocError>
    ensures { OnOk result ((x : ℕ) → seen filed_view known.new x ≡ or_else (seen filed_view known.old x)
        (first_in (filed_by (equation_view equation.now).pattern (equation_view equation.now)) x)) }
{
    match &equation.pattern.node {
        PatNode::Build(name, _, _) => known.add(*name, FiledEquation { equation }),
        PatNode::Any | PatNode::Bind(_) | PatNode::Unit | PatNode::Tuple(_) => Ok(()),
    }
}

/// The equations of a measure by the constructors of their patterns.
pub(crate) fn filed<'a>(
    alloc: Global,
    equations: &'a [Equation],
) -> Result<Table<FiledEquation<'a>>, AllocError>
    ensures { IfOk result (λ t. seen filed_view t ≡ first_in (filed (map equation_view equations.now))) }
{
    let mut known = Table::new(alloc);
    for equation in equations {
        file(&mut known, equation)?;
    }
    Ok(known)
}

/// What a measure with these equations is of a value of a constructor.
pub(crate) fn term_at(
    alloc: Global,
    measures: &Table<Measured>,
    equations: &Table<FiledEquation<'_>>,
    constructor: Name,
) -> Result<ScopedTerm, AllocError>
    ensures { IfOk result (λ t. term_view t ≡ term_at (seen measured_view measures.now)
        (seen filed_view equations.now) constructor.0) }
{
    match equations.get(constructor) {
        Some(filed) => {
            let setting = Setting {
                variables: variables_of(alloc, &filed.equation.pattern)?,
                placeholders: Table::new(alloc),
                measures,
            };
            let term = term_of(alloc, &setting, &filed.equation.term)?;
            Ok(term)
        }
        None => Ok(ScopedTerm::Whole(0)),
    }
}
