// What a refined type has inside.
ghost use Rattle.std.specs.Prelude.{◌≡◌, ◌<◌, true, false, All, IfOk, MatchOption, None};
ghost use Rattle.lq_refined_rules.specs.Checks.Match.{is_datatype};
ghost use Rattle.lq_refined_rules.specs.Checks.Operation.{datatype_of};
ghost use Rattle.lq_refined_types.specs.Parts.Part.{Scopes as ScopeLists};
ghost use Rattle.lq_refined_types.specs.Types.Refined.{argument_of, arguments_of, binder_of, components_of, element_of, matrix_of, result_of, type_at, unit_type};
ghost use Rattle.lq_refined_subtyping.specs.Table.Forms.{binder_view, each, matrix_view};
ghost use Rattle.lq_refined_subtyping.specs.Table.Whole.{count_of, refined_at, types_of, Grows};
ghost use Rattle.lq_refined_substitution.specs.Substitution.Views.{scopes_view};

use lq_base_names::{Binder, Name};
use lq_refined_substitution::substitution::{Parts, Scopes};
use lq_refined_subtyping::table::{Form, Matrix, RefinedTypes};
use std::alloc::{AllocError, Global};

/// A function type: its name for the argument, and the numbers of the types of the argument and the result.
#[derive(Clone, Copy, Debug)]
pub struct FunctionType {
    pub binder: Option<Binder>,
    pub argument: usize,
    pub result: usize,
}

/// A datatype with the numbers of its arguments and its matrix.
#[derive(Debug, Drop)]
pub(crate) struct DataType {
    pub(crate) name: Name,
    pub(crate) arguments: Vec<usize>,
    pub(crate) matrix: Matrix,
}

/// The number of the unit type.
pub fn unit(alloc: Global, types: &mut RefinedTypes) -> Result<usize, AllocError>
    ensures refined { IfOk result (λ r. (scopes : ScopeLists) → refined_at scopes types.new r ≡ unit_type) }
    ensures there { IfOk result (λ r. r < count_of types.new) }
    ensures grows { Grows types.old types.new }
{
    let made = types.push(Form::Unit, Parts::new(alloc))?;
    Ok(made)
}

/// The number of the type at a place of a row; unit past the end.
pub fn row_at(
    alloc: Global,
    types: &mut RefinedTypes,
    rows: &[usize],
    index: usize,
) -> Result<usize, AllocError>
    requires { All (λ p. p < count_of types.old) rows.now }
    ensures refined { IfOk result (λ r. (scopes : ScopeLists) → refined_at scopes types.new r
        ≡ type_at (each (types_of scopes types.old) rows.now) index) }
    ensures there { IfOk result (λ r. r < count_of types.new) }
    ensures grows { Grows types.old types.new }
{
    if index < rows.len() {
        Ok(rows[index])
    } else {
        let made = unit(alloc, types)?;
        Ok(made)
    }
}

/// The number of the type of an array's or a map's elements; unit of another type.
pub fn element_of(
    alloc: Global,
    types: &mut RefinedTypes,
    scopes: &Scopes,
    at: usize,
) -> Result<usize, AllocError>
    requires { at < count_of types.old }
    ensures refined { IfOk result (λ r. refined_at (scopes_view scopes.now) types.new r
        ≡ element_of (refined_at (scopes_view scopes.now) types.old at)) }
    ensures there { IfOk result (λ r. r < count_of types.new) }
    ensures grows { Grows types.old types.new }
{
    let exposed = types.expose(alloc, scopes, at)?;
    match types.node(exposed).form {
        Form::Array(element) | Form::Map(element) => Ok(element),
        Form::Int
        | Form::Bool
        | Form::Unit
        | Form::Function(_, _, _)
        | Form::Tuple(_)
        | Form::Data(_, _, _)
        | Form::Variable(_) => unit(alloc, types),
    }
}

// No function: it names no argument, and what is inside is unit.
fn no_function(alloc: Global, types: &mut RefinedTypes) -> Result<FunctionType, AllocError>
    ensures binder { IfOk result (λ made. binder_view made.binder ≡ None) }
    ensures argument { IfOk result (λ made. (scopes : ScopeLists) → refined_at scopes types.new made.argument ≡ unit_type) }
    ensures result { IfOk result (λ made. (scopes : ScopeLists) → refined_at scopes types.new made.result ≡ unit_type) }
    ensures argument_there { IfOk result (λ made. made.argument < count_of types.new) }
    ensures result_there { IfOk result (λ made. made.result < count_of types.new) }
    ensures grows { Grows types.old types.new }
{
    let inside = unit(alloc, types)?;
    Ok(FunctionType {
        binder: None,
        argument: inside,
        result: inside,
    })
}

/// A function type, its name for the argument and what is inside; of another type there is no name, and unit is inside.
pub fn function_type(
    alloc: Global,
    types: &mut RefinedTypes,
    scopes: &Scopes,
    at: usize,
) -> Result<FunctionType, AllocError>
    requires { at < count_of types.old }
    ensures binder { IfOk result (λ made. binder_view made.binder ≡ binder_of (refined_at (scopes_view scopes.now) types.old at)) }
    ensures argument { IfOk result (λ made. refined_at (scopes_view scopes.now) types.new made.argument
        ≡ argument_of (refined_at (scopes_view scopes.now) types.old at)) }
    ensures result { IfOk result (λ made. refined_at (scopes_view scopes.now) types.new made.result
        ≡ result_of (refined_at (scopes_view scopes.now) types.old at)) }
    ensures argument_there { IfOk result (λ made. made.argument < count_of types.new) }
    ensures result_there { IfOk result (λ made. made.result < count_of types.new) }
    ensures grows { Grows types.old types.new }
{
    let exposed = types.expose(alloc, scopes, at)?;
    match types.node(exposed).form {
        Form::Function(binder, argument, result) => Ok(FunctionType {
            binder,
            argument,
            result,
        }),
        Form::Int
        | Form::Bool
        | Form::Unit
        | Form::Tuple(_)
        | Form::Array(_)
        | Form::Data(_, _, _)
        | Form::Map(_)
        | Form::Variable(_) => no_function(alloc, types),
    }
}

// The numbers of the types of a tuple's components; none of another type.
pub(crate) fn components_of(
    alloc: Global,
    types: &mut RefinedTypes,
    scopes: &Scopes,
    at: usize,
) -> Result<Vec<usize>, AllocError>
    requires { at < count_of types.old }
    ensures refined { IfOk result (λ made. each (types_of (scopes_view scopes.now) types.new) made.items
        ≡ components_of (refined_at (scopes_view scopes.now) types.old at)) }
    ensures there { IfOk result (λ made. All (λ r. r < count_of types.new) made.items) }
    ensures grows { Grows types.old types.new }
{
    let exposed = types.expose(alloc, scopes, at)?;
    match &types.node(exposed).form {
        Form::Tuple(row) => Ok(Vec::from_slice(alloc, row)?),
        Form::Int
        | Form::Bool
        | Form::Unit
        | Form::Function(_, _, _)
        | Form::Array(_)
        | Form::Data(_, _, _)
        | Form::Map(_)
        | Form::Variable(_) => Ok(Vec::new(alloc)),
    }
}

// A datatype, its arguments and its matrix; of another type the number 0, and nothing.
pub(crate) fn data_type(
    alloc: Global,
    types: &mut RefinedTypes,
    scopes: &Scopes,
    at: usize,
) -> Result<DataType, AllocError>
    requires { at < count_of types.old }
    ensures name { IfOk result (λ made. made.name.0 ≡ datatype_of (refined_at (scopes_view scopes.now) types.old at)) }
    ensures arguments { IfOk result (λ made. each (types_of (scopes_view scopes.now) types.new) made.arguments.items
        ≡ arguments_of (refined_at (scopes_view scopes.now) types.old at)) }
    ensures matrix { IfOk result (λ made. matrix_view made.matrix ≡ matrix_of (refined_at (scopes_view scopes.now) types.old at)) }
    ensures there { IfOk result (λ made. All (λ r. r < count_of types.new) made.arguments.items) }
    ensures grows { Grows types.old types.new }
{
    let exposed = types.expose(alloc, scopes, at)?;
    match &types.node(exposed).form {
        Form::Data(name, row, matrix) => Ok(DataType {
            name: *name,
            arguments: Vec::from_slice(alloc, row)?,
            matrix: matrix.copy(alloc)?,
        }),
        Form::Int
        | Form::Bool
        | Form::Unit
        | Form::Function(_, _, _)
        | Form::Tuple(_)
        | Form::Array(_)
        | Form::Map(_)
        | Form::Variable(_) => Ok(DataType {
            name: Name(0),
            arguments: Vec::new(alloc),
            matrix: Matrix::new(alloc),
        }),
    }
}

// The name of the datatype that a type is.
pub(crate) fn datatype_name(
    alloc: Global,
    types: &mut RefinedTypes,
    scopes: &Scopes,
    at: usize,
) -> Result<Option<Name>, AllocError>
    requires { at < count_of types.old }
    ensures name { IfOk result (λ found. MatchOption found
        (is_datatype (refined_at (scopes_view scopes.now) types.old at) ≡ false)
        (λ name. (is_datatype (refined_at (scopes_view scopes.now) types.old at) ≡ true)
        × (name.0 ≡ datatype_of (refined_at (scopes_view scopes.now) types.old at)))) }
    ensures grows { Grows types.old types.new }
{
    let exposed = types.expose(alloc, scopes, at)?;
    match &types.node(exposed).form {
        Form::Data(name, _, _) => Ok(Some(*name)),
        Form::Int
        | Form::Bool
        | Form::Unit
        | Form::Function(_, _, _)
        | Form::Tuple(_)
        | Form::Array(_)
        | Form::Map(_)
        | Form::Variable(_) => Ok(None),
    }
}
