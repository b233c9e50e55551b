// The types that operations give.
ghost use Rattle.std.specs.Prelude.{◌≡◌, ◌<◌, [], IfOk};
ghost use Rattle.lq_refined_rules.specs.Checks.Operation.{called_type, option_of, type_of};
ghost use Rattle.lq_refined_rules.specs.Checks.Pure.{pure_type};
ghost use Rattle.lq_refined_rules.specs.Checks.Tree.{fetch, make, map_empty, map_find, read, tuple};
ghost use Rattle.lq_refined_types.specs.Parts.Part.{Scopes as ScopeLists};
ghost use Rattle.lq_refined_templates.specs.Programs.BlockView.{operation_view};
ghost use Rattle.lq_refined_templates.specs.Programs.PureView.{pure_view, pures_view, use_view};
ghost use Rattle.lq_refined_types.specs.Types.Refined.{int_with};
ghost use Rattle.lq_refined_subtyping.specs.Table.Whole.{count_of, refined_at, Grows};
ghost use Rattle.lq_generate_operations.specs.Basis.Basis.{scopes_of, IsThere};
ghost use Rattle.lq_generate_operations.specs.Basis.Knowing.{AreBelow};
ghost use Rattle.lq_generate_operations.specs.Operations.Over.{Over};

use crate::basis::{Basis, Names, pure_atom, pure_type, pure_types, template, term, type_of_use};
use crate::operations::builds::{built_type, empty_type};
use crate::operations::keys::element_at;
use crate::operations::quotients::quotient_type;
use crate::operations::shapes::{element_of, function_type, unit};
use lq_base_names::{CompareOp, Name};
use lq_logic_predicates::{Pred, Symbol, Term};
use lq_refined_substitution::substitution::{Part, Parts};
use lq_refined_subtyping::table::{Form, Matrix, RefinedTypes};
use lq_refined_templates::programs::{Operation, Pure, Use};
use std::alloc::{AllocError, Global};

/// The number of the type of a call: the function's result with the operand for its name of the argument.
pub fn called_type(
    alloc: Global,
    types: &mut RefinedTypes,
    basis: &Basis<'_>,
    names: &Names,
    function: &Pure,
    operand: &Pure,
) -> Result<usize, AllocError>
    requires there { IsThere (count_of types.old) basis.now }
    requires names { AreBelow (count_of types.old) names.now }
    ensures refined { IfOk result (λ r. Over basis.now names.now types.old (λ P Γ. refined_at (scopes_of basis.now) types.new r
        ≡ called_type P Γ (pure_type P Γ (pure_view function.now)) (pure_view operand.now))) }
    ensures there { IfOk result (λ r. r < count_of types.new) }
    ensures grows { Grows types.old types.new }
{
    let at = pure_type(alloc, types, basis, names, function)?;
    let called = function_type(alloc, types, basis.scopes, at)?;
    let atom = pure_atom(alloc, types, basis, names, operand)?;
    let made = types.applied(alloc, called.binder, atom, called.result)?;
    Ok(made)
}

// The number of the type of a tuple.
fn tuple_type(
    alloc: Global,
    types: &mut RefinedTypes,
    basis: &Basis<'_>,
    names: &Names,
    components: &[Pure],
) -> Result<usize, AllocError>
    requires there { IsThere (count_of types.old) basis.now }
    requires names { AreBelow (count_of types.old) names.now }
    ensures refined { IfOk result (λ r. Over basis.now names.now types.old (λ P Γ. refined_at (scopes_of basis.now) types.new r
        ≡ type_of P Γ (tuple (pures_view components.now)))) }
    ensures there { IfOk result (λ r. r < count_of types.new) }
    ensures grows { Grows types.old types.new }
{
    let row = pure_types(alloc, types, basis, names, components)?;
    let made = types.push(Form::Tuple(row), Parts::new(alloc))?;
    Ok(made)
}

// The number of the type of a new array: its length is that of the operand.
fn made_type(
    alloc: Global,
    types: &mut RefinedTypes,
    basis: &Basis<'_>,
    names: &Names,
    point: usize,
    length: &Pure,
    element: &Pure,
) -> Result<usize, AllocError>
    requires { IsThere (count_of types.old) basis.now }
    ensures refined { IfOk result (λ r. Over basis.now names.now types.old (λ P Γ. refined_at (scopes_of basis.now) types.new r
        ≡ type_of P Γ (make point (pure_view length.now) (pure_view element.now)))) }
    ensures there { IfOk result (λ r. r < count_of types.new) }
    ensures grows { Grows types.old types.new }
{
    let inside = template(alloc, types, basis, point)?;
    let value = Box::new(alloc, Term::Var(Symbol::Value))?;
    let length = term(alloc, length)?;
    let same = Pred::Compare(CompareOp::Eq, Term::Length(value), length);
    let top = Parts::single(alloc, Part::Known(same))?;
    let made = types.push(Form::Array(inside), top)?;
    Ok(made)
}

// The number of the type of an array's element.
fn fetched_type(
    alloc: Global,
    types: &mut RefinedTypes,
    basis: &Basis<'_>,
    names: &Names,
    used: Use,
    index: &Pure,
) -> Result<usize, AllocError>
    requires there { IsThere (count_of types.old) basis.now }
    requires names { AreBelow (count_of types.old) names.now }
    ensures refined { IfOk result (λ r. Over basis.now names.now types.old (λ P Γ. refined_at (scopes_of basis.now) types.new r
        ≡ type_of P Γ (fetch (use_view used) (pure_view index.now)))) }
    ensures there { IfOk result (λ r. r < count_of types.new) }
    ensures grows { Grows types.old types.new }
{
    let at = type_of_use(alloc, types, basis, names, used)?;
    let made = element_of(alloc, types, basis.scopes, at)?;
    Ok(made)
}

// The number of the type of a number that is read.
fn read_type(alloc: Global, types: &mut RefinedTypes) -> Result<usize, AllocError>
    ensures refined { IfOk result (λ r. (scopes : ScopeLists) → refined_at scopes types.new r ≡ int_with []) }
    ensures there { IfOk result (λ r. r < count_of types.new) }
    ensures grows { Grows types.old types.new }
{
    let made = types.push(Form::Int, Parts::new(alloc))?;
    Ok(made)
}

// The number of the type of an empty map.
fn empty_map_type(
    alloc: Global,
    types: &mut RefinedTypes,
    basis: &Basis<'_>,
    names: &Names,
    point: usize,
) -> Result<usize, AllocError>
    requires { IsThere (count_of types.old) basis.now }
    ensures refined { IfOk result (λ r. Over basis.now names.now types.old (λ P Γ. refined_at (scopes_of basis.now) types.new r
        ≡ type_of P Γ (map_empty point))) }
    ensures there { IfOk result (λ r. r < count_of types.new) }
    ensures grows { Grows types.old types.new }
{
    let at = template(alloc, types, basis, point)?;
    let inside = empty_type(alloc, types, basis.scopes, at)?;
    let made = types.push(Form::Map(inside), Parts::new(alloc))?;
    Ok(made)
}

// The number of an option of a type.
fn option_type(alloc: Global, types: &mut RefinedTypes, at: usize) -> Result<usize, AllocError>
    requires { at < count_of types.old }
    ensures refined { IfOk result (λ r. (scopes : ScopeLists) → refined_at scopes types.new r ≡ option_of (refined_at scopes types.old at)) }
    ensures there { IfOk result (λ r. r < count_of types.new) }
    ensures grows { Grows types.old types.new }
{
    let mut row = Vec::new(alloc);
    row.push(at)?;
    let matrix = Matrix::new(alloc);
    let made = types.push(Form::Data(Name::OPTION, row, matrix), Parts::new(alloc))?;
    Ok(made)
}

// The number of the type of what is found in a map: an option of its element at the key.
fn found_type(
    alloc: Global,
    types: &mut RefinedTypes,
    basis: &Basis<'_>,
    names: &Names,
    key: &Pure,
    map: &Pure,
) -> Result<usize, AllocError>
    requires there { IsThere (count_of types.old) basis.now }
    requires names { AreBelow (count_of types.old) names.now }
    ensures refined { IfOk result (λ r. Over basis.now names.now types.old (λ P Γ. refined_at (scopes_of basis.now) types.new r
        ≡ type_of P Γ (map_find (pure_view key.now) (pure_view map.now)))) }
    ensures there { IfOk result (λ r. r < count_of types.new) }
    ensures grows { Grows types.old types.new }
{
    let at = pure_type(alloc, types, basis, names, map)?;
    let element = element_at(alloc, types, basis.scopes, key, at)?;
    let made = option_type(alloc, types, element)?;
    Ok(made)
}

/// The number of the type that an operation gives.
pub fn type_of(
    alloc: Global,
    types: &mut RefinedTypes,
    basis: &Basis<'_>,
    names: &Names,
    operation: &Operation,
) -> Result<usize, AllocError>
    requires there { IsThere (count_of types.old) basis.now }
    requires names { AreBelow (count_of types.old) names.now }
    ensures refined { IfOk result (λ r. Over basis.now names.now types.old (λ P Γ. refined_at (scopes_of basis.now) types.new r
        ≡ type_of P Γ (operation_view operation.now))) }
    ensures there { IfOk result (λ r. r < count_of types.new) }
    ensures grows { Grows types.old types.new }
{
    match operation {
        Operation::Pure(e) => pure_type(alloc, types, basis, names, e),
        Operation::Fun(point, _, _)
        | Operation::If(point, _, _, _)
        | Operation::Match(point, _, _)
        | Operation::AssertFalse(point)
        | Operation::MapAdd(point, _, _, _) => template(alloc, types, basis, *point),
        Operation::Call(function, operand) => {
            called_type(alloc, types, basis, names, function, operand)
        }
        Operation::Tuple(components) => tuple_type(alloc, types, basis, names, components),
        Operation::Build(point, constructor, operands) => {
            built_type(alloc, types, basis, names, *point, *constructor, operands)
        }
        Operation::Make(point, length, element) => {
            made_type(alloc, types, basis, names, *point, length, element)
        }
        Operation::Fetch(used, index) => fetched_type(alloc, types, basis, names, *used, index),
        Operation::Divide(quotient, dividend, divisor) => {
            quotient_type(alloc, types, *quotient, dividend, divisor)
        }
        Operation::Store(_, _, _) | Operation::Assert(_) | Operation::Print(_) => unit(
            alloc, types,
        ),
        Operation::Read(_) => read_type(alloc, types),
        Operation::MapEmpty(point) => empty_map_type(alloc, types, basis, names, *point),
        Operation::MapFind(key, map) => found_type(alloc, types, basis, names, key, map),
    }
}
