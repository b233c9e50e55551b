// The types of pure expressions.
ghost use Rattle.std.specs.Prelude.{◌≡◌, ◌<◌, All, IfOk};
ghost use Rattle.lq_refined_rules.specs.Checks.Basis as checks;
ghost use Rattle.lq_refined_rules.specs.Checks.Pure.{number_type, pure_type, pure_types, truth_type, type_of_use, variable_type};
ghost use Rattle.lq_refined_types.specs.Parts.Part.{Scopes as ScopeLists};
ghost use Rattle.lq_refined_templates.specs.Programs.PureView.{pure_view, pures_view, use_view};
ghost use Rattle.lq_refined_types.specs.Types.Context.{Context, type_in};
ghost use Rattle.lq_refined_types.specs.Types.Operations.{symbol_of};
ghost use Rattle.lq_refined_types.specs.Types.Refined.{unit_type};
ghost use Rattle.lq_refined_subtyping.specs.Table.Forms.{each};
ghost use Rattle.lq_refined_subtyping.specs.Table.Whole.{count_of, refined_at, Grows};
ghost use Rattle.lq_refined_substitution.specs.Substitution.Views.{scopes_view};
ghost use Rattle.lq_generate_operations.specs.Basis.Basis.{scopes_of, types_in, IsThere, Stands};
ghost use Rattle.lq_generate_operations.specs.Basis.Knowing.{AreBelow, Knows};

use crate::basis::basis::Basis;
use crate::basis::names::Names;
use crate::basis::terms::{formula, term};
use lq_base_names::{Binder, CompareOp};
use lq_logic_predicates::{Pred, Symbol, Term};
use lq_refined_substitution::substitution::{Atom, Part, Parts, Scopes};
use lq_refined_subtyping::table::{Change, Form, Kind, RefinedTypes};
use lq_refined_templates::programs::{Pure, Use};
use std::alloc::{AllocError, Global};

// The number of the unit type.
fn unit(alloc: Global, types: &mut RefinedTypes) -> Result<usize, AllocError>
    ensures refined { IfOk result (λ r. (scopes : ScopeLists) → refined_at scopes types.new r ≡ unit_type) }
    ensures there { IfOk result (λ r. r < count_of types.new) }
    ensures grows { Grows types.old types.new }
{
    let made = types.push(Form::Unit, Parts::new(alloc))?;
    Ok(made)
}

/// The number of the template of a point; unit where it has none.
pub fn template(
    alloc: Global,
    types: &mut RefinedTypes,
    basis: &Basis<'_>,
    point: usize,
) -> Result<usize, AllocError>
    requires { IsThere (count_of types.old) basis.now }
    ensures refined { IfOk result (λ r. (P : checks.Basis) → Stands P basis.now types.old
        → refined_at (scopes_of basis.now) types.new r ≡ P.template point) }
    ensures there { IfOk result (λ r. r < count_of types.new) }
    ensures grows { Grows types.old types.new }
{
    match basis.rows(point).first() {
        Some(row) => Ok(*row),
        None => unit(alloc, types),
    }
}

/// The number of the type of a use: the name's, and of a generalised name with types for its type variables.
pub fn type_of_use(
    alloc: Global,
    types: &mut RefinedTypes,
    basis: &Basis<'_>,
    names: &Names,
    used: Use,
) -> Result<usize, AllocError>
    requires there { IsThere (count_of types.old) basis.now }
    requires names { AreBelow (count_of types.old) names.now }
    ensures refined { IfOk result (λ r. (P : checks.Basis) (Γ : Context) → Stands P basis.now types.old
        → Knows Γ names.now basis.now types.old
        → refined_at (scopes_of basis.now) types.new r ≡ type_of_use P Γ (use_view used)) }
    ensures there { IfOk result (λ r. r < count_of types.new) }
    ensures grows { Grows types.old types.new }
{
    let row = named(alloc, types, basis, names, used.name)?;
    match used.type_arguments {
        Some(point) => {
            let by = Vec::from_slice(alloc, basis.rows(point))?;
            let made = types.delay(Change::Instantiated(by), row)?;
            Ok(made)
        }
        None => Ok(row),
    }
}

// The number of the type of a name; unit where it has none.
fn named(
    alloc: Global,
    types: &mut RefinedTypes,
    basis: &Basis<'_>,
    names: &Names,
    name: Binder,
) -> Result<usize, AllocError>
    requires { AreBelow (count_of types.old) names.now }
    ensures refined { IfOk result (λ r. (Γ : Context) → Knows Γ names.now basis.now types.old
        → refined_at (scopes_of basis.now) types.new r ≡ type_in Γ (symbol_of name.0)) }
    ensures there { IfOk result (λ r. r < count_of types.new) }
    ensures grows { Grows types.old types.new }
{
    match names.type_of(name) {
        Some(row) => Ok(row),
        None => unit(alloc, types),
    }
}

// The number of the type of the numbers that are this expression's.
fn number_type(alloc: Global, types: &mut RefinedTypes, e: &Pure) -> Result<usize, AllocError>
    ensures refined { IfOk result (λ r. (scopes : ScopeLists) → refined_at scopes types.new r ≡ number_type (pure_view e.now)) }
    ensures there { IfOk result (λ r. r < count_of types.new) }
    ensures grows { Grows types.old types.new }
{
    let value = Term::Var(Symbol::Value);
    let same = Pred::Compare(CompareOp::Eq, value, term(alloc, e)?);
    let top = Parts::single(alloc, Part::Known(same))?;
    let made = types.push(Form::Int, top)?;
    Ok(made)
}

// The number of the type of the truth values that are this expression's.
fn truth_type(alloc: Global, types: &mut RefinedTypes, e: &Pure) -> Result<usize, AllocError>
    ensures refined { IfOk result (λ r. (scopes : ScopeLists) → refined_at scopes types.new r ≡ truth_type (pure_view e.now)) }
    ensures there { IfOk result (λ r. r < count_of types.new) }
    ensures grows { Grows types.old types.new }
{
    let value = Box::new(alloc, Pred::Flag(Symbol::Value))?;
    let same = Pred::Iff(value, Box::new(alloc, formula(alloc, e)?)?);
    let top = Parts::single(alloc, Part::Known(same))?;
    let made = types.push(Form::Bool, top)?;
    Ok(made)
}

// The number of the type of a variable, by that of its type in the environment.
fn variable_type(
    alloc: Global,
    types: &mut RefinedTypes,
    scopes: &Scopes,
    name: Binder,
    at: usize,
) -> Result<usize, AllocError>
    requires { at < count_of types.old }
    ensures refined { IfOk result (λ r. refined_at (scopes_view scopes.now) types.new r
        ≡ variable_type (scopes_view scopes.now) name.0 (refined_at (scopes_view scopes.now) types.old at)) }
    ensures there { IfOk result (λ r. r < count_of types.new) }
    ensures grows { Grows types.old types.new }
{
    match types.kind(at) {
        Kind::Number | Kind::Object => {
            let atom = Atom::Term(Term::Var(Symbol::Bound(name)));
            types.self_type(alloc, scopes, at, &atom)
        }
        Kind::TruthValue => {
            let atom = Atom::Pred(Pred::Flag(Symbol::Bound(name)));
            types.self_type(alloc, scopes, at, &atom)
        }
        Kind::Other => types.delay(Change::Twin, at),
    }
}

/// The number of the type of a pure expression.
pub fn pure_type(
    alloc: Global,
    types: &mut RefinedTypes,
    basis: &Basis<'_>,
    names: &Names,
    e: &Pure,
) -> Result<usize, AllocError>
    requires there { IsThere (count_of types.old) basis.now }
    requires names { AreBelow (count_of types.old) names.now }
    ensures refined { IfOk result (λ r. (P : checks.Basis) (Γ : Context) → Stands P basis.now types.old
        → Knows Γ names.now basis.now types.old
        → refined_at (scopes_of basis.now) types.new r ≡ pure_type P Γ (pure_view e.now)) }
    ensures there { IfOk result (λ r. r < count_of types.new) }
    ensures grows { Grows types.old types.new }
{
    match e {
        Pure::Use(used) => {
            let row = type_of_use(alloc, types, basis, names, *used)?;
            let made = variable_type(alloc, types, basis.scopes, used.name, row)?;
            Ok(made)
        }
        Pure::Unit => unit(alloc, types),
        Pure::Whole(_) | Pure::Neg(_) | Pure::Ring(_, _, _) | Pure::Length(_) => {
            number_type(alloc, types, e)
        }
        Pure::Flag(_) | Pure::Compare(_, _, _) | Pure::Not(_) | Pure::And(_, _) | Pure::Or(_, _) =>
            truth_type(alloc, types, e),
    }
}

/// The numbers of the types of pure expressions, in their order.
pub fn pure_types(
    alloc: Global,
    types: &mut RefinedTypes,
    basis: &Basis<'_>,
    names: &Names,
    es: &[Pure],
) -> Result<Vec<usize>, AllocError>
    requires there { IsThere (count_of types.old) basis.now }
    requires names { AreBelow (count_of types.old) names.now }
    ensures refined { IfOk result (λ made. (P : checks.Basis) (Γ : Context) → Stands P basis.now types.old
        → Knows Γ names.now basis.now types.old
        → each (types_in basis.now types.new) made.items ≡ pure_types P Γ (pures_view es.now)) }
    ensures there { IfOk result (λ made. All (λ r. r < count_of types.new) made.items) }
    ensures grows { Grows types.old types.new }
{
    let mut made = Vec::new(alloc);
    for e in es {
        made.push(pure_type(alloc, types, basis, names, e)?)?;
    }
    Ok(made)
}
