// What stands for pure expressions, where something is put for names.
ghost use Rattle.std.specs.Prelude.{◌≡◌, ◌<◌, suc, IfOk};
ghost use Rattle.lq_refined_rules.specs.Checks.Basis as checks;
ghost use Rattle.lq_refined_rules.specs.Checks.Pure.{atom_by, operands_for, pure_atom, pure_type};
ghost use Rattle.lq_refined_templates.specs.Programs.PureView.{pure_view, pures_view};
ghost use Rattle.lq_refined_types.specs.Types.Context.{Context};
ghost use Rattle.lq_refined_types.specs.Types.Refined.{kind};
ghost use Rattle.lq_refined_subtyping.specs.Table.Forms.{kind_view};
ghost use Rattle.lq_refined_subtyping.specs.Table.Whole.{count_of, Grows};
ghost use Rattle.lq_refined_substitution.specs.Substitution.Views.{atom_view, subst_view};
ghost use Rattle.lq_generate_operations.specs.Basis.Basis.{IsThere, Stands};
ghost use Rattle.lq_generate_operations.specs.Basis.Knowing.{AreBelow, Knows};

use crate::basis::basis::Basis;
use crate::basis::names::Names;
use crate::basis::terms::{formula, term};
use crate::basis::types::type_of_use;
use lq_logic_predicates::Symbol;
use lq_refined_substitution::substitution::{Atom, Subst};
use lq_refined_subtyping::table::{Kind, RefinedTypes};
use lq_refined_templates::programs::Pure;
use std::alloc::{AllocError, Global};

// What a value of a pure expression is in predicates.
fn kind_of(
    alloc: Global,
    types: &mut RefinedTypes,
    basis: &Basis<'_>,
    names: &Names,
    e: &Pure,
) -> Result<Kind, AllocError>
    requires there { IsThere (count_of types.old) basis.now }
    requires names { AreBelow (count_of types.old) names.now }
    ensures kind { IfOk result (λ k. (P : checks.Basis) (Γ : Context) → Stands P basis.now types.old
        → Knows Γ names.now basis.now types.old → kind_view k ≡ kind (pure_type P Γ (pure_view e.now))) }
    ensures grows { Grows types.old types.new }
{
    match e {
        Pure::Use(used) => {
            let row = type_of_use(alloc, types, basis, names, *used)?;
            Ok(types.kind(row))
        }
        Pure::Unit => Ok(Kind::Other),
        Pure::Whole(_) | Pure::Neg(_) | Pure::Ring(_, _, _) | Pure::Length(_) => Ok(Kind::Number),
        Pure::Flag(_) | Pure::Compare(_, _, _) | Pure::Not(_) | Pure::And(_, _) | Pure::Or(_, _) =>
            Ok(Kind::TruthValue),
    }
}

// What stands for an expression of a kind.
fn atom_by(alloc: Global, kind: Kind, e: &Pure) -> Result<Atom, AllocError>
    ensures { IfOk result (λ atom. atom_view atom ≡ atom_by (kind_view kind) (pure_view e.now)) }
{
    match kind {
        Kind::TruthValue => Ok(Atom::Pred(formula(alloc, e)?)),
        Kind::Number | Kind::Object | Kind::Other => Ok(Atom::Term(term(alloc, e)?)),
    }
}

/// What stands for a pure expression: a predicate for a truth value, a term for every other one.
pub fn pure_atom(
    alloc: Global,
    types: &mut RefinedTypes,
    basis: &Basis<'_>,
    names: &Names,
    e: &Pure,
) -> Result<Atom, AllocError>
    requires there { IsThere (count_of types.old) basis.now }
    requires names { AreBelow (count_of types.old) names.now }
    ensures atom { IfOk result (λ atom. (P : checks.Basis) (Γ : Context) → Stands P basis.now types.old
        → Knows Γ names.now basis.now types.old → atom_view atom ≡ pure_atom P Γ (pure_view e.now)) }
    ensures grows { Grows types.old types.new }
{
    let kind = kind_of(alloc, types, basis, names, e)?;
    let atom = atom_by(alloc, kind, e)?;
    Ok(atom)
}

// The position behind this one. Past 2^32 - 1 it answers that there is no memory.
fn next_position(position: u32) -> Result<u32, AllocError>
    ensures { IfOk result (λ next. next ≡ suc position) }
{
    match position.checked_add(1) {
        Some(next) => Ok(next),
        None => Err(AllocError),
    }
}

/// Pure expressions for the fields of a constructor or the components of a tuple, the first for `#1`.
pub fn operands_for(
    alloc: Global,
    types: &mut RefinedTypes,
    basis: &Basis<'_>,
    names: &Names,
    es: &[Pure],
) -> Result<Subst, AllocError>
    requires there { IsThere (count_of types.old) basis.now }
    requires names { AreBelow (count_of types.old) names.now }
    ensures operands { IfOk result (λ by. (P : checks.Basis) (Γ : Context) → Stands P basis.now types.old
        → Knows Γ names.now basis.now types.old → subst_view by ≡ operands_for P Γ 0 (pures_view es.now)) }
    ensures grows { Grows types.old types.new }
{
    let mut by = Subst::new(alloc);
    let mut position = 0;
    for e in es {
        position = next_position(position)?;
        let atom = pure_atom(alloc, types, basis, names, e)?;
        by.push(Symbol::Position(position), atom)?;
    }
    Ok(by)
}
