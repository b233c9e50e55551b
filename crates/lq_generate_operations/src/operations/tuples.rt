// Names for the components of tuples and for the fields of constructors.
ghost use Rattle.std.specs.Prelude.{◌≡◌, ◌<◌, suc, [], All, IfOk, length};
ghost use Rattle.lq_refined_rules.specs.Checks.Match.{bind_all, bind_components, names_for};
ghost use Rattle.lq_refined_rules.specs.Checks.Operation.{bind};
ghost use Rattle.lq_refined_subtyping.specs.Contexts.Growing.{HasMore};
ghost use Rattle.lq_refined_substitution.specs.Implications.Views.{count_of as implication_count, environment_lists, implications_of};
ghost use Rattle.lq_refined_types.specs.Parts.Part.{Scopes as ScopeLists, parts_by};
ghost use Rattle.lq_refined_templates.specs.Programs.BlockView.{names_view};
ghost use Rattle.lq_refined_types.specs.Types.Context.{Context};
ghost use Rattle.lq_refined_types.specs.Types.Operations.{atom_of, symbol_of};
ghost use Rattle.lq_refined_types.specs.Types.Refined.{kind, top, type_at, with_top};
ghost use Rattle.lq_refined_subtyping.specs.Table.Forms.{each, kind_view};
ghost use Rattle.lq_refined_subtyping.specs.Table.Whole.{count_of, refined_at, types_of, Grows};
ghost use Rattle.lq_refined_substitution.specs.Substitution.Views.{atom_view, scopes_view, subst_view};
ghost use Rattle.lq_generate_operations.specs.Basis.Basis.{scopes_of, types_in};
ghost use Rattle.lq_generate_operations.specs.Basis.Knowing.{AreBelow};
ghost use Rattle.lq_generate_operations.specs.Basis.Names.{IsLonger};
ghost use Rattle.lq_generate_operations.specs.Operations.Over.{IsContext};

use crate::basis::{Basis, Names};
use crate::operations::contexts::bind;
use crate::operations::fields::with_first;
use crate::operations::shapes::row_at;
use lq_base_names::Binder;
use lq_logic_predicates::{Pred, Symbol, Term};
use lq_refined_substitution::implications::Implications;
use lq_refined_substitution::substitution::{Atom, Scopes, Subst};
use lq_refined_subtyping::table::{Kind, RefinedTypes};
use std::alloc::{AllocError, Global};

// The position behind this one. Past 2^32 - 1 it answers that there is no memory.
fn next_position(position: u32) -> Result<u32, AllocError>
    ensures { IfOk result (λ next. next ≡ suc position) }
{
    match position.checked_add(1) {
        Some(next) => Ok(next),
        None => Err(AllocError),
    }
}

// What stands for a name of a kind.
fn atom_of(kind: Kind, name: Binder) -> Atom
    ensures { atom_view result ≡ atom_of (kind_view kind) (symbol_of name.0) }
{
    match kind {
        Kind::TruthValue => Atom::Pred(Pred::Flag(Symbol::Bound(name))),
        Kind::Number | Kind::Object | Kind::Other => Atom::Term(Term::Var(Symbol::Bound(name))),
    }
}

// The kind of the type at a place of a row.
fn kind_at(types: &RefinedTypes, rows: &[usize], index: usize) -> Kind
    requires { All (λ p. p < count_of types.now) rows.now }
    ensures { (scopes : ScopeLists) → kind_view result ≡ kind (type_at (each (types_of scopes types.now) rows.now) index) }
{
    if index < rows.len() {
        types.kind(rows[index])
    } else {
        Kind::Other
    }
}

// Names for the fields of a constructor, the first one for `#1`.
pub(crate) fn names_for(
    alloc: Global,
    types: &RefinedTypes,
    names: &[Binder],
    rows: &[usize],
) -> Result<Subst, AllocError>
    requires { All (λ p. p < count_of types.now) rows.now }
    ensures { IfOk result (λ by. (scopes : ScopeLists) → subst_view by
        ≡ names_for 0 (names_view names.now) (each (types_of scopes types.now) rows.now)) }
{
    let mut by = Subst::new(alloc);
    let mut position = 0;
    for index in 0..names.len() {
        position = next_position(position)?;
        let kind = kind_at(types, rows, index);
        by.push(Symbol::Position(position), atom_of(kind, names[index]))?;
    }
    Ok(by)
}

// Binds names in their order, each with the type of its place.
pub(crate) fn bind_all(
    alloc: Global,
    list: &mut Implications,
    types: &mut RefinedTypes,
    basis: &Basis<'_>,
    names: &mut Names,
    fields: &[Binder],
    rows: &[usize],
    env: u64,
) -> Result<u64, AllocError>
    requires env { env < length (environment_lists list.old) }
    requires rows { All (λ p. p < count_of types.old) rows.now }
    requires names { AreBelow (count_of types.old) names.old }
    ensures context { IfOk result (λ n. (Γ : Context) → IsContext Γ names.old basis.now types.old list.old env
        → IsContext (bind_all (names_view fields.now) (each (types_in basis.now types.old) rows.now) Γ)
        names.new basis.now types.new list.new n) }
    ensures longer { IsLonger names.old names.new }
    ensures below { AreBelow (count_of types.new) names.new }
    ensures there { IfOk result (λ n. n < length (environment_lists list.new)) }
    ensures environments { HasMore (environment_lists list.old) (environment_lists list.new) }
    ensures implications { implications_of list.new ≡ implications_of list.old }
    ensures count { implication_count list.new ≡ implication_count list.old }
    ensures grows { Grows types.old types.new }
{
    let mut at = env;
    for index in 0..fields.len() {
        let row = row_at(alloc, types, rows, index)?;
        at = bind(alloc, list, types, basis, names, fields[index], row, at)?;
    }
    Ok(at)
}

// The number of a type with something put for the names in the parts at its top.
fn put_at_top(
    alloc: Global,
    types: &mut RefinedTypes,
    scopes: &Scopes,
    by: &Subst,
    at: usize,
) -> Result<usize, AllocError>
    requires { at < count_of types.old }
    ensures refined { IfOk result (λ r. refined_at (scopes_view scopes.now) types.new r
        ≡ with_top (parts_by (scopes_view scopes.now) (subst_view by.now) (top (refined_at (scopes_view scopes.now) types.old at)))
        (refined_at (scopes_view scopes.now) types.old at)) }
    ensures there { IfOk result (λ r. r < count_of types.new) }
    ensures grows { Grows types.old types.new }
{
    let exposed = types.expose(alloc, scopes, at)?;
    let node = types.node(exposed);
    let top = node.top.by(alloc, scopes, by)?;
    let form = node.form.copy(alloc)?;
    types.push(form, top)
}

// Binds a name for a component, with the names of earlier ones for `#1`, `#2`, .. in its top.
fn bind_component(
    alloc: Global,
    list: &mut Implications,
    types: &mut RefinedTypes,
    basis: &Basis<'_>,
    names: &mut Names,
    by: &Subst,
    name: Binder,
    row: usize,
    env: u64,
) -> Result<u64, AllocError>
    requires env { env < length (environment_lists list.old) }
    requires at { row < count_of types.old }
    requires names { AreBelow (count_of types.old) names.old }
    ensures context { IfOk result (λ n. (Γ : Context) → IsContext Γ names.old basis.now types.old list.old env
        → IsContext (bind name.0 (with_top (parts_by (scopes_of basis.now) (subst_view by.now)
        (top (refined_at (scopes_of basis.now) types.old row))) (refined_at (scopes_of basis.now) types.old row)) Γ)
        names.new basis.now types.new list.new n) }
    ensures longer { IsLonger names.old names.new }
    ensures below { AreBelow (count_of types.new) names.new }
    ensures there { IfOk result (λ n. n < length (environment_lists list.new)) }
    ensures environments { HasMore (environment_lists list.old) (environment_lists list.new) }
    ensures implications { implications_of list.new ≡ implications_of list.old }
    ensures count { implication_count list.new ≡ implication_count list.old }
    ensures grows { Grows types.old types.new }
{
    let at = put_at_top(alloc, types, basis.scopes, by, row)?;
    let made = bind(alloc, list, types, basis, names, name, at, env)?;
    Ok(made)
}

// Binds names for the components of a tuple.
pub(crate) fn bind_components(
    alloc: Global,
    list: &mut Implications,
    types: &mut RefinedTypes,
    basis: &Basis<'_>,
    names: &mut Names,
    components: &[Binder],
    rows: &[usize],
    env: u64,
) -> Result<u64, AllocError>
    requires env { env < length (environment_lists list.old) }
    requires rows { All (λ p. p < count_of types.old) rows.now }
    requires names { AreBelow (count_of types.old) names.old }
    ensures context { IfOk result (λ n. (Γ : Context) → IsContext Γ names.old basis.now types.old list.old env
        → IsContext (bind_components (scopes_of basis.now) [] 0 (names_view components.now)
        (each (types_in basis.now types.old) rows.now) Γ) names.new basis.now types.new list.new n) }
    ensures longer { IsLonger names.old names.new }
    ensures below { AreBelow (count_of types.new) names.new }
    ensures there { IfOk result (λ n. n < length (environment_lists list.new)) }
    ensures environments { HasMore (environment_lists list.old) (environment_lists list.new) }
    ensures implications { implications_of list.new ≡ implications_of list.old }
    ensures count { implication_count list.new ≡ implication_count list.old }
    ensures grows { Grows types.old types.new }
{
    let mut at = env;
    let mut by = Subst::new(alloc);
    let mut position = 0;
    for index in 0..components.len() {
        position = next_position(position)?;
        let name = components[index];
        let row = row_at(alloc, types, rows, index)?;
        let atom = atom_of(types.kind(row), name);
        at = bind_component(alloc, list, types, basis, names, &by, name, row, at)?;
        by = with_first(alloc, Symbol::Position(position), atom, &by)?;
    }
    Ok(at)
}
