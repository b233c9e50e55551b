// The implications between the matrices of two types of one datatype.
ghost use Rattle.std.specs.Prelude.{◌≡◌, ◌<◌, [], ◌∷◌, All, IfOk, OnOk, length};
ghost use Rattle.lq_refined_subtyping.specs.Contexts.Growing.{HasMore};
ghost use Rattle.lq_refined_substitution.specs.Implications.Growing.{Continues};
ghost use Rattle.lq_refined_substitution.specs.Implications.Views.{count_of as implication_count, environment_at, environment_lists, implications_of};
ghost use Rattle.lq_refined_types.specs.Types.Context.{Context, hypotheses_of};
ghost use Rattle.lq_refined_types.specs.Types.Refined.{top, type_at};
ghost use Rattle.lq_refined_types.specs.Types.Unfolding.{unfolded};
ghost use Rattle.lq_refined_subtyping.specs.Table.Forms.{cell_view, each, matrix_view};
ghost use Rattle.lq_refined_subtyping.specs.Table.Whole.{count_of, types_of, Grows};
ghost use Rattle.lq_refined_substitution.specs.Substitution.Views.{scopes_view};
ghost use Rattle.lq_refined_types.specs.Subtyping.Splitting.{cells};
ghost use Rattle.lq_refined_types.specs.Subtyping.Subtype.{cell_context, facts, fields_of, with_guards};
ghost use Rattle.lq_text_tree.specs.Types.{Signature};
ghost use Rattle.lq_refined_subtyping.specs.Split.Appending.{Appends};
ghost use Rattle.lq_refined_subtyping.specs.Split.Fields.{AreThere, KnowsFields};
ghost use Rattle.lq_refined_subtyping.specs.Split.Given.{origin_of, scopes_of, Over};

use crate::contexts::guarded;
use crate::split::environments::with_fields;
use crate::split::given::Given;
use crate::split::recursive::fields_in;
use crate::table::{Cell, Matrix, Place, RefinedTypes, Unfolded};
use lq_base_names::Name;
use lq_refined_substitution::implications::Implications;
use lq_refined_substitution::substitution::{Parts, Scopes, Subst};
use std::alloc::{AllocError, Global};

/// The datatype of a left type, its arguments and its matrix.
#[derive(Clone, Copy)]
pub struct Left<'a> {
    pub name: Name,
    pub arguments: &'a [usize],
    pub matrix: &'a Matrix,
}

// The numbers of the types of a constructor's fields where its value has the left type.
fn left_fields(
    alloc: Global,
    types: &mut RefinedTypes,
    given: &Given<'_>,
    left: &Left<'_>,
    constructor: Name,
) -> Result<Vec<usize>, AllocError>
    requires arguments { All (λ p. p < count_of types.old) left.now.arguments.now }
    requires fields { AreThere (count_of types.old) given.now.fields.now }
    ensures refined { IfOk result (λ made. (g : Signature)
        → KnowsFields (types_of (scopes_of given.now) types.old) given.now.fields.now g
        → each (types_of (scopes_of given.now) types.new) made.items ≡ unfolded (scopes_of given.now) [] left.now.name.0
        (each (types_of (scopes_of given.now) types.old) left.now.arguments.now) (matrix_view left.now.matrix.now)
        constructor.0 (fields_of (g constructor.0))) }
    ensures there { IfOk result (λ made. All (λ p. p < count_of types.new) made.items) }
    ensures grows { Grows types.old types.new }
{
    let rows = given.fields.get(constructor);
    let count = left.arguments.len();
    let fields = fields_in(alloc, types, given.scopes, left.name, count, rows)?;
    let by = Subst::new(alloc);
    let of = Unfolded {
        name: left.name,
        arguments: left.arguments,
        matrix: left.matrix,
        by: &by,
    };
    let made = types.unfolded(alloc, given.scopes, &of, constructor, &fields);
    let Unfolded {
        name: _,
        arguments: _,
        matrix: _,
        by: _,
    } = of;
    let made = made?;
    Ok(made)
}

// The number of an environment in which the parts of an argument hold of the value.
fn with_argument(
    alloc: Global,
    list: &mut Implications,
    types: &mut RefinedTypes,
    scopes: &Scopes,
    arguments: &[usize],
    parameter: u32,
    env: u64,
) -> Result<u64, AllocError>
    requires env { env < length (environment_lists list.old) }
    requires arguments { All (λ p. p < count_of types.old) arguments.now }
    ensures facts { IfOk result (λ n. (Γ : Context) → hypotheses_of (scopes_view scopes.now) Γ ≡ environment_at list.old env
        → hypotheses_of (scopes_view scopes.now)
        (with_guards (top (type_at (each (types_of (scopes_view scopes.now) types.old) arguments.now) parameter)) Γ)
        ≡ environment_at list.new n) }
    ensures there { IfOk result (λ n. n < length (environment_lists list.new)) }
    ensures environments { HasMore (environment_lists list.old) (environment_lists list.new) }
    ensures implications { implications_of list.new ≡ implications_of list.old }
    ensures count { implication_count list.new ≡ implication_count list.old }
    ensures grows { Grows types.old types.new }
{
    let at = parameter as usize;
    if at < arguments.len() {
        let exposed = types.expose(alloc, scopes, arguments[at])?;
        let added = guarded(alloc, list, types.node(exposed).parts(), env)?;
        Ok(added)
    } else {
        Ok(env)
    }
}

// The number of an environment in which an entry's constructor has fields of their left types, and the left argument's parts hold of the
// value.
fn with_cell(
    alloc: Global,
    list: &mut Implications,
    types: &mut RefinedTypes,
    given: &Given<'_>,
    left: &Left<'_>,
    cell: &Cell,
    env: u64,
) -> Result<u64, AllocError>
    requires env { env < length (environment_lists list.old) }
    requires arguments { All (λ p. p < count_of types.old) left.now.arguments.now }
    requires fields { AreThere (count_of types.old) given.now.fields.now }
    ensures facts { IfOk result (λ n. Over given.now types.old list.old env (λ P Γ. facts P
        (cell_context P Γ left.now.name.0 (each (types_of (scopes_of given.now) types.old) left.now.arguments.now)
        (matrix_view left.now.matrix.now) (cell_view cell.now)) ≡ environment_at list.new n)) }
    ensures there { IfOk result (λ n. n < length (environment_lists list.new)) }
    ensures environments { HasMore (environment_lists list.old) (environment_lists list.new) }
    ensures implications { implications_of list.new ≡ implications_of list.old }
    ensures count { implication_count list.new ≡ implication_count list.old }
    ensures grows { Grows types.old types.new }
{
    let fields = left_fields(alloc, types, given, left, cell.constructor)?;
    let inner = with_fields(alloc, list, types, given.scopes, &fields, env)?;
    let scopes = given.scopes;
    let at = with_argument(
        alloc,
        list,
        types,
        scopes,
        left.arguments,
        cell.parameter,
        inner,
    )?;
    Ok(at)
}

// The implications of an entry of the right matrix.
#[tactic(auto, using(lq_refined_substitution::specs::Implications::Growing::continuing))]
fn cell(
    alloc: Global,
    list: &mut Implications,
    types: &mut RefinedTypes,
    given: &Given<'_>,
    left: &Left<'_>,
    cell: &Cell,
    env: u64,
) -> Result<(), AllocError>
    requires env { env < length (environment_lists list.old) }
    requires arguments { All (λ p. p < count_of types.old) left.now.arguments.now }
    requires fields { AreThere (count_of types.old) given.now.fields.now }
    ensures added { OnOk result (Over given.now types.old list.old env (λ P Γ. Appends list.old list.new
        (cells P (origin_of given.now) Γ left.now.name.0
        (each (types_of (scopes_of given.now) types.old) left.now.arguments.now)
        (matrix_view left.now.matrix.now) (cell_view cell.now ∷ [])))) }
    ensures environments { HasMore (environment_lists list.old) (environment_lists list.new) }
    ensures continues { Continues list.old list.new }
    ensures grows { Grows types.old types.new }
{
    let inner = with_cell(alloc, list, types, given, left, cell, env)?;
    let place = Place {
        constructor: cell.constructor,
        field: cell.field as usize,
        parameter: cell.parameter as usize,
    };
    let right = cell.parts.as_slice();
    match left.matrix.cell(place) {
        Some(parts) => {
            list.imply(alloc, inner, parts, right, given.origin)?;
            Ok(())
        }
        None => {
            list.imply(alloc, inner, &Parts::new(alloc), right, given.origin)?;
            Ok(())
        }
    }
}

/// Adds the implications by which the entries of a right matrix follow from those of the left one, in their order, each where the fields of
/// its constructor have their left types and the left argument's parts hold of the value. Where memory is refused, some of them may stand
/// there, behind all that there were; environments and types only grow.
#[tactic(auto, using(lq_refined_substitution::specs::Implications::Growing::continuing))]
pub fn cells(
    alloc: Global,
    list: &mut Implications,
    types: &mut RefinedTypes,
    given: &Given<'_>,
    left: &Left<'_>,
    right: &Matrix,
    env: u64,
) -> Result<(), AllocError>
    requires env { env < length (environment_lists list.old) }
    requires arguments { All (λ p. p < count_of types.old) left.now.arguments.now }
    requires fields { AreThere (count_of types.old) given.now.fields.now }
    ensures added { OnOk result (Over given.now types.old list.old env (λ P Γ. Appends list.old list.new
        (cells P (origin_of given.now) Γ left.now.name.0
        (each (types_of (scopes_of given.now) types.old) left.now.arguments.now)
        (matrix_view left.now.matrix.now) (matrix_view right.now)))) }
    ensures environments { HasMore (environment_lists list.old) (environment_lists list.new) }
    ensures continues { Continues list.old list.new }
    ensures grows { Grows types.old types.new }
{
    for entry in right.as_slice() {
        cell(alloc, list, types, given, left, entry, env)?;
    }
    Ok(())
}
