// The implications of a subtyping.
ghost use Rattle.std.specs.Prelude.{◌≡◌, ◌<◌, ◌++◌, [], All, OnOk, length};
ghost use Rattle.lq_refined_subtyping.specs.Contexts.Growing.{HasMore};
ghost use Rattle.lq_refined_substitution.specs.Implications.Growing.{Continues};
ghost use Rattle.lq_refined_substitution.specs.Implications.Views.{environment_at, environment_lists};
ghost use Rattle.lq_refined_types.specs.Parts.Part.{Parts as PartList};
ghost use Rattle.lq_refined_types.specs.Types.Context.{Context};
ghost use Rattle.lq_refined_types.specs.Types.Refined.{all_erased, erased, function};
ghost use Rattle.lq_refined_subtyping.specs.Table.Forms.{binder_view, each, form_rows, form_type, matrix_view};
ghost use Rattle.lq_refined_subtyping.specs.Table.Whole.{count_of, refined_at, types_of, Grows};
ghost use Rattle.lq_refined_types.specs.Subtyping.Splitting.{arguments, cells, components, inside, split, tops};
ghost use Rattle.lq_refined_types.specs.Subtyping.Subtype.{facts};
ghost use Rattle.lq_refined_subtyping.specs.Split.Appending.{Appends};
ghost use Rattle.lq_refined_subtyping.specs.Split.Fields.{AreThere};
ghost use Rattle.lq_refined_subtyping.specs.Split.Given.{origin_of, scopes_of, Over};

use crate::split::counting::has_implications;
use crate::split::environments::{next_position, with_name};
use crate::split::functions::{Function, results_under};
use crate::split::given::Given;
use crate::split::matrices::{Left, cells};
use crate::split::tops::{exposed, tops};
use crate::table::{Form, Matrix, RefinedTypes};
use lq_logic_predicates::Symbol;
use lq_refined_substitution::implications::Implications;
use std::alloc::{AllocError, Global};

/// Adds the implications of a subtyping, in their order: that the type of the first number is a subtype of that of the second one in an
/// environment. Where memory is refused, some of them may stand there, behind all that there were; environments and types only grow.
pub fn split(
    alloc: Global,
    list: &mut Implications,
    types: &mut RefinedTypes,
    given: &Given<'_>,
    sides: (usize, usize),
    env: u64,
) -> Result<(), AllocError>
    requires env { env < length (environment_lists list.old) }
    requires left { sides.0 < count_of types.old }
    requires right { sides.1 < count_of types.old }
    requires fields { AreThere (count_of types.old) given.now.fields.now }
    requires same { erased (refined_at (scopes_of given.now) types.old sides.0)
        ≡ erased (refined_at (scopes_of given.now) types.old sides.1) }
    ensures added { OnOk result (Over given.now types.old list.old env (λ P Γ. Appends list.old list.new
        (split P (origin_of given.now) Γ (refined_at (scopes_of given.now) types.old sides.0)
        (refined_at (scopes_of given.now) types.old sides.1)))) }
    ensures environments { HasMore (environment_lists list.old) (environment_lists list.new) }
    ensures continues { Continues list.old list.new }
    ensures grows { Grows types.old types.new }
{
    subtypes(alloc, list, types, given, sides, (env, env))
}

// What is inside the types is compared in the first environment, and their tops in the second one.
#[cycle(splits)]
#[tactic(auto, using(lq_refined_substitution::specs::Implications::Growing::continuing))]
fn subtypes(
    alloc: Global,
    list: &mut Implications,
    types: &mut RefinedTypes,
    given: &Given<'_>,
    sides: (usize, usize),
    envs: (u64, u64),
) -> Result<(), AllocError>
    requires inner { envs.0 < length (environment_lists list.old) }
    requires outer { envs.1 < length (environment_lists list.old) }
    requires left { sides.0 < count_of types.old }
    requires right { sides.1 < count_of types.old }
    requires fields { AreThere (count_of types.old) given.now.fields.now }
    requires same { erased (refined_at (scopes_of given.now) types.old sides.0)
        ≡ erased (refined_at (scopes_of given.now) types.old sides.1) }
    ensures added { OnOk result (Over given.now types.old list.old envs.0 (λ P Γ. (Δ : Context)
        → facts P Δ ≡ environment_at list.old envs.1 → Appends list.old list.new
        (tops P (origin_of given.now) Δ (refined_at (scopes_of given.now) types.old sides.0)
        (refined_at (scopes_of given.now) types.old sides.1)
        ++ inside P (origin_of given.now) (erased (refined_at (scopes_of given.now) types.old sides.1)) Γ
        (refined_at (scopes_of given.now) types.old sides.0) (refined_at (scopes_of given.now) types.old sides.1)))) }
    ensures environments { HasMore (environment_lists list.old) (environment_lists list.new) }
    ensures continues { Continues list.old list.new }
    ensures grows { Grows types.old types.new }
{
    let sides = exposed(alloc, types, given.scopes, sides)?;
    tops(alloc, list, types, given, sides, envs.1)?;
    let left = types.node(sides.0).form.copy(alloc)?;
    let right = types.node(sides.1).form.copy(alloc)?;
    inside(alloc, list, types, given, &left, &right, envs.0)
}

// What is inside two types of these forms.
#[cycle(splits)]
#[tactic(auto, using(lq_refined_substitution::specs::Implications::Growing::continuing))]
fn inside(
    alloc: Global,
    list: &mut Implications,
    types: &mut RefinedTypes,
    given: &Given<'_>,
    left: &Form,
    right: &Form,
    env: u64,
) -> Result<(), AllocError>
    requires env { env < length (environment_lists list.old) }
    requires left { All (λ p. p < count_of types.old) (form_rows left.now) }
    requires right { All (λ p. p < count_of types.old) (form_rows right.now) }
    requires fields { AreThere (count_of types.old) given.now.fields.now }
    requires same { erased (form_type (types_of (scopes_of given.now) types.old) left.now [])
        ≡ erased (form_type (types_of (scopes_of given.now) types.old) right.now []) }
    ensures added { OnOk result (Over given.now types.old list.old env (λ P Γ. (p q : PartList) → Appends list.old list.new
        (inside P (origin_of given.now) (erased (form_type (types_of (scopes_of given.now) types.old) right.now q)) Γ
        (form_type (types_of (scopes_of given.now) types.old) left.now p)
        (form_type (types_of (scopes_of given.now) types.old) right.now q)))) }
    ensures environments { HasMore (environment_lists list.old) (environment_lists list.new) }
    ensures continues { Continues list.old list.new }
    ensures grows { Grows types.old types.new }
{
    match (left, right) {
        (Form::Function(x, a, b), Form::Function(y, c, d)) => {
            let left = Function {
                binder: *x,
                argument: *a,
                result: *b,
            };
            let right = Function {
                binder: *y,
                argument: *c,
                result: *d,
            };
            functions(alloc, list, types, given, left, right, env)
        }
        (Form::Tuple(ls), Form::Tuple(rs)) => components(alloc, list, types, given, ls, rs, env),
        (Form::Array(e), Form::Array(f)) => arrays(alloc, list, types, given, (*e, *f), env),
        (Form::Data(name, ls, m), Form::Data(_, rs, n)) => {
            let left = Left {
                name: *name,
                arguments: ls,
                matrix: m,
            };
            datatypes(alloc, list, types, given, &left, rs, n, env)
        }
        // Nothing is known of a map's key, so its elements are compared in the same environment.
        (Form::Map(e), Form::Map(f)) => {
            subtypes(alloc, list, types, given, (*e, *f), (env, env))
        }
        _ => Ok(()),
    }
}

// The arguments the other way round, then the results where their name for the argument has the right argument's type.
#[cycle(splits)]
#[tactic(auto, using(lq_refined_substitution::specs::Implications::Growing::continuing))]
fn functions(
    alloc: Global,
    list: &mut Implications,
    types: &mut RefinedTypes,
    given: &Given<'_>,
    left: Function,
    right: Function,
    env: u64,
) -> Result<(), AllocError>
    requires env { env < length (environment_lists list.old) }
    requires left_argument { left.argument < count_of types.old }
    requires left_result { left.result < count_of types.old }
    requires right_argument { right.argument < count_of types.old }
    requires right_result { right.result < count_of types.old }
    requires fields { AreThere (count_of types.old) given.now.fields.now }
    requires arguments { erased (refined_at (scopes_of given.now) types.old left.argument)
        ≡ erased (refined_at (scopes_of given.now) types.old right.argument) }
    requires results { erased (refined_at (scopes_of given.now) types.old left.result)
        ≡ erased (refined_at (scopes_of given.now) types.old right.result) }
    ensures added { OnOk result (Over given.now types.old list.old env (λ P Γ. Appends list.old list.new
        (let S = scopes_of given.now in
        let l = function (binder_view left.binder) (refined_at S types.old left.argument) (refined_at S types.old left.result) in
        let r = function (binder_view right.binder) (refined_at S types.old right.argument) (refined_at S types.old right.result) in
        inside P (origin_of given.now) (erased r) Γ l r))) }
    ensures environments { HasMore (environment_lists list.old) (environment_lists list.new) }
    ensures continues { Continues list.old list.new }
    ensures grows { Grows types.old types.new }
{
    let arguments = (right.argument, left.argument);
    subtypes(alloc, list, types, given, arguments, (env, env))?;
    let under = results_under(alloc, list, types, given.scopes, left, right, env)?;
    let sides = (under.left, right.result);
    subtypes(alloc, list, types, given, sides, (under.env, under.env))
}

// The elements of arrays may be read and written, so both ways. Where that makes no implications they aren't walked twice, since arrays in
// arrays double that with each level.
#[cycle(splits)]
#[tactic(auto, using(lq_refined_substitution::specs::Implications::Growing::continuing))]
fn arrays(
    alloc: Global,
    list: &mut Implications,
    types: &mut RefinedTypes,
    given: &Given<'_>,
    elements: (usize, usize),
    env: u64,
) -> Result<(), AllocError>
    requires env { env < length (environment_lists list.old) }
    requires left { elements.0 < count_of types.old }
    requires right { elements.1 < count_of types.old }
    requires fields { AreThere (count_of types.old) given.now.fields.now }
    requires same { erased (refined_at (scopes_of given.now) types.old elements.0)
        ≡ erased (refined_at (scopes_of given.now) types.old elements.1) }
    ensures added { OnOk result (Over given.now types.old list.old env (λ P Γ. Appends list.old list.new
        (split P (origin_of given.now) Γ (refined_at (scopes_of given.now) types.old elements.0)
        (refined_at (scopes_of given.now) types.old elements.1)
        ++ split P (origin_of given.now) Γ (refined_at (scopes_of given.now) types.old elements.1)
        (refined_at (scopes_of given.now) types.old elements.0)))) }
    ensures environments { HasMore (environment_lists list.old) (environment_lists list.new) }
    ensures continues { Continues list.old list.new }
    ensures grows { Grows types.old types.new }
{
    let scopes = given.scopes;
    if !has_implications(alloc, types, scopes, elements)? {
        return Ok(());
    }
    both_ways(alloc, list, types, given, elements, env)
}

// Two types, and the same the other way round.
#[cycle(splits)]
#[tactic(auto, using(lq_refined_substitution::specs::Implications::Growing::continuing))]
fn both_ways(
    alloc: Global,
    list: &mut Implications,
    types: &mut RefinedTypes,
    given: &Given<'_>,
    elements: (usize, usize),
    env: u64,
) -> Result<(), AllocError>
    requires env { env < length (environment_lists list.old) }
    requires left { elements.0 < count_of types.old }
    requires right { elements.1 < count_of types.old }
    requires fields { AreThere (count_of types.old) given.now.fields.now }
    requires same { erased (refined_at (scopes_of given.now) types.old elements.0)
        ≡ erased (refined_at (scopes_of given.now) types.old elements.1) }
    ensures added { OnOk result (Over given.now types.old list.old env (λ P Γ. Appends list.old list.new
        (split P (origin_of given.now) Γ (refined_at (scopes_of given.now) types.old elements.0)
        (refined_at (scopes_of given.now) types.old elements.1)
        ++ split P (origin_of given.now) Γ (refined_at (scopes_of given.now) types.old elements.1)
        (refined_at (scopes_of given.now) types.old elements.0)))) }
    ensures environments { HasMore (environment_lists list.old) (environment_lists list.new) }
    ensures continues { Continues list.old list.new }
    ensures grows { Grows types.old types.new }
{
    let (left, right) = elements;
    subtypes(alloc, list, types, given, (left, right), (env, env))?;
    subtypes(alloc, list, types, given, (right, left), (env, env))
}

// The arguments of a datatype one after another, then the entries of the right matrix.
#[cycle(splits)]
#[tactic(auto, using(lq_refined_substitution::specs::Implications::Growing::continuing))]
fn datatypes(
    alloc: Global,
    list: &mut Implications,
    types: &mut RefinedTypes,
    given: &Given<'_>,
    left: &Left<'_>,
    right: &[usize],
    matrix: &Matrix,
    env: u64,
) -> Result<(), AllocError>
    requires env { env < length (environment_lists list.old) }
    requires left { All (λ p. p < count_of types.old) left.now.arguments.now }
    requires right { All (λ p. p < count_of types.old) right.now }
    requires fields { AreThere (count_of types.old) given.now.fields.now }
    requires same { all_erased (each (types_of (scopes_of given.now) types.old) left.now.arguments.now)
        ≡ all_erased (each (types_of (scopes_of given.now) types.old) right.now) }
    ensures added { OnOk result (Over given.now types.old list.old env (λ P Γ. Appends list.old list.new
        (arguments P (origin_of given.now) (all_erased (each (types_of (scopes_of given.now) types.old) right.now)) Γ
        (each (types_of (scopes_of given.now) types.old) left.now.arguments.now)
        (each (types_of (scopes_of given.now) types.old) right.now)
        ++ cells P (origin_of given.now) Γ left.now.name.0
        (each (types_of (scopes_of given.now) types.old) left.now.arguments.now)
        (matrix_view left.now.matrix.now) (matrix_view matrix.now)))) }
    ensures environments { HasMore (environment_lists list.old) (environment_lists list.new) }
    ensures continues { Continues list.old list.new }
    ensures grows { Grows types.old types.new }
{
    arguments(alloc, list, types, given, left.arguments, right, env)?;
    cells(alloc, list, types, given, left, matrix, env)
}

// Types in a row, each with that of its place.
#[cycle(splits)]
#[tactic(auto, using(lq_refined_substitution::specs::Implications::Growing::continuing))]
fn arguments(
    alloc: Global,
    list: &mut Implications,
    types: &mut RefinedTypes,
    given: &Given<'_>,
    left: &[usize],
    right: &[usize],
    env: u64,
) -> Result<(), AllocError>
    requires env { env < length (environment_lists list.old) }
    requires left { All (λ p. p < count_of types.old) left.now }
    requires right { All (λ p. p < count_of types.old) right.now }
    requires fields { AreThere (count_of types.old) given.now.fields.now }
    requires same { all_erased (each (types_of (scopes_of given.now) types.old) left.now)
        ≡ all_erased (each (types_of (scopes_of given.now) types.old) right.now) }
    ensures added { OnOk result (Over given.now types.old list.old env (λ P Γ. Appends list.old list.new
        (arguments P (origin_of given.now) (all_erased (each (types_of (scopes_of given.now) types.old) right.now)) Γ
        (each (types_of (scopes_of given.now) types.old) left.now)
        (each (types_of (scopes_of given.now) types.old) right.now)))) }
    ensures environments { HasMore (environment_lists list.old) (environment_lists list.new) }
    ensures continues { Continues list.old list.new }
    ensures grows { Grows types.old types.new }
{
    for at in 0..left.len() {
        let sides = (left[at], right[at]);
        subtypes(alloc, list, types, given, sides, (env, env))?;
    }
    Ok(())
}

// The components of tuples: their tops where the earlier ones are `#k`, and what is inside them without those.
#[cycle(splits)]
#[tactic(auto, using(lq_refined_substitution::specs::Implications::Growing::continuing))]
fn components(
    alloc: Global,
    list: &mut Implications,
    types: &mut RefinedTypes,
    given: &Given<'_>,
    left: &[usize],
    right: &[usize],
    env: u64,
) -> Result<(), AllocError>
    requires env { env < length (environment_lists list.old) }
    requires left { All (λ p. p < count_of types.old) left.now }
    requires right { All (λ p. p < count_of types.old) right.now }
    requires fields { AreThere (count_of types.old) given.now.fields.now }
    requires same { all_erased (each (types_of (scopes_of given.now) types.old) left.now)
        ≡ all_erased (each (types_of (scopes_of given.now) types.old) right.now) }
    ensures added { OnOk result (Over given.now types.old list.old env (λ P Γ. Appends list.old list.new
        (components P (origin_of given.now) (all_erased (each (types_of (scopes_of given.now) types.old) right.now)) Γ Γ 0
        (each (types_of (scopes_of given.now) types.old) left.now)
        (each (types_of (scopes_of given.now) types.old) right.now)))) }
    ensures environments { HasMore (environment_lists list.old) (environment_lists list.new) }
    ensures continues { Continues list.old list.new }
    ensures grows { Grows types.old types.new }
{
    let scopes = given.scopes;
    let mut outer = env;
    let mut position = 0;
    for at in 0..left.len() {
        let sides = (left[at], right[at]);
        subtypes(alloc, list, types, given, sides, (env, outer))?;
        position = next_position(position)?;
        let name = Symbol::Position(position);
        outer = with_name(alloc, list, types, scopes, name, sides.0, outer)?;
    }
    Ok(())
}
