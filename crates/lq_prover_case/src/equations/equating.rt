// Lengths and measures of one object are equal.
ghost use Rattle.std.specs.Prelude.{◌≡◌, ◌<◌, ◌∷◌, ◌++◌, [], suc, List, ℕ, IsTrue, Some, IfOk, IfErr, IfSome, IfNone, OnErr, OnOk, Option, length, slice_get, slice_index, unwrap_or};
ghost use Rattle.lq_prover_case.specs.State.PathState.{KeepsHanded, facts_in, objects_in};
ghost use Rattle.lq_prover_case.specs.State.RowState.{terms_of as row_terms};
ghost use Rattle.lq_prover_proof_tree.specs.Trees.Path.{Path};
ghost use Rattle.lq_prover_proof_tree.specs.Trees.Proves.{Clashes, rows_among};
ghost use Rattle.lq_prover_proof_tree.specs.Trees.TreeView.{clash_of};
ghost use Rattle.lq_prover_case.specs.Equations.Equating.{AddsEquations, AreEquated, AreFirsts, ClassesJoin, EachEquated, Grows, IsApplication, KeepsFirsts, Wraps, applied, equation, equation_fact, first_at, numbering_by};
ghost use Rattle.lq_prover_case.specs.Equations.Naming.{HasAllArguments, name_in, objects_of};
ghost use Rattle.lq_prover_differences.specs.Stops.{StopsBy};
ghost use Rattle.lq_prover_differences.specs.Table.{constants};
ghost use Rattle.lq_logic_rows.specs.Row.{Row};
ghost use Rattle.lq_prover_proof_tree.specs.Literals.Parts.{places_from};
ghost use Rattle.lq_base_names.specs.declared.name.Name.{Name};
ghost use Rattle.lq_prover_case.specs.Objects.Joined.{AreOne};
ghost use Rattle.lq_logic_predicates.specs.Reading.{Readings};
ghost use Rattle.lq_logic_predicates.specs.Sum.{Sum};
ghost use Rattle.lq_logic_predicates.specs.Table.{all_differ};
ghost use Rattle.lq_logic_predicates.specs.TableView.{terms_of};

use crate::equations::application::{Application, FunctionAt};
use crate::equations::chain::Joint;
use crate::equations::object_table::ObjectTable;
use crate::state::PathState;
use indexmap::IndexMap;
use lq_logic_predicates::{Term, TermTable};
use lq_logic_rows::{LinearRow, LinearStop};
use lq_prover_proof_tree::literals::applications;
use lq_prover_proof_tree::trees::CaseProof;
use std::alloc::{AllocError, Global};

/// What is found: the first application of each function to each class, and the nodes of the later ones.
#[derive(Drop)]
struct Equations {
    firsts: IndexMap<FunctionAt, Application>,
    joints: Vec<Joint>,
}

/// The row that two terms are equal.
fn equal_row(alloc: Global, left: u64, right: u64) -> Result<LinearRow, AllocError>
    requires { left < right }
    ensures { IfOk result (λ row. row ≡ equation (left, right)) }
{
    let parts = vec![in alloc; (left, 1), (right, -1)]?;
    Ok(LinearRow::new(parts, 0, true))
}

/// Takes as the next fact that two applications are equal whose objects are one, with its node. A clash with it is the answer.
fn equate(
    alloc: Global,
    state: &mut PathState,
    objects: &ObjectTable,
    table: &TermTable,
    first: Application,
    later: Application,
    joints: &mut Vec<Joint>,
) -> Result<Option<CaseProof>, LinearStop>
    requires distinct { IsTrue (all_differ (terms_of table.now)) }
    requires first { IsApplication (objects_of objects.now) (terms_of table.now) first }
    requires later { IsApplication (objects_of objects.now) (terms_of table.now) later }
    requires function { first.measure ≡ later.measure }
    requires before { first.index < later.index }
    requires fits { later.index < 18446744073709551615 }
    requires count { state.old.objects.count ≡ length (objects_of objects.now) }
    requires terms { row_terms state.old.rows ≡ length (terms_of table.now) }
    requires one { AreOne (objects_in state.old) first.object later.object }
    ensures adds { OnOk result ((name : ℕ → Sum) → facts_in name state.new
        ≡ facts_in name state.old ++ equation_fact (first.term, later.term) ∷ []) }
    ensures wraps { OnOk result ((whole : Path) (choices : List (Readings Row)) → Wraps (numbering_by (terms_of table.now)) whole choices joints.old.items
        (facts_in (name_in (objects_of objects.now)) state.old)
        → Wraps (numbering_by (terms_of table.now)) whole choices joints.new.items
        (facts_in (name_in (objects_of objects.now)) state.new)) }
    ensures objects { objects_in state.new ≡ objects_in state.old }
    ensures limits { (row_terms state.new.rows ≡ row_terms state.old.rows)
        × (state.new.rows.pivots ≡ state.old.rows.pivots) × (state.new.objects.count ≡ state.old.objects.count) }
    ensures refused { OnErr result ((name : ℕ → Sum) → facts_in name state.new ≡ facts_in name state.old) }
    ensures handed { KeepsHanded state.old state.new }
    ensures clash { IfOk result (λ clash. IfSome clash (λ p.
        Clashes (facts_in (name_in (objects_of objects.now)) state.new) (clash_of p))) }
    ensures stop { IfErr result (StopsBy (constants (rows_among (facts_in (name_in (objects_of objects.now)) state.old)))) }
{
    let Ok(joined) = state.joined(first.object, later.object) else {
        return Err(LinearStop::Memory);
    };
    let Some(tags) = joined else {
        unreachable!();
    };
    let Ok(row) = equal_row(alloc, first.term, later.term) else {
        return Err(LinearStop::Memory);
    };
    let joint = Joint {
        left: first.index as u64 + 1,
        right: later.index as u64 + 1,
        tags,
    };
    let Ok(()) = joints.push(joint) else {
        return Err(LinearStop::Memory);
    };
    state.take_row(&row)
}

/// The application at a place among the applications, where it is a length or a measure.
fn application_at(
    objects: &ObjectTable,
    table: &TermTable,
    index: usize,
    term: u64,
) -> Option<Application>
    requires place { slice_get (places_from 0 (terms_of table.now)) index ≡ Some term }
    requires arguments { HasAllArguments (objects_of objects.now) (terms_of table.now) }
    ensures is { IfSome result (IsApplication (objects_of objects.now) (terms_of table.now)) }
    ensures place { IfSome result (λ x. (x.index ≡ index) × (x.term ≡ term)) }
    ensures none { IfNone result ((m : Option Name) (a : Sum) → slice_get (terms_of table.now) term ≡ Some (applied m a) → ⊥) }
{
    match table.term(term) {
        Term::Length(object) => Some(Application {
            index,
            term,
            measure: None,
            object: objects.number(object),
        }),
        Term::Measure(name, object) => Some(Application {
            index,
            term,
            measure: Some(*name),
            object: objects.number(object),
        }),
        _ => None,
    }
}

/// The first application of a function to a class, which a later one is where there is none yet.
fn first_of(
    firsts: &mut IndexMap<FunctionAt, Application>,
    class: u64,
    later: Application,
) -> Result<Option<Application>, AllocError>
    ensures some { IfOk result (λ first. IfSome first (λ x. (objects terms : List Sum) (classes : List ℕ)
        → AreFirsts objects terms classes later.index firsts.old.entries → IsApplication objects terms x
        × (x.measure ≡ later.measure) × (slice_index classes x.object ≡ class) × (x.index < later.index))) }
    ensures firsts { OnOk result ((objects terms : List Sum) (classes : List ℕ) → class ≡ slice_index classes later.object
        → AreFirsts objects terms classes later.index firsts.old.entries → IsApplication objects terms later
        → AreFirsts objects terms classes (suc later.index) firsts.new.entries) }
    ensures found { IfOk result (λ first. first_at firsts.new.entries (record { measure = later.measure; class = class })
        ≡ Some (unwrap_or first later)) }
    ensures keeps { OnOk result (KeepsFirsts firsts.old.entries firsts.new.entries) }
{
    let function = FunctionAt {
        measure: later.measure,
        class,
    };
    let first = firsts.get(&function).copied();
    if first.is_none() {
        firsts.insert(function, later)?;
    }
    Ok(first)
}

/// Takes as the next fact that an application is equal to the first one of its function and class, where this isn't the first. A clash
/// with it is the answer.
fn equate_later(
    alloc: Global,
    state: &mut PathState,
    objects: &ObjectTable,
    table: &TermTable,
    classes: &[u64],
    later: Application,
    equations: &mut Equations,
) -> Result<Option<CaseProof>, LinearStop>
    requires distinct { IsTrue (all_differ (terms_of table.now)) }
    requires different { IsTrue (all_differ (objects_of objects.now)) }
    requires later { IsApplication (objects_of objects.now) (terms_of table.now) later }
    requires firsts { AreFirsts (objects_of objects.now) (terms_of table.now) classes.now later.index
        equations.old.firsts.entries }
    requires fits { later.index < 18446744073709551615 }
    requires count { state.old.objects.count ≡ length (objects_of objects.now) }
    requires terms { row_terms state.old.rows ≡ length (terms_of table.now) }
    requires each { length classes.now ≡ length (objects_of objects.now) }
    requires one { ClassesJoin (length (objects_of objects.now)) classes.now (objects_in state.old) }
    ensures firsts { OnOk result (AreFirsts (objects_of objects.now) (terms_of table.now) classes.now
        (suc later.index) equations.new.firsts.entries) }
    ensures equated { OnOk result (EachEquated (objects_of objects.now) (terms_of table.now) classes.now
        later.index equations.old.firsts.entries (facts_in (name_in (objects_of objects.now)) state.old)
        → EachEquated (objects_of objects.now) (terms_of table.now) classes.now (suc later.index)
        equations.new.firsts.entries (facts_in (name_in (objects_of objects.now)) state.new)) }
    ensures adds { OnOk result ((name : ℕ → Sum) → AddsEquations (terms_of table.now) (facts_in name state.old) (facts_in name state.new)) }
    ensures wraps { OnOk result ((whole : Path) (choices : List (Readings Row)) → Wraps (numbering_by (terms_of table.now)) whole choices
        equations.old.joints.items (facts_in (name_in (objects_of objects.now)) state.old)
        → Wraps (numbering_by (terms_of table.now)) whole choices equations.new.joints.items
        (facts_in (name_in (objects_of objects.now)) state.new)) }
    ensures objects { objects_in state.new ≡ objects_in state.old }
    ensures limits { (row_terms state.new.rows ≡ row_terms state.old.rows)
        × (state.new.rows.pivots ≡ state.old.rows.pivots) × (state.new.objects.count ≡ state.old.objects.count) }
    ensures refused { OnErr result ((name : ℕ → Sum) → facts_in name state.new ≡ facts_in name state.old) }
    ensures handed { KeepsHanded state.old state.new }
    ensures clash { IfOk result (λ clash. IfSome clash (λ p.
        Clashes (facts_in (name_in (objects_of objects.now)) state.new) (clash_of p))) }
    ensures stop { IfErr result (StopsBy (constants (rows_among (facts_in (name_in (objects_of objects.now)) state.old)))) }
{
    let class = classes[later.object as usize];
    match first_of(&mut equations.firsts, class, later) {
        Ok(Some(first)) => equate(
            alloc,
            state,
            objects,
            table,
            first,
            later,
            &mut equations.joints,
        ),
        Ok(None) => Ok(None),
        Err(AllocError) => Err(LinearStop::Memory),
    }
}

/// Takes as facts that lengths and measures of one object are equal, each later one to the first one, in the order of the table. The
/// answer is the nodes, and a clash on the way.
pub fn equate_all(
    alloc: Global,
    state: &mut PathState,
    objects: &ObjectTable,
    table: &TermTable,
) -> Result<(Vec<Joint>, Option<CaseProof>), LinearStop>
    requires arguments { HasAllArguments (objects_of objects.now) (terms_of table.now) }
    requires distinct { IsTrue (all_differ (terms_of table.now)) }
    requires different { IsTrue (all_differ (objects_of objects.now)) }
    requires count { state.old.objects.count ≡ length (objects_of objects.now) }
    requires terms { row_terms state.old.rows ≡ length (terms_of table.now) }
    ensures wraps { IfOk result (λ found. (whole : Path) (choices : List (Readings Row)) → Wraps (numbering_by (terms_of table.now)) whole choices []
        (facts_in (name_in (objects_of objects.now)) state.old)
        → Wraps (numbering_by (terms_of table.now)) whole choices found.0.items
        (facts_in (name_in (objects_of objects.now)) state.new)) }
    ensures adds { IfOk result (λ _. (name : ℕ → Sum) → AddsEquations (terms_of table.now) (facts_in name state.old) (facts_in name state.new)) }
    ensures equated { IfOk result (λ found. IfNone found.1 (AreEquated (objects_of objects.now)
        (terms_of table.now) (objects_in state.new) (facts_in (name_in (objects_of objects.now)) state.new))) }
    ensures objects { objects_in state.new ≡ objects_in state.old }
    ensures limits { (row_terms state.new.rows ≡ row_terms state.old.rows)
        × (state.new.rows.pivots ≡ state.old.rows.pivots) × (state.new.objects.count ≡ state.old.objects.count) }
    ensures refused { OnErr result ((name : ℕ → Sum) → Grows (facts_in name state.old) (facts_in name state.new)) }
    ensures handed { KeepsHanded state.old state.new }
    ensures clash { IfOk result (λ found. IfSome found.1 (λ p.
        Clashes (facts_in (name_in (objects_of objects.now)) state.new) (clash_of p))) }
    ensures stop { IfErr result (StopsBy (constants (rows_among (facts_in (name_in (objects_of objects.now)) state.old)))) }
{
    let Ok(classes) = state.classes().to_vec(alloc) else {
        return Err(LinearStop::Memory);
    };
    let Ok(places) = applications(alloc, table) else {
        return Err(LinearStop::Memory);
    };
    let mut equations = Equations {
        firsts: IndexMap::new(alloc),
        joints: Vec::new(alloc),
    };
    for index in 0..places.len() {
        if let Some(later) = application_at(objects, table, index, places[index]) {
            let clash = equate_later(
                alloc,
                state,
                objects,
                table,
                &classes,
                later,
                &mut equations,
            )?;
            if clash.is_some() {
                return Ok((equations.joints, clash));
            }
        }
    }
    Ok((equations.joints, None))
}
