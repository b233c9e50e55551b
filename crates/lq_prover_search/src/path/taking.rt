// Readings become facts and choices.
ghost use Rattle.std.specs.Prelude.{◌≡◌, List, [], ◌∷◌, ◌++◌, IfOk, IfNone, IfSome, IsNone, IsSome, OnOk, OnErr, length, map};
ghost use Rattle.lq_prover_case.specs.State.PathState.{KeepsHanded, facts_in};
ghost use Rattle.lq_prover_case.specs.State.RowState.{terms_of};
ghost use Rattle.lq_prover_proof_tree.specs.Trees.Path.{Fact, each_taken, taken};
ghost use Rattle.lq_prover_proof_tree.specs.Trees.Proves.{Clashes};
ghost use Rattle.lq_prover_proof_tree.specs.Trees.TreeView.{clash_of, tree_view};
ghost use Rattle.lq_logic_predicates.specs.NnfView.{nnf_view, nnfs_view};
ghost use Rattle.lq_logic_predicates.specs.Reading.{no};
ghost use Rattle.lq_logic_predicates.specs.Sum.{Sum};
ghost use Rattle.lq_logic_predicates.specs.TermView.{sum_of};
ghost use Rattle.lq_prover_search.specs.Path.Literals.{IsLiteralOver, fact_of};
ghost use Rattle.lq_prover_search.specs.Path.Readings.{AreOver, IsOver};
ghost use Rattle.lq_prover_search.specs.Path.SearchPath.{Begins, IsLeafOf, SameLimits, choices_of, name_in, path_by};
ghost use Rattle.lq_prover_search.specs.declared.path.choice.Choice.{Choice};

use crate::path::choice::Choice;
use crate::path::literal::Literal;
use crate::path::numbering::number_of;
use crate::pruning::clashes_stay;
use indexmap::IndexSet;
use lq_logic_predicates::{Nnf, Nnfs, Term};
use lq_logic_rows::LinearStop;
use lq_prover_case::state::PathState;
use lq_prover_proof_tree::trees::{CaseProof, ProofTree};
use std::alloc::AllocError;

/// Takes a literal as the next fact. A clash with it is the answer.
fn take_literal(
    state: &mut PathState,
    objects: &IndexSet<Term>,
    literal: &Literal<'_>,
) -> Result<Option<CaseProof>, LinearStop>
    requires over { IsLiteralOver (terms_of state.old.rows) (map sum_of objects.now.keys) literal.now }
    requires count { state.old.objects.count ≡ length objects.now.keys }
    ensures stands { OnOk result (facts_in (name_in (map sum_of objects.now.keys)) state.new
        ≡ facts_in (name_in (map sum_of objects.now.keys)) state.old ++ fact_of literal.now ∷ []) }
    ensures refused { OnErr result (facts_in (name_in (map sum_of objects.now.keys)) state.new
        ≡ facts_in (name_in (map sum_of objects.now.keys)) state.old) }
    ensures clash { IfOk result (λ clash. IfSome clash (λ c.
        Clashes (facts_in (name_in (map sum_of objects.now.keys)) state.new) (clash_of c))) }
    ensures limits { SameLimits state.new state.old }
    ensures handed { KeepsHanded state.old state.new }
{
    match literal {
        Literal::Row(row) => state.take_row(row),
        Literal::Flag(flag, value) => match state.take_flag(*flag, *value) {
            Ok(clash) => Ok(clash),
            Err(AllocError) => Err(LinearStop::Memory),
        },
        Literal::Same(left, right, one) => {
            let left = number_of(objects, left);
            let right = number_of(objects, right);
            match state.take_same(left, right, *one) {
                Ok(clash) => Ok(clash),
                Err(AllocError) => Err(LinearStop::Memory),
            }
        }
    }
}

/// The tree of a fact that never holds, which is the next one.
fn never(state: &PathState) -> Result<Option<ProofTree>, LinearStop>
    ensures leaf { IfOk result (λ found. IfSome found (λ t. (objects : List Sum) (choices : List Choice)
        → IsLeafOf (taken (path_by objects state.now choices) no) (tree_view t))) }
    ensures some { IfOk result IsSome }
{
    match state.mark().0.checked_add(1) {
        Some(number) => Ok(Some(ProofTree::False(number))),
        None => Err(LinearStop::Memory),
    }
}

/// Takes a reading: literals become facts, and readings of which one is to hold a choice. What clashes on the way is the answer, and
/// some of the reading may then not stand on the path.
#[cycle(take)]
pub fn take<'a>(
    state: &mut PathState,
    choices: &mut Vec<Choice<'a>>,
    objects: &IndexSet<Term>,
    reading: &'a Nnf,
) -> Result<Option<ProofTree>, LinearStop>
    requires over { IsOver (terms_of state.old.rows) (map sum_of objects.now.keys) (nnf_view reading.now) }
    requires count { state.old.objects.count ≡ length objects.now.keys }
    ensures stands { IfOk result (λ found. IfNone found
        (path_by (map sum_of objects.now.keys) state.new choices.new.items
        ≡ taken (path_by (map sum_of objects.now.keys) state.old choices.old.items) (nnf_view reading.now))) }
    ensures leaf { IfOk result (λ found. IfSome found (λ t. IsLeafOf
        (taken (path_by (map sum_of objects.now.keys) state.old choices.old.items) (nnf_view reading.now))
        (tree_view t))) }
    ensures begins { Begins (path_by (map sum_of objects.now.keys) state.old choices.old.items)
        (path_by (map sum_of objects.now.keys) state.new choices.new.items) }
    ensures limits { SameLimits state.new state.old }
    ensures handed { KeepsHanded state.old state.new }
{
    clashes_stay();
    let literal = match reading {
        Nnf::Yes => return Ok(None),
        Nnf::No => return never(state),
        Nnf::All(all) => return take_all(state, choices, objects, all),
        Nnf::Any(members) => return add_choice(choices, members),
        Nnf::Row(row) => Literal::Row(row),
        Nnf::Flag(flag, value) => Literal::Flag(*flag, *value),
        Nnf::Same(left, right, one) => Literal::Same(left, right, *one),
    };
    match take_literal(state, objects, &literal)? {
        Some(clash) => Ok(Some(ProofTree::Leaf(clash))),
        None => Ok(None),
    }
}

/// Takes readings in order, up to the first clash.
#[cycle(take)]
fn take_all<'a>(
    state: &mut PathState,
    choices: &mut Vec<Choice<'a>>,
    objects: &IndexSet<Term>,
    readings: &'a Nnfs,
) -> Result<Option<ProofTree>, LinearStop>
    requires over { AreOver (terms_of state.old.rows) (map sum_of objects.now.keys) (nnfs_view readings.now) }
    requires count { state.old.objects.count ≡ length objects.now.keys }
    ensures stands { IfOk result (λ found. IfNone found
        (path_by (map sum_of objects.now.keys) state.new choices.new.items
        ≡ each_taken (path_by (map sum_of objects.now.keys) state.old choices.old.items) (nnfs_view readings.now))) }
    ensures leaf { IfOk result (λ found. IfSome found (λ t. IsLeafOf
        (each_taken (path_by (map sum_of objects.now.keys) state.old choices.old.items) (nnfs_view readings.now))
        (tree_view t))) }
    ensures begins { Begins (path_by (map sum_of objects.now.keys) state.old choices.old.items)
        (path_by (map sum_of objects.now.keys) state.new choices.new.items) }
    ensures limits { SameLimits state.new state.old }
    ensures handed { KeepsHanded state.old state.new }
{
    clashes_stay();
    for reading in readings.as_slice() {
        if let Some(leaf) = take(state, choices, objects, reading)? {
            return Ok(Some(leaf));
        }
    }
    Ok(None)
}

/// Lets readings be the next choice.
fn add_choice<'a>(
    choices: &mut Vec<Choice<'a>>,
    members: &'a Nnfs,
) -> Result<Option<ProofTree>, LinearStop>
    ensures none { IfOk result IsNone }
    ensures ok { OnOk result (choices_of choices.new.items ≡ choices_of choices.old.items ++ nnfs_view members.now ∷ []) }
    ensures begins { (facts : List Fact) → Begins (record { facts = facts; choices = choices_of choices.old.items })
        (record { facts = facts; choices = choices_of choices.new.items }) }
{
    let choice = Choice {
        members,
        is_done: false,
    };
    match choices.push(choice) {
        Ok(()) => Ok(None),
        Err(_) => Err(LinearStop::Memory),
    }
}
