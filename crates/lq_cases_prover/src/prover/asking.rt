// Goals are asked one after another of hypotheses that stand.
ghost use Rattle.std.specs.Prelude.{◌≡◌, IfOk, OnOk};
ghost use Rattle.lq_prover_case.specs.Equations.Naming.{HasAllArguments, Keeps, objects_of};
ghost use Rattle.lq_prover_proof_tree.specs.Literals.Gathered.{CanBeGathered};
ghost use Rattle.lq_prover_proof_tree.specs.Literals.Parts.{objects_in};
ghost use Rattle.lq_logic_predicates.specs.ClosedImplication.{terms_in};
ghost use Rattle.lq_logic_predicates.specs.NnfView.{nnf_view};
ghost use Rattle.lq_logic_predicates.specs.PredView.{implication_of};
ghost use Rattle.lq_logic_predicates.specs.TableView.{terms_of};
ghost use Rattle.lq_prover_valid.specs.Standing.{IsStanding};
ghost use Rattle.lq_cases_prover.specs.Prover.Speaking.{AllWithin, SpeakOf};
ghost use Rattle.lq_prover_search.specs.Search.Scope.{IsWithin};
ghost use Rattle.lq_prover_search.specs.Search.SearchPath.{AreGiven, scope_of};

use lq_logic_predicates::{Closed, Nnf, TermTable, rows_say_what_comparisons_say};
use lq_logic_rows::LinearStop;
use lq_prover_case::equations::ObjectTable;
use lq_prover_proof_tree::literals::{flags, objects};
use lq_prover_proof_tree::trees::ProofTree;
use lq_prover_search::search::{Givens, all_pairs};
use lq_prover_valid::{Asked, Standing, object_table};
use std::alloc::{AllocError, Global};

/// A hypothesis clashes, as it is taken, with those that stand.
#[derive(Drop)]
pub(crate) struct Clash {
    /// How many hypotheses stand before it.
    pub(crate) before: usize,
    pub(crate) tree: ProofTree,
}

/// What came of the goals that were asked, in order.
#[derive(Drop)]
pub(crate) struct Answers {
    /// The tree of each goal that was proved, and none for one that is open.
    pub(crate) trees: Vec<Option<ProofTree>>,
    /// The stop after which no more were asked.
    pub(crate) stop: Option<LinearStop>,
}

/// What came of hypotheses and goals.
#[derive(Drop)]
pub(crate) enum Outcome {
    Clash(Clash),
    Answers(Answers),
}

/// The answer to a goal, and what stands then.
#[derive(Drop)]
struct Answered<'a> {
    tree: Option<ProofTree>,
    standing: Standing<'a>,
}

/// Lets hypotheses stand one after another, up to one that clashes.
fn assume_each<'a>(
    alloc: Global,
    standing: &mut Standing<'a>,
    hypotheses: &'a [Nnf],
) -> Result<Option<Clash>, LinearStop>
    requires standing { IsStanding standing.old }
    requires within { AllWithin (scope_of standing.old.givens) hypotheses.now }
    ensures standing { OnOk result (IsStanding standing.new) }
    ensures givens { OnOk result (standing.new.givens ≡ standing.old.givens) }
{
    for (before, hypothesis) in hypotheses.iter().enumerate() {
        if let Some(tree) = standing.assume(alloc, hypothesis)? {
            return Ok(Some(Clash { before, tree }));
        }
    }
    Ok(None)
}

/// Asks a goal by its negated reading. What stood stands again.
fn ask_goal<'a>(
    alloc: Global,
    standing: Standing<'a>,
    goal: &'a Nnf,
) -> Result<Answered<'a>, LinearStop>
    requires standing { IsStanding standing }
    requires within { IsWithin (scope_of standing.givens) (nnf_view goal.now) }
    ensures standing { IfOk result (λ answered. IsStanding answered.standing) }
    ensures givens { IfOk result (λ answered. answered.standing.givens ≡ standing.entry.givens) }
{
    match standing.ask(alloc, goal)? {
        Asked::Proved(tree, standing) => Ok(Answered {
            tree: Some(tree),
            standing,
        }),
        Asked::Open(ended) => Ok(Answered {
            tree: None,
            standing: ended.again(),
        }),
    }
}

/// Asks goals one after another, up to a stop.
fn ask_each<'a>(
    alloc: Global,
    mut standing: Standing<'a>,
    goals: &'a [Nnf],
) -> Result<Answers, AllocError>
    requires standing { IsStanding standing }
    requires within { AllWithin (scope_of standing.givens) goals.now }
{
    let mut trees = Vec::new(alloc);
    for goal in goals {
        match ask_goal(alloc, standing, goal) {
            Ok(answered) => {
                standing = answered.standing;
                trees.push(answered.tree)?;
            }
            Err(stop) => {
                return Ok(Answers {
                    trees,
                    stop: Some(stop),
                });
            }
        }
    }
    Ok(Answers { trees, stop: None })
}

/// Lets hypotheses stand, or tells what comes of them alone.
fn stand<'a>(
    alloc: Global,
    mut standing: Standing<'a>,
    hypotheses: &'a [Nnf],
) -> Result<Standing<'a>, Outcome>
    requires standing { IsStanding standing }
    requires within { AllWithin (scope_of standing.givens) hypotheses.now }
    ensures standing { IfOk result IsStanding }
    ensures givens { IfOk result (λ s. s.givens ≡ standing.entry.givens) }
{
    match assume_each(alloc, &mut standing, hypotheses) {
        Ok(None) => Ok(standing),
        Ok(Some(clash)) => Err(Outcome::Clash(clash)),
        Err(stop) => Err(Outcome::Answers(Answers {
            trees: Vec::new(alloc),
            stop: Some(stop),
        })),
    }
}

/// What comes of hypotheses and goals by their readings, where it is given what these speak of. A check makes at most `limit` pivots.
fn outcome_given<'a>(
    alloc: Global,
    givens: Givens<'a>,
    hypotheses: &'a [Nnf],
    goals: &'a [Nnf],
    limit: u64,
) -> Result<Outcome, AllocError>
    requires given { AreGiven (scope_of givens) givens.pairs.now }
    requires hypotheses { AllWithin (scope_of givens) hypotheses.now }
    requires goals { AllWithin (scope_of givens) goals.now }
{
    let standing = Standing::new(alloc, givens, limit)?;
    match stand(alloc, standing, hypotheses) {
        Ok(standing) => Ok(Outcome::Answers(ask_each(alloc, standing, goals)?)),
        Err(outcome) => Ok(outcome),
    }
}

/// The same, where it is given which objects the readings speak of.
fn outcome_with(
    alloc: Global,
    implication: &Closed,
    terms: &TermTable,
    objects: &ObjectTable,
    hypotheses: &[Nnf],
    goals: &[Nnf],
    limit: u64,
) -> Result<Outcome, AllocError>
    requires gathers { CanBeGathered (implication_of implication.now) }
    requires terms { terms_of terms.now ≡ terms_in (implication_of implication.now) }
    requires arguments { HasAllArguments (objects_of objects.now) (terms_of terms.now) }
    requires named { Keeps (objects_in (implication_of implication.now)) (objects_of objects.now) }
    requires hypotheses { SpeakOf (implication_of implication.now) hypotheses.now }
    requires goals { SpeakOf (implication_of implication.now) goals.now }
{
    rows_say_what_comparisons_say();
    let copied = implication.terms(alloc)?;
    let pairs = all_pairs(alloc, terms, copied)?;
    let flags = flags(alloc, implication)?;
    let givens = Givens {
        terms,
        objects,
        flags: &flags,
        pairs: &pairs,
    };
    outcome_given(alloc, givens, hypotheses, goals, limit)
}

/// What comes of hypotheses and goals by their readings, which speak of the terms, objects and flags of an implication.
pub(crate) fn outcome_of(
    alloc: Global,
    implication: &Closed,
    terms: &TermTable,
    hypotheses: &[Nnf],
    goals: &[Nnf],
    limit: u64,
) -> Result<Outcome, AllocError>
    requires gathers { CanBeGathered (implication_of implication.now) }
    requires terms { terms_of terms.now ≡ terms_in (implication_of implication.now) }
    requires hypotheses { SpeakOf (implication_of implication.now) hypotheses.now }
    requires goals { SpeakOf (implication_of implication.now) goals.now }
{
    let named = objects(alloc, implication)?;
    let objects = object_table(alloc, &named, terms)?;
    outcome_with(
        alloc,
        implication,
        terms,
        &objects,
        hypotheses,
        goals,
        limit,
    )
}
