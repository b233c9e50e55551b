// The judgement on what is to be solved for three texts.
ghost use Rattle.std.specs.Prelude.{◌≡◌, ◌<◌, ◌≤◌, ◌^◌, ℕ, length, slice_get, IfOk, IfSome};
ghost use Rattle.lq_types_infer.specs.Annotation.Whole.{program_of};
ghost use Rattle.lq_refined_substitution.specs.Implications.Views.{implications_of};
ghost use Rattle.lq_top_answers.specs.Inferred.Lines.{types_text_of};
ghost use Rattle.lq_top_answers.specs.Inferred.Views.{inferred_in, AreThere};
ghost use Rattle.lq_meaning_normalize.specs.MadeNames.Numbers.{made_number};
ghost use Rattle.lq_meaning_normalize.specs.Normalize.Made.{normal_view};
ghost use Rattle.lq_refined_types.specs.Parts.Flowing.{IsStrongest};
ghost use Rattle.lq_refined_templates.specs.Programs.BlockView.{program_view};
ghost use Rattle.lq_top_pose.specs.Stages.{Typed};
ghost use Rattle.lq_top_pose.specs.Views.{IsPosedView};
ghost use Rattle.lq_logic_predicates.specs.PredView.{implication_of};
ghost use Rattle.lq_solve_fixpoint.specs.Questions.Assigned.{assignment_of, closed_under, constraints_of, instances_in};
ghost use Rattle.lq_refined_substitution.specs.Substitution.Views.{scopes_view};
ghost use Rattle.lq_solve_strongest.specs.Weaken.Gathering.{AreGathered};
ghost use Rattle.lq_solve_strongest.specs.Weaken.Stops.{StopsSolving};
ghost use Rattle.lq_solve_fixpoint.specs.Weakening.Chosen.{chosen_in};
ghost use Rattle.lq_solve_fixpoint.specs.Weakening.Solving.{HasNoSolution};
ghost use Rattle.lq_solve_fixpoint.specs.declared.weakening.error.SolveError.TheVariants.{At};
ghost use Rattle.lq_top_judge.specs.Verdict.Counting.{HasCounts};
ghost use Rattle.lq_top_judge.specs.Verdict.Judgement.{IsVerdictOn};
ghost use Rattle.lq_top_judge.specs.Verdict.Names.{parameters_in, written_by};
ghost use Rattle.lq_top_judge.specs.Verdict.Posed.{IsPosed, IsSolution};

use crate::verdict::counting::counts_of;
use crate::verdict::judgement::{Judged, Judgement};
use crate::verdict::naming::{calling_of, names_of, parameters_of};
use lq_base_names::TextBuf;
use lq_generate_problem::Problem;
use lq_logic_points::Point;
use lq_logic_predicates::{Closed, Stop};
use lq_refined_instances::Instances;
use lq_refined_substitution::implications::Implications;
use lq_solve_fixpoint::questions::closed_implication;
use lq_solve_fixpoint::weakening::{Chosen, SolveError, Solved};
use lq_solve_strongest::weaken::solve;
use lq_top_answers::failure::{explain_text, failure_text, ordinals, undecided_text};
use lq_top_answers::inferred::{assignment_of, types_text};
use lq_top_answers::type_text::Writing;
use lq_top_pose::{PosedTexts, TypedTexts};
use std::alloc::{AllocError, Global};

// ---- accepted

// The types of the program's definitions, the chosen instances in place of their unknowns.
fn types_under(
    alloc: Global,
    texts: &TypedTexts,
    problem: &mut Problem,
    chosen: &Chosen,
) -> Result<TextBuf, AllocError>
    requires few { length (program_of texts.now.noted.program.annotated).sources ≤ 2 ^ 31 }
    requires there { AreThere problem.old.types problem.old.templates.items }
    ensures { IfOk result (λ text. text ≡ types_text_of (inferred_in (scopes_view problem.old.scopes) problem.old.types
        problem.old.templates.items (assignment_of problem.old.instances chosen.now) (written_by texts.now.names
        (program_of texts.now.noted.program.annotated).sources
        (made_number (program_of texts.now.noted.program.annotated).sources (normal_view texts.now.normal).items)
        (parameters_in (program_of texts.now.noted.program.annotated).datatypes))) (program_view problem.old.program.items)) }
{
    let program = texts.noted.program().annotated().scoped();
    let names = names_of(alloc, texts)?;
    let parameters = parameters_of(alloc, program.datatypes())?;
    let writing = Writing {
        table: &texts.names,
        sources: &names.sources,
        made: &names.made,
        parameters: &parameters,
    };
    let assignment = assignment_of(alloc, &problem.instances, chosen)?;
    types_text(
        alloc,
        &problem.program,
        &problem.templates,
        &mut problem.types,
        &problem.scopes,
        &assignment,
        &writing,
    )
}

// The judgement where there is a strongest solution.
fn accepted(alloc: Global, posed: &mut PosedTexts, chosen: &Chosen) -> Result<Judgement, AllocError>
    requires posed { IsPosed posed.old }
    requires gathered { AreGathered (instances_in posed.old.problem.instances) (constraints_of posed.old.problem.implications) }
    requires strongest { IsStrongest (instances_in posed.old.problem.instances) (constraints_of posed.old.problem.implications)
        (chosen_in chosen.now) }
    ensures { IfOk result (λ j. (limit : ℕ) (t : Typed) → IsPosedView posed.old t → IsVerdictOn limit t j) }
{
    let text = types_under(alloc, &posed.texts, &mut posed.problem, chosen)?;
    Ok(Judgement::Accepted(text))
}

// ---- rejected, and undecided

// The implication of a number with the chosen instances in place of its unknowns.
fn closed_at(
    alloc: Global,
    implications: &Implications,
    at: u64,
    instances: &Instances,
    chosen: &Chosen,
) -> Result<Closed, AllocError>
    requires there { at < length (implications_of implications.now) }
    requires few { length (implications_of implications.now) ≤ 262144 }
    ensures { IfOk result (λ closed. IfSome (slice_get (constraints_of implications.now) at)
        (λ k. implication_of closed ≡ closed_under (assignment_of instances.now chosen.now) k)) }
{
    match closed_implication(alloc, implications, at as u32, instances, chosen)? {
        Some(closed) => Ok(closed),
        None => unreachable!(),
    }
}

// The judgement where a demand fails.
fn rejected(
    alloc: Global,
    posed: &PosedTexts,
    chosen: &Chosen,
    at: u64,
    point: &Point,
) -> Result<Judgement, AllocError>
    requires posed { IsPosed posed.now }
    requires few { length (implications_of posed.now.problem.implications) ≤ 262144 }
    requires gathered { AreGathered (instances_in posed.now.problem.instances) (constraints_of posed.now.problem.implications) }
    requires none { HasNoSolution (instances_in posed.now.problem.instances) (constraints_of posed.now.problem.implications)
        (chosen_in chosen.now) at point.now }
    ensures { IfOk result (λ j. (limit : ℕ) (t : Typed) → IsPosedView posed.now t → IsVerdictOn limit t j) }
{
    let names = names_of(alloc, &posed.texts)?;
    let ordinals = ordinals(alloc, &names.sources)?;
    let calling = calling_of(&posed.texts.names, &names, &ordinals);
    let implications = &posed.problem.implications;
    let closed = closed_at(alloc, implications, at, &posed.problem.instances, chosen)?;
    let failure = failure_text(alloc, &calling, implications, at, &closed, point)?;
    let explained = explain_text(alloc, &calling, implications, at, &closed, point)?;
    Ok(Judgement::Rejected(failure, explained))
}

// The judgement where an implication isn't decided.
fn undecided(
    alloc: Global,
    posed: &PosedTexts,
    at: u64,
    stop: &Stop,
) -> Result<Judgement, AllocError>
    requires posed { IsPosed posed.now }
    requires stops { (limit : ℕ) × StopsSolving limit (instances_in posed.now.problem.instances)
        (constraints_of posed.now.problem.implications) (At at stop.now) }
    ensures { IfOk result (λ j. (limit : ℕ) (t : Typed) → StopsSolving limit (instances_in posed.now.problem.instances)
        (constraints_of posed.now.problem.implications) (At at stop.now) → IsPosedView posed.now t → IsVerdictOn limit t j) }
{
    let names = names_of(alloc, &posed.texts)?;
    let ordinals = ordinals(alloc, &names.sources)?;
    let calling = calling_of(&posed.texts.names, &names, &ordinals);
    let cause = undecided_text(alloc, &calling, &posed.problem.implications, at, stop)?;
    Ok(Judgement::Undecided(cause))
}

// ---- the judgement

// The judgement by what solving gave.
fn judgement_by(
    alloc: Global,
    posed: &mut PosedTexts,
    solved: &Result<Solved, SolveError>,
) -> Result<Judgement, AllocError>
    requires posed { IsPosed posed.old }
    requires few { length (implications_of posed.old.problem.implications) ≤ 262144 }
    requires solved { (limit : ℕ) × IsSolution limit (instances_in posed.old.problem.instances)
        (constraints_of posed.old.problem.implications) solved.now }
    ensures { IfOk result (λ j. (limit : ℕ) (t : Typed) → IsSolution limit (instances_in posed.old.problem.instances)
        (constraints_of posed.old.problem.implications) solved.now → IsPosedView posed.old t → IsVerdictOn limit t j) }
{
    match solved {
        Ok(Solved::Strongest(chosen)) => accepted(alloc, posed, chosen),
        Ok(Solved::NoSolution(chosen, at, point)) => rejected(alloc, posed, chosen, *at, point),
        Err(SolveError::At(at, stop)) => undecided(alloc, posed, *at, stop),
        Err(SolveError::Memory) => Err(AllocError),
    }
}

/// The judgement on what was posed, and how much was solved for it. A check of the prover takes at most `limit` pivots. What was posed is used
/// up.
pub fn verdict_on(alloc: Global, mut posed: PosedTexts, limit: u64) -> Result<Judged, AllocError>
    requires { IsPosed posed }
    ensures { IfOk result (λ j. (t : Typed) → IsPosedView posed t → IsVerdictOn limit t j.judgement × HasCounts t j.counts) }
{
    let counts = counts_of(&posed.problem);
    let problem = &posed.problem;
    let solved = solve(alloc, &problem.implications, &problem.instances, limit);
    let judgement = judgement_by(alloc, &mut posed, &solved)?;
    Ok(Judged { counts, judgement })
}
