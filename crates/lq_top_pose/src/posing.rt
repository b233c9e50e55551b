// What is to be solved for three texts.
ghost use Rattle.std.specs.Prelude.{◌≤◌, Ok, IfOk, IfErr, length};
ghost use Rattle.lq_text_front.specs.Bytes.Stages.{bytes_of};
ghost use Rattle.lq_text_front.specs.Bytes.Views.{IsBy, IsOf};
ghost use Rattle.lq_text_lexer.specs.declared.limits.TheConstants.{TEXT_LIMIT};
ghost use Rattle.lq_top_pose.specs.Stages.{problem_refusal, PosesTo, Typed};
ghost use Rattle.lq_top_pose.specs.Views.{IsPosedView};

use crate::typing::{TypedTexts, typed};
use lq_generate_problem::{Problem, ProblemError, pose};
use lq_text_front::bytes::{Refusing, bind};
use lq_text_refusal::Refused;
use std::alloc::Global;

/// Three texts with the program's types, and what is to be solved for them.
#[derive(Drop)]
pub struct PosedTexts {
    pub texts: TypedTexts,
    pub problem: Problem,
}

fn too_many(error: ProblemError) -> Refusing
    ensures { IsOf (problem_refusal error) result }
{
    match error {
        ProblemError::InstancesPast(count) => Refusing::Refused(Refused::Counted(15, count)),
        ProblemError::ImplicationsPast(count) => Refusing::Refused(Refused::Counted(16, count)),
        ProblemError::Memory => Refusing::Memory,
    }
}

/// What is to be solved for a program, measures and qualifiers, or the first reason to refuse them: codes 1 to 5 of each text in turn, 6 to
/// 11 of names, 12 to 14 of types, and 15 and 16 of limits.
pub fn pose_texts(
    alloc: Global,
    program: &[u8],
    measures: &[u8],
    qualifiers: &[u8],
) -> Result<PosedTexts, Refusing>
    requires program { length program.now ≤ TEXT_LIMIT }
    requires measures { length measures.now ≤ TEXT_LIMIT }
    requires qualifiers { length qualifiers.now ≤ TEXT_LIMIT }
    ensures posed { IfOk result (λ p. (t : Typed)
        × PosesTo (bytes_of program.now measures.now qualifiers.now) (Ok t) × IsPosedView p t) }
    ensures refused { IfErr result (λ e. IsBy (PosesTo (bytes_of program.now measures.now qualifiers.now)) e) }
{
    let bound = bind(alloc, program, measures, qualifiers)?;
    let texts = typed(alloc, bound)?;
    match pose(
        alloc,
        &texts.noted,
        &texts.normal,
        &texts.measures,
        &texts.qualifiers,
    ) {
        Ok(problem) => Ok(PosedTexts { texts, problem }),
        Err(error) => Err(too_many(error)),
    }
}
