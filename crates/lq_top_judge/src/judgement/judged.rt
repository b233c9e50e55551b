// The judgement on three texts.
ghost use Rattle.std.specs.Prelude.{◌≤◌, ℕ, Ok, IfOk, IfErr, length};
ghost use Rattle.lq_text_front.specs.Bytes.Stages.{bytes_of, Bytes};
ghost use Rattle.lq_text_front.specs.Bytes.Views.{IsBy};
ghost use Rattle.lq_text_lexer.specs.declared.limits.TheConstants.{TEXT_LIMIT};
ghost use Rattle.lq_top_pose.specs.Stages.{PosesTo};
ghost use Rattle.lq_top_judge.specs.Judgement.Answers.{IsDecided, IsExact, IsJudged, IsRefusal, IsSafe};
ghost use Rattle.lq_top_judge.specs.Verdict.Judgement.{IsJudgement};

use crate::judgement::laws::{accepted_are_safe, one_judgement, small_are_decided};
use crate::verdict::{Judged, Judgement, Refusal, verdict_on};
use lq_text_front::bytes::Refusing;
use lq_text_refusal::refusal_text;
use lq_top_pose::pose_texts;
use std::alloc::Global;

// How texts are refused.
fn refusal_of(alloc: Global, refusing: Refusing) -> Refusal
    ensures { (limit : ℕ) (b : Bytes) → IsBy (PosesTo b) refusing → IsRefusal limit b result }
{
    match refusing {
        Refusing::Refused(refused) => match refusal_text(alloc, &refused) {
            Ok(line) => Refusal::Code(refused.code(), line),
            Err(_) => Refusal::Memory,
        },
        Refusing::Memory => Refusal::Memory,
    }
}

/// The judgement on a program with its measures and qualifiers, each a text of at most TEXT_LIMIT bytes, and how much was solved for it. A check
/// of the prover takes at most `limit` pivots.
pub fn judge_counted(
    alloc: Global,
    program: &[u8],
    measures: &[u8],
    quals: &[u8],
    limit: u64,
) -> Result<Judged, Refusal>
    requires program { length program.now ≤ TEXT_LIMIT }
    requires measures { length measures.now ≤ TEXT_LIMIT }
    requires quals { length quals.now ≤ TEXT_LIMIT }
    ensures judged { IfOk result (IsJudged limit (bytes_of program.now measures.now quals.now)) }
    ensures refused { IfErr result (IsRefusal limit (bytes_of program.now measures.now quals.now)) }
    ensures safe { IfOk result (λ j. IsSafe (bytes_of program.now measures.now quals.now) j.judgement) }
{
    accepted_are_safe();
    let posed = match pose_texts(alloc, program, measures, quals) {
        Ok(posed) => posed,
        Err(refusing) => return Err(refusal_of(alloc, refusing)),
    };
    let judged = verdict_on(alloc, posed, limit)?;
    Ok(judged)
}

/// The judgement on a program with its measures and qualifiers, each a text of at most TEXT_LIMIT bytes. A check of the prover takes at most
/// `limit` pivots.
pub fn judge(
    alloc: Global,
    program: &[u8],
    measures: &[u8],
    quals: &[u8],
    limit: u64,
) -> Result<Judgement, Refusal>
    requires program { length program.now ≤ TEXT_LIMIT }
    requires measures { length measures.now ≤ TEXT_LIMIT }
    requires quals { length quals.now ≤ TEXT_LIMIT }
    ensures judged { IfOk result (λ j. IsJudgement limit (bytes_of program.now measures.now quals.now) (Ok j)) }
    ensures refused { IfErr result (IsRefusal limit (bytes_of program.now measures.now quals.now)) }
    ensures safe { IfOk result (IsSafe (bytes_of program.now measures.now quals.now)) }
    ensures decided { IfOk result (IsDecided limit (bytes_of program.now measures.now quals.now)) }
    ensures exact { IsExact limit (bytes_of program.now measures.now quals.now) result }
{
    one_judgement();
    small_are_decided();
    let judged = judge_counted(alloc, program, measures, quals, limit)?;
    Ok(judged.judgement)
}
