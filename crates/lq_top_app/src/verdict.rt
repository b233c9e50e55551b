// The answers to judgements.
ghost use Rattle.std.specs.Prelude.{◌≡◌, ◌++◌, ◌≤◌, List, [], ℕ, length, Ok, Err, IfOk};
ghost use Rattle.lq_text_front.specs.Bytes.Stages.{Bytes, bytes_of};
ghost use Rattle.lq_top_words.specs.Command.Command.{sample};
ghost use Rattle.lq_top_words.specs.declared.inputs.inputs.TheConstants.{FILE_LIMIT};
ghost use Rattle.lq_top_words.specs.Sample.Sample.{counts_text};
ghost use Rattle.lq_top_judge.specs.Judgement.Safety.{IsSafelyAccepted};
ghost use Rattle.lq_top_app.specs.Asked.{request_by, sample_texts};
ghost use Rattle.lq_top_app.specs.Report.{IsLine, IsVerdict, accepted_text, printed, status_of};
ghost use Rattle.lq_top_words.specs.declared.command.command.Mode.TheVariants.{Check};

use crate::Status;
use lq_base_names::TextBuf;
use lq_top_judge::judgement::{judge, judge_counted};
use lq_top_judge::verdict::{Judged, Judgement, Refusal};
use lq_top_words::command::{Judge, Mode};
use lq_top_words::sample::{push_counts, sample_program, sample_qualifiers};
use std::alloc::{AllocError, Global};

// A status, and the whole report that goes with it.
#[derive(Drop)]
pub(crate) struct Answer {
    pub(crate) status: Status,
    pub(crate) report: TextBuf,
}

pub(crate) fn with_report(status: Status, report: TextBuf) -> Answer
    ensures status { result.status ≡ status }
    ensures report { result.report ≡ report }
{
    Answer { status, report }
}

// What is printed of an accepted program with these types.
fn accepted_report(alloc: Global, mode: Mode, types: TextBuf) -> Result<TextBuf, AllocError>
    ensures { IfOk result (λ r. r ≡ accepted_text mode types) }
{
    match mode {
        Mode::Types => Ok(types),
        Mode::Check | Mode::Explain => {
            let line = Vec::from_slice(alloc, b"accepted\n")?;
            Ok(TextBuf::from_bytes(line))
        }
    }
}

// The answer to a judgement.
fn answer_of(alloc: Global, mode: Mode, judgement: Judgement) -> Result<Answer, AllocError>
    ensures status { IfOk result (λ r. r.status ≡ status_of (Ok judgement)) }
    ensures report { IfOk result (λ r. r.report ≡ printed mode judgement) }
{
    match judgement {
        Judgement::Accepted(types) => {
            let report = accepted_report(alloc, mode, types)?;
            Ok(with_report(Status::Good, report))
        }
        Judgement::Rejected(failure, explained) => {
            let report = match mode {
                Mode::Explain => explained,
                Mode::Check | Mode::Types => failure,
            };
            Ok(with_report(Status::Rejected, report))
        }
        Judgement::Undecided(cause) => Ok(with_report(Status::Undecided, cause)),
    }
}

// The answer to a refusal.
fn refused(refusal: Refusal) -> Result<Answer, AllocError>
    ensures status { IfOk result (λ r. r.status ≡ status_of (Err refusal)) }
    ensures report { IfOk result (λ r. IsLine refusal r.report) }
{
    match refusal {
        Refusal::Code(_, line) => Ok(with_report(Status::Refused, line)),
        Refusal::Memory => Err(AllocError),
    }
}

// The verdict on the texts of a command.
pub(crate) fn verdict_on(
    alloc: Global,
    files: &Judge<'_>,
    program: &[u8],
    measures: &[u8],
    quals: &[u8],
) -> Result<Answer, AllocError>
    requires program { length program.now ≤ FILE_LIMIT }
    requires measures { length measures.now ≤ FILE_LIMIT }
    requires quals { length quals.now ≤ FILE_LIMIT }
    ensures verdict { let b = bytes_of program.now measures.now quals.now in
        IfOk result (λ r. IsVerdict (request_by files.now) b r.status r.report) }
    ensures safe { let b = bytes_of program.now measures.now quals.now in
        IfOk result (λ r. r.status ≡ Status.Good → (types : List ℕ) × IsSafelyAccepted b types) }
{
    match judge(alloc, program, measures, quals, files.pivots) {
        Ok(judgement) => answer_of(alloc, files.mode, judgement),
        Err(refusal) => refused(refusal),
    }
}

// The answer to a judgement, with the counts in front.
fn counted(alloc: Global, count: u32, judged: Judged) -> Result<Answer, AllocError>
    ensures status { IfOk result (λ r. r.status ≡ status_of (Ok judged.judgement)) }
    ensures report { let c = judged.counts in
        IfOk result (λ r. r.report ≡ counts_text count c.unknowns c.instances c.implications ++ printed Check judged.judgement) }
{
    let counts = judged.counts;
    let verdict = answer_of(alloc, Mode::Check, judged.judgement)?;
    let mut text = Vec::new(alloc);
    push_counts(
        &mut text,
        count as u64,
        counts.unknowns,
        counts.instances,
        counts.implications,
    )?;
    text.extend_from_slice(verdict.report.as_bytes())?;
    Ok(with_report(verdict.status, TextBuf::from_bytes(text)))
}

// The verdict on a sample program of so many functions.
pub(crate) fn sample_verdict(alloc: Global, count: u32, pivots: u64) -> Result<Answer, AllocError>
    requires { count ≤ 2000 }
    ensures verdict { IfOk result (λ r. IsVerdict (sample count pivots) (sample_texts count) r.status r.report) }
    ensures safe { IfOk result (λ r. r.status ≡ Status.Good
        → (types : List ℕ) × IsSafelyAccepted (sample_texts count) types) }
{
    let program = sample_program(alloc, count)?;
    match judge_counted(alloc, &program, &[], sample_qualifiers(), pivots) {
        Ok(judged) => counted(alloc, count, judged),
        Err(refusal) => refused(refusal),
    }
}
