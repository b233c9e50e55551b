// What is due, status and report.
ghost use Rattle.std.specs.Prelude.{◌≡◌, ◌≤◌, ℕ, List, Some, IfOk};
ghost use Rattle.lq_top_words.specs.Command.Command.{sample, usage_line};
ghost use Rattle.lq_top_words.specs.Inputs.Visits.{visit};
ghost use Rattle.lq_top_app.specs.Asked.{request_by};
ghost use Rattle.lq_top_app.specs.Causes.{IsSafeFor, IsSafeHere};
ghost use Rattle.lq_top_app.specs.Report.{IsDue, IsDueFor};

use crate::verdict::{Answer, sample_verdict, verdict_on, with_report};
use crate::{Status, Words};
use lq_base_io::Folder;
use lq_base_names::TextBuf;
use lq_top_words::command::{Command, Judge};
use lq_top_words::inputs::{NotFetched, fetch_inputs};
use std::alloc::{AllocError, Global};

// The line on words that are no command.
fn usage_report(alloc: Global) -> Result<TextBuf, AllocError>
    ensures { IfOk result (λ r. r ≡ usage_line) }
{
    let line = Vec::from_slice(
        alloc,
        b"usage: lq MODE SUBJECT [--quals FILE] [--measures FILE] [--pivots N]\n",
    )?;
    Ok(TextBuf::from_bytes(line))
}

// What is due for files to judge.
fn answer_on_files<F: Folder>(
    alloc: Global,
    files: &Judge<'_>,
    folder: &mut F,
) -> Result<Answer, AllocError>
    ensures due { let v = visit F.files F.absents F.failures folder.old folder.new in
        IfOk result (λ r. IsDueFor (Some (request_by files.now)) v r.status r.report) }
    ensures safe { let v = visit F.files F.absents F.failures folder.old folder.new in
        IfOk result (λ r. r.status ≡ Status.Good → IsSafeFor (request_by files.now) v) }
{
    match fetch_inputs(alloc, files, folder) {
        Ok(texts) => verdict_on(alloc, files, &texts.program, &texts.measures, &texts.quals),
        Err(NotFetched::File(line)) => Ok(with_report(Status::File, line)),
        Err(NotFetched::Memory) => Err(AllocError),
    }
}

// What is due for these words.
pub(crate) fn answer_to<F: Folder>(
    alloc: Global,
    words: &Words,
    folder: &mut F,
) -> Result<Answer, AllocError>
    ensures due { let v = visit F.files F.absents F.failures folder.old folder.new in
        IfOk result (λ r. IsDue words.now v r.status r.report) }
    ensures safe { let v = visit F.files F.absents F.failures folder.old folder.new in
        IfOk result (λ r. r.status ≡ Status.Good → IsSafeHere words.now v) }
{
    match words.command(alloc)? {
        Some(Command::Judge(files)) => answer_on_files(alloc, &files, folder),
        Some(Command::Sample { count, pivots }) => sample_verdict(alloc, count, pivots),
        None => Ok(with_report(Status::Usage, usage_report(alloc)?)),
    }
}
