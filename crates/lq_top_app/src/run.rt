// The top call.
ghost use Rattle.std.specs.Prelude.{◌≡◌, ◌<◌, List, ℕ, None};
ghost use Rattle.lq_base_io.specs.Causes.{Rose};
ghost use Rattle.lq_top_words.specs.Command.Command.{command_of};
ghost use Rattle.lq_top_words.specs.Inputs.Visits.{visit};
ghost use Rattle.lq_top_app.specs.Causes.{IsDecidedHere, IsFileHere, IsRefusedHere, IsRejectedHere, IsSafeHere, IsUndecidedHere};
ghost use Rattle.lq_top_app.specs.Ends.{Ends};
ghost use Rattle.lq_top_app.specs.Once.{IsExact, IsOrFault};
ghost use Rattle.lq_top_app.specs.Report.{IsDue};

use crate::answer::answer_to;
use crate::laws::one_report;
use crate::send::send;
use crate::{Status, Words};
use lq_base_io::{Folder, Sink};
use lq_top_judge::judgement::small_are_decided;
use std::alloc::Global;

/// Does all that the program does: fetches the files that the words name, judges their texts, and writes the report. No byte goes out before
/// all of the report stands in memory, and sending it allocates nothing.
///
/// The folder and the sink may tell nothing of what they hold and take, as those of a machine do; the
/// clauses then say what can be said by their counts.
pub fn run_words<F: Folder, K: Sink>(
    alloc: Global,
    words: &Words,
    folder: &mut F,
    out: &mut K,
) -> Status
    // The whole report that is due was written, but for a fault of the sink or want of memory.
    ensures report { let v = visit F.files F.absents F.failures folder.old folder.new in
        Ends (IsDue words.now v) (K.taken out.old) (K.taken out.new) result }
    // Each status has its cause.
    ensures usage { result ≡ Status.Usage → command_of words.now ≡ None }
    ensures file { let v = visit F.files F.absents F.failures folder.old folder.new in
        result ≡ Status.File → (line : List ℕ) × IsFileHere words.now v line }
    ensures refused { let v = visit F.files F.absents F.failures folder.old folder.new in
        result ≡ Status.Refused → IsRefusedHere words.now v }
    ensures rejected { let v = visit F.files F.absents F.failures folder.old folder.new in
        result ≡ Status.Rejected → IsRejectedHere words.now v }
    ensures undecided { let v = visit F.files F.absents F.failures folder.old folder.new in
        result ≡ Status.Undecided → IsUndecidedHere words.now v }
    // Where all implications are of differences and small, the prover didn't stop.
    ensures decided { let v = visit F.files F.absents F.failures folder.old folder.new in
        result ≡ Status.Undecided → IsDecidedHere words.now v }
    ensures sink { result ≡ Status.SinkFault → Rose (K.faults out.old) (K.faults out.new) }
    ensures memory { result ≡ Status.Memory → K.taken out.new ≡ K.taken out.old }
    // Only a fault of the sink or want of memory comes in place of the usage line for other words than a command, of a fault of a file where
    // the folder failed, and of whatever is due where no file is wanted or the folder tells. There also a stop of the prover may come in its
    // place, or in place of it what is due without it.
    ensures only_usage { command_of words.now ≡ None → IsOrFault Status.Usage result }
    ensures only_file { F.failures folder.old < F.failures folder.new → IsOrFault Status.File result }
    ensures exact { IsExact words.now (visit F.files F.absents F.failures folder.old folder.new) result }
    // What is accepted is safe.
    ensures safe { let v = visit F.files F.absents F.failures folder.old folder.new in
        result ≡ Status.Good → IsSafeHere words.now v }
{
    one_report();
    small_are_decided();
    run(alloc, words, folder, out)
}

// What is due is written.
fn run<F: Folder, K: Sink>(alloc: Global, words: &Words, folder: &mut F, out: &mut K) -> Status
    ensures report { let v = visit F.files F.absents F.failures folder.old folder.new in
        Ends (IsDue words.now v) (K.taken out.old) (K.taken out.new) result }
    ensures sink { result ≡ Status.SinkFault → Rose (K.faults out.old) (K.faults out.new) }
    ensures safe { let v = visit F.files F.absents F.failures folder.old folder.new in
        result ≡ Status.Good → IsSafeHere words.now v }
{
    let Ok(answer) = answer_to(alloc, words, folder) else {
        return Status::Memory;
    };
    match send(out, answer.report.as_bytes()) {
        Ok(()) => answer.status,
        Err(_) => Status::SinkFault,
    }
}
