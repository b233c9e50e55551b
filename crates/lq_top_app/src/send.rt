// A report that is written piece by piece.
ghost use Rattle.std.specs.Prelude.{◌≡◌, List, ℕ, ◌++◌, OnOk, OnErr};
ghost use Rattle.lq_base_io.specs.Causes.{Rose};
ghost use Rattle.lq_base_io.specs.Sink.{with_more};

use lq_base_io::{Sink, SinkFailed};

// Writes the whole report, or the front of it up to a fault.
pub(crate) fn send<K: Sink>(out: &mut K, report: &[u8]) -> Result<(), SinkFailed>
    ensures ok { OnOk result (K.taken out.new ≡ with_more report.now (K.taken out.old)) }
    ensures err { OnErr result ((sent rest : List ℕ) × (report.now ≡ sent ++ rest)
        × (K.taken out.new ≡ with_more sent (K.taken out.old))) }
    ensures fault { OnErr result (Rose (K.faults out.old) (K.faults out.new)) }
{
    let mut rest = report;
    while !rest.is_empty() {
        let count = out.write(rest)?;
        let (_, unsent) = rest.split_at(count);
        rest = unsent;
    }
    Ok(())
}
