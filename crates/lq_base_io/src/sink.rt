// Where bytes go.
ghost use Rattle.std.specs.Prelude.{◌≡◌, ◌<◌, ◌≤◌, ℕ, List, length, Option, OnErr, IfOk};
ghost use Rattle.lq_base_io.specs.Causes.{Rose};
ghost use Rattle.lq_base_io.specs.Sink.{TakesFront};

use thiserror::Error;

/// The sink failed.
#[derive(Clone, Copy, Debug, PartialEq, Eq, Error)]
#[error("the output could not be written")]
pub struct SinkFailed;

/// Where bytes go.
///
/// A sink in memory tells what it has taken; one that reaches a stream of a machine doesn't.
pub trait Sink {
    /// The bytes taken so far, where the sink tells.
    ghost taken: { Self → Option (List ℕ) };

    /// How often the sink failed.
    ghost faults: { Self → ℕ };

    /// Takes some bytes from the front of the piece, at least one where it has one, and says how many.
    fn write(&mut self, piece: &[u8]) -> Result<usize, SinkFailed>
        ensures bound { IfOk result (λ n. n ≤ length piece.now) }
        ensures some { 0 < length piece.now → IfOk result (λ n. 0 < n) }
        ensures takes { TakesFront (taken self.old) piece.now (taken self.new) result }
        ensures fault { OnErr result (Rose (faults self.old) (faults self.new)) }
        ensures faults { faults self.old ≤ faults self.new };
}
