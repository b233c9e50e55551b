// Where files come from.
ghost use Rattle.std.specs.Prelude.{◌≡◌, ◌<◌, ◌≤◌, ℕ, List, [], length, Option, Some, OnOk, OnErr, IsErrOf};
ghost use Rattle.lq_base_io.specs.Causes.{Rose};
ghost use Rattle.lq_base_io.specs.Folder.{Files, Answers};

use thiserror::Error;

/// Why a file didn't come.
#[derive(Clone, Copy, Debug, PartialEq, Eq, Error)]
pub enum FetchError {
    /// There is nothing under the name.
    #[error("no such file")]
    Absent,
    /// The folder failed.
    #[error("the file could not be read")]
    Failed,
    /// The file has more bytes than the caller takes.
    #[error("the file is too long")]
    TooLong,
    /// There is no memory for the bytes.
    #[error("out of memory")]
    Memory,
}

/// Where files come from by their names.
///
/// A folder in memory tells what it holds; one that reaches the files of a machine doesn't. The two
/// counts let a caller know that an answer has its cause: a u64 counter at its last value stays
/// there, so "rose" also holds of a count that stands at that value.
pub trait Folder {
    /// The bytes of each name, where the folder tells.
    ghost files: { Self → Option Files };

    /// How many names were absent.
    ghost absents: { Self → ℕ };

    /// How often the folder failed.
    ghost failures: { Self → ℕ };

    /// Puts the bytes of a file of at most `limit` bytes into an empty buffer.
    fn fetch(&mut self, name: &str, limit: usize, into: &mut Vec<u8>) -> Result<(), FetchError>
        requires { into.old.items ≡ [] }
        ensures bound { OnOk result (length into.new.items ≤ limit) }
        ensures refused { OnErr result (into.new.items ≡ []) }
        // Where the folder tells and didn't fail, the answer is the one for what it holds.
        ensures told { (held : Files) → files self.old ≡ Some held → failures self.new ≡ failures self.old
            → Answers (held name.now) limit into.new.items result }
        ensures absent { IsErrOf result FetchError.Absent → Rose (absents self.old) (absents self.new) }
        ensures failed { IsErrOf result FetchError.Failed → Rose (failures self.old) (failures self.new) }
        ensures fails { failures self.old < failures self.new → IsErrOf result FetchError.Failed }
        ensures absents { absents self.old ≤ absents self.new }
        ensures failures { failures self.old ≤ failures self.new }
        ensures same { files self.new ≡ files self.old };
}
