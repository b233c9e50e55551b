// A folder and a sink in memory, with lists of the calls that are to fail.
ghost use Rattle.std.specs.Prelude.{◌≡◌, ◌≢◌, ◌⊎◌, ◌+◌, ◌<◌, ◌≤◌, true, false, List, ℕ, [], length, min, Some, IfOk, OnOk, OnErr, IsErr, IsErrOf};
ghost use Rattle.lq_base_io.specs.Causes.{Rose, listed_before, is_listed, next_call};
ghost use Rattle.lq_base_io.specs.Folder.{Files, Answers};
ghost use Rattle.lq_base_io.specs.Held.{held_in};
ghost use Rattle.lq_base_io.specs.Sink.{TakesFront};

use crate::{FetchError, Folder, Sink, SinkFailed};
use std::collections::BTreeMap;

/// A folder in memory, for tests. The calls of `fetch` whose numbers are in the list fail, the first
/// call being number 0.
///
/// `failures` is the number of listed calls that have come.
#[derive(Drop)]
pub struct MemFolder {
    files: BTreeMap<String, Vec<u8>>,
    failing: Vec<u64>,
    calls: u64,
    absents: u64,
}

impl MemFolder {
    ghost use Rattle.lq_base_io.specs.Fakes.{fetches, failing_fetches};

    /// A folder of these files, to which no call has come.
    pub fn new(files: BTreeMap<String, Vec<u8>>, failing: Vec<u64>) -> Self
        ensures holds { ⟦<MemFolder as Folder>⟧.files result ≡ Some (held_in files) }
        ensures absents { ⟦<MemFolder as Folder>⟧.absents result ≡ 0 }
        ensures failures { ⟦<MemFolder as Folder>⟧.failures result ≡ 0 }
        ensures calls { fetches result ≡ 0 }
        ensures failing { failing_fetches result ≡ failing.items }
    {
        MemFolder {
            files,
            failing,
            calls: 0,
            absents: 0,
        }
    }

    /// The files by their names.
    pub fn files(&self) -> &BTreeMap<String, Vec<u8>>
        ensures { Some (held_in result.now) ≡ ⟦<MemFolder as Folder>⟧.files self.now }
    {
        &self.files
    }

    /// The numbers of the calls that are to fail. No more than these ever fail.
    pub fn failing(&self) -> &[u64]
        ensures failures { ⟦<MemFolder as Folder>⟧.failures self.now ≤ length result.now }
        ensures failing { result.now ≡ failing_fetches self.now }
    {
        &self.failing
    }

    /// How many calls have come, which is the number of the next one.
    pub fn calls(&self) -> u64
        ensures { result ≡ fetches self.now }
    {
        self.calls
    }
}

// Copies bytes of which there are at most `limit`.
pub(crate) fn copy_within(
    bytes: &Vec<u8>,
    limit: usize,
    into: &mut Vec<u8>,
) -> Result<(), FetchError>
    requires { into.old.items ≡ [] }
    ensures answer { Answers (Some bytes.now.items) limit into.new.items result }
    ensures bound { OnOk result (length into.new.items ≤ limit) }
    ensures refused { OnErr result (into.new.items ≡ []) }
    ensures not_absent { result ≢ Err FetchError.Absent }
    ensures not_failed { result ≢ Err FetchError.Failed }
{
    if bytes.len() > limit {
        return Err(FetchError::TooLong);
    }
    match into.extend_from_slice(bytes) {
        Ok(()) => Ok(()),
        Err(_) => Err(FetchError::Memory),
    }
}

// Counts a call, and says whether it is listed. The last value of the counter is no call's number.
fn count_call(calls: &mut u64, listed: &[u64]) -> bool
    ensures is_listed { result ≡ is_listed calls.old listed.now }
    ensures next { calls.new ≡ next_call calls.old }
    ensures listed { result ≡ true → listed_before calls.old listed.now < listed_before calls.new listed.now }
    ensures other { result ≡ false → listed_before calls.new listed.now ≡ listed_before calls.old listed.now }
{
    let call = *calls;
    if call == u64::MAX {
        return false;
    }
    *calls = call + 1;
    listed.contains(&call)
}

impl Folder for MemFolder {
    ghost use Rattle.lq_base_io.specs.Fakes.{fetches, failing_fetches};

    ghost files = { λ s. Some (held_in s.files) };

    ghost absents = { λ s. s.absents };

    ghost failures = { λ s. listed_before s.calls s.failing.items };

    fn fetch(&mut self, name: &str, limit: usize, into: &mut Vec<u8>) -> Result<(), FetchError>
        requires { into.old.items ≡ [] }
        ensures bound { OnOk result (length into.new.items ≤ limit) }
        ensures refused { OnErr result (into.new.items ≡ []) }
        ensures told { (held : Files) → ⟦<MemFolder as Folder>⟧.files self.old ≡ Some held
            → ⟦<MemFolder as Folder>⟧.failures self.new ≡ ⟦<MemFolder as Folder>⟧.failures self.old
            → Answers (held name.now) limit into.new.items result }
        ensures absent { IsErrOf result FetchError.Absent
            → Rose (⟦<MemFolder as Folder>⟧.absents self.old) (⟦<MemFolder as Folder>⟧.absents self.new) }
        ensures failed { IsErrOf result FetchError.Failed
            → Rose (⟦<MemFolder as Folder>⟧.failures self.old) (⟦<MemFolder as Folder>⟧.failures self.new) }
        ensures fails { ⟦<MemFolder as Folder>⟧.failures self.old < ⟦<MemFolder as Folder>⟧.failures self.new
            → IsErrOf result FetchError.Failed }
        ensures absents { ⟦<MemFolder as Folder>⟧.absents self.old
            ≤ ⟦<MemFolder as Folder>⟧.absents self.new }
        ensures failures { ⟦<MemFolder as Folder>⟧.failures self.old
            ≤ ⟦<MemFolder as Folder>⟧.failures self.new }
        ensures same { ⟦<MemFolder as Folder>⟧.files self.new ≡ ⟦<MemFolder as Folder>⟧.files self.old }
        // It fails at the listed calls and at no other.
        ensures calls { fetches self.new ≡ next_call (fetches self.old) }
        ensures failing { failing_fetches self.new ≡ failing_fetches self.old }
        ensures listed { is_listed (fetches self.old) (failing_fetches self.old) ≡ true
            → IsErrOf result FetchError.Failed }
        ensures only_listed { IsErrOf result FetchError.Failed
            → is_listed (fetches self.old) (failing_fetches self.old) ≡ true }
    {
        if count_call(&mut self.calls, &self.failing) {
            return Err(FetchError::Failed);
        }
        let Some(bytes) = self.files.get(name) else {
            self.absents = self.absents.saturating_add(1);
            return Err(FetchError::Absent);
        };
        copy_within(bytes, limit, into)
    }
}

/// A sink in memory, for tests. One call takes at most `most` bytes. The calls of `write` whose
/// numbers are in the list fail, the first call being number 0, and so does one for which there is
/// no memory.
///
/// `faults` is the number of listed calls that have come, and of calls that lacked memory.
#[derive(Drop)]
pub struct MemSink {
    bytes: Vec<u8>,
    most: usize,
    failing: Vec<u64>,
    calls: u64,
    lacking: u64,
    ghost moves: { 0 < most },
}

impl MemSink {
    ghost use Rattle.lq_base_io.specs.Fakes.{most_of, writes, failing_writes, lacking_writes};

    /// A sink that holds these bytes, to which no call has come.
    pub fn new(bytes: Vec<u8>, most: usize, failing: Vec<u64>) -> Self
        requires { 0 < most }
        ensures taken { ⟦<MemSink as Sink>⟧.taken result ≡ Some bytes.items }
        ensures faults { ⟦<MemSink as Sink>⟧.faults result ≡ 0 }
        ensures most { most_of result ≡ most }
        ensures calls { writes result ≡ 0 }
        ensures failing { failing_writes result ≡ failing.items }
        ensures lacking { lacking_writes result ≡ 0 }
    {
        MemSink {
            bytes,
            most,
            failing,
            calls: 0,
            lacking: 0,
        }
    }

    /// The bytes taken so far.
    pub fn bytes(&self) -> &[u8]
        ensures { Some result.now ≡ ⟦<MemSink as Sink>⟧.taken self.now }
    {
        &self.bytes
    }

    /// The greatest number of bytes that one call takes.
    pub fn most(&self) -> usize
        ensures { result ≡ most_of self.now }
    {
        self.most
    }

    /// The numbers of the calls that are to fail.
    pub fn failing(&self) -> &[u64]
        ensures { result.now ≡ failing_writes self.now }
    {
        &self.failing
    }

    /// How many calls have come, which is the number of the next one.
    pub fn calls(&self) -> u64
        ensures { result ≡ writes self.now }
    {
        self.calls
    }

    /// How many calls found no memory.
    pub fn lacking(&self) -> u64
        ensures { result ≡ lacking_writes self.now }
    {
        self.lacking
    }
}

impl Sink for MemSink {
    ghost use Rattle.lq_base_io.specs.Fakes.{most_of, writes, failing_writes, lacking_writes};

    ghost taken = { λ s. Some s.bytes.items };

    ghost faults = { λ s. listed_before s.calls s.failing.items + s.lacking };

    fn write(&mut self, piece: &[u8]) -> Result<usize, SinkFailed>
        ensures bound { IfOk result (λ n. n ≤ length piece.now) }
        ensures some { 0 < length piece.now → IfOk result (λ n. 0 < n) }
        ensures takes { TakesFront (⟦<MemSink as Sink>⟧.taken self.old) piece.now
            (⟦<MemSink as Sink>⟧.taken self.new) result }
        ensures fault { OnErr result (Rose (⟦<MemSink as Sink>⟧.faults self.old)
            (⟦<MemSink as Sink>⟧.faults self.new)) }
        ensures faults { ⟦<MemSink as Sink>⟧.faults self.old ≤ ⟦<MemSink as Sink>⟧.faults self.new }
        // It takes as much as it can, and fails at the listed calls and for want of memory alone.
        ensures most { IfOk result (λ n. n ≡ min (length piece.now) (most_of self.old)) }
        ensures counts { OnOk result
            (⟦<MemSink as Sink>⟧.faults self.new ≡ ⟦<MemSink as Sink>⟧.faults self.old) }
        ensures calls { writes self.new ≡ next_call (writes self.old) }
        ensures failing { failing_writes self.new ≡ failing_writes self.old }
        ensures same_most { most_of self.new ≡ most_of self.old }
        ensures lacking { OnOk result (lacking_writes self.new ≡ lacking_writes self.old) }
        ensures listed { is_listed (writes self.old) (failing_writes self.old) ≡ true → IsErr result }
        ensures only_listed { OnErr result ((is_listed (writes self.old) (failing_writes self.old) ≡ true)
            ⊎ Rose (lacking_writes self.old) (lacking_writes self.new)) }
    {
        if count_call(&mut self.calls, &self.failing) {
            return Err(SinkFailed);
        }
        let count = piece.len().min(self.most);
        if self.bytes.extend_from_slice(&piece[..count]).is_err() {
            self.lacking = self.lacking.saturating_add(1);
            return Err(SinkFailed);
        }
        Ok(count)
    }
}
