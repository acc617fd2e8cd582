// Files and an output in memory, whose calls are torn where they are told to be.
ghost use Rattle.std.specs.Prelude.{◌≡◌, ◌^◌, ◌<◌, ◌++◌, ℕ, [], None, Some, MatchOption, IfOk, OnOk, IsErrOf, take};
ghost use Rattle.std.specs.FinMap.{get, insert};
ghost use Rattle.cg_outside.specs.Held.{IsReadOf, HoldsPrefix, TookPrefix};
ghost use Rattle.cg_outside.specs.Causes.{next_count};
ghost use Rattle.cg_outside.specs.Calls.{FailsWhere, CountsFault, RaisesCount};
ghost use Rattle.cg_outside.specs.Entries.{held_of};
ghost use Rattle.cg_outside.specs.Cuts.{first_cut};

use crate::entries::{find, front, put};
use crate::failures::Failures;
use crate::{FileFault, Files, Sink};
use cg_base::Name;
use std::alloc::Global;

/// How many bytes the call of a number lets through, by the first entry of the number; None where it isn't listed.
fn cut_at(failing: &[(u64, usize)], call: u64) -> Option<usize>
    ensures { result ≡ first_cut call failing.now }
{
    for (number, count) in failing {
        if *number == call {
            return Some(*count);
        }
    }
    None
}

/// The first so many bytes, or all where there are fewer.
fn first(bytes: &[u8], count: usize) -> &[u8]
    ensures { result.now ≡ take count bytes.now }
{
    if count < bytes.len() {
        &bytes[..count]
    } else {
        bytes
    }
}

/// Files in memory whose calls, of both kinds and numbered from 1, fail where their number is listed. A read of a name that isn't held
/// fails too. A failing write leaves the first so many bytes of what was to be written as its number is listed with, or all where there
/// are fewer. docs/LANGUAGE.md, "The outside".
#[derive(Drop)]
pub struct TornFiles {
    alloc: Global,
    files: Vec<(Name, Vec<u8>)>,
    failing: Vec<(u64, usize)>,
    calls: u64,
    reads: Failures,
    writes: Failures,
}

impl TornFiles {
    ghost use Rattle.cg_outside.specs.Torn.{torn_held, torn_calls_of, torn_failing_of};

    /// These files; of two with one name the first counts. The calls whose number, from 1, is in `failing` fail, each after so many
    /// bytes. It takes no memory.
    pub fn new(alloc: Global, files: Vec<(Name, Vec<u8>)>, failing: Vec<(u64, usize)>) -> TornFiles
        ensures held { torn_held result ≡ held_of files.items }
        ensures calls { torn_calls_of result ≡ 0 }
        ensures failing { torn_failing_of result ≡ failing.items }
    {
        TornFiles {
            alloc,
            files,
            failing,
            calls: 0,
            reads: Failures::new(alloc),
            writes: Failures::new(alloc),
        }
    }

    /// What is held under a name, and None exactly where the name isn't held.
    pub fn contents(&self, name: &str) -> Option<&[u8]>
        ensures { MatchOption result
            (get (torn_held self.now) name.now ≡ None)
            (λ bytes. get (torn_held self.now) name.now ≡ Some bytes.now) }
    {
        find(&self.files, name.as_bytes())
    }
}

impl Files for TornFiles {
    ghost use Rattle.std.specs.Prelude.{Some};
    ghost use Rattle.cg_outside.specs.Torn.{torn_held, torn_reads_of, torn_writes_of, torn_calls_of, torn_failing_of, next_cut, is_torn, read_is_torn};

    ghost held = { λ files. Some (torn_held files) };

    ghost failed_reads = { torn_reads_of };

    ghost failed_writes = { torn_writes_of };

    fn read(&mut self, alloc: Global, name: &str, most: usize) -> Result<Vec<u8>, FileFault>
        requires { most < 2 ^ 32 }
        ensures bytes { IfOk result (λ bytes. IsReadOf (Some (torn_held self.old)) name.now most bytes.items) }
        ensures held { torn_held self.new ≡ torn_held self.old }
        ensures cause { CountsFault name.now (torn_reads_of self.old) (torn_reads_of self.new) result }
        ensures writes { torn_writes_of self.new ≡ torn_writes_of self.old }

        // What follows is said of these files alone.
        ensures told { FailsWhere (read_is_torn self.old name.now) result }
        ensures calls { torn_calls_of self.new ≡ next_count (torn_calls_of self.old) }
        ensures failing { torn_failing_of self.new ≡ torn_failing_of self.old }
    {
        self.calls = self.calls.saturating_add(1);
        self.reads.note(self.alloc, name)?;
        if cut_at(&self.failing, self.calls).is_some() {
            return Err(FileFault::Failed);
        }
        let Some(bytes) = find(&self.files, name.as_bytes()) else {
            return Err(FileFault::Failed);
        };
        self.reads.take_back();
        Ok(front(alloc, bytes, most)?)
    }

    fn write(&mut self, name: &str, bytes: &[u8]) -> Result<(), FileFault>
        ensures ok { OnOk result (torn_held self.new ≡ insert (torn_held self.old) name.now bytes.now) }
        ensures failed { IsErrOf result FileFault.Failed →
            HoldsPrefix name.now bytes.now (Some (torn_held self.old)) (Some (torn_held self.new)) }
        ensures memory { IsErrOf result FileFault.Memory → torn_held self.new ≡ torn_held self.old }
        ensures cause { CountsFault name.now (torn_writes_of self.old) (torn_writes_of self.new) result }
        ensures reads { torn_reads_of self.new ≡ torn_reads_of self.old }

        // What follows is said of these files alone.
        ensures told { FailsWhere (is_torn self.old) result }
        ensures torn { IsErrOf result FileFault.Failed → (count : ℕ) → next_cut self.old ≡ Some count →
            torn_held self.new ≡ insert (torn_held self.old) name.now (take count bytes.now) }
        ensures calls { torn_calls_of self.new ≡ next_count (torn_calls_of self.old) }
        ensures failing { torn_failing_of self.new ≡ torn_failing_of self.old }
    {
        self.calls = self.calls.saturating_add(1);
        let cut = cut_at(&self.failing, self.calls);
        let kept = match cut {
            Some(count) => first(bytes, count),
            None => bytes,
        };
        self.writes.note(self.alloc, name)?;
        let done = put(self.alloc, &mut self.files, name, kept);
        if done.is_ok() && cut.is_some() {
            return Err(FileFault::Failed);
        }
        self.writes.take_back();
        Ok(done?)
    }
}

/// An output in memory whose calls, numbered from 1, fail where their number is listed: such a call appends the first so many bytes as
/// its number is listed with, or all where there are fewer. docs/LANGUAGE.md, "The outside".
#[derive(Drop)]
pub struct TornSink {
    bytes: Vec<u8>,
    failing: Vec<(u64, usize)>,
    calls: u64,
    faults: u64,
}

impl TornSink {
    ghost use Rattle.cg_outside.specs.Torn.{torn_taken, torn_sink_calls_of, torn_sink_failing_of};

    /// An output that has taken nothing. The calls whose number is in `failing` fail, each after so many bytes. It takes no memory.
    pub fn new(alloc: Global, failing: Vec<(u64, usize)>) -> TornSink
        ensures taken { torn_taken result ≡ [] }
        ensures calls { torn_sink_calls_of result ≡ 0 }
        ensures failing { torn_sink_failing_of result ≡ failing.items }
    {
        TornSink {
            bytes: Vec::new(alloc),
            failing,
            calls: 0,
            faults: 0,
        }
    }

    /// The bytes taken.
    pub fn bytes(&self) -> &[u8]
        ensures { result.now ≡ torn_taken self.now }
    {
        &self.bytes
    }
}

impl Sink for TornSink {
    ghost use Rattle.std.specs.Prelude.{Some};
    ghost use Rattle.cg_outside.specs.Torn.{torn_taken, torn_sink_faults_of, torn_sink_calls_of, torn_sink_failing_of, next_sink_cut, is_sink_torn};

    ghost taken = { λ sink. Some (torn_taken sink) };

    ghost faults = { torn_sink_faults_of };

    fn write(&mut self, bytes: &[u8]) -> Result<(), FileFault>
        ensures ok { OnOk result (torn_taken self.new ≡ torn_taken self.old ++ bytes.now) }
        ensures failed { IsErrOf result FileFault.Failed →
            TookPrefix bytes.now (Some (torn_taken self.old)) (Some (torn_taken self.new)) }
        ensures memory { IsErrOf result FileFault.Memory → torn_taken self.new ≡ torn_taken self.old }
        ensures cause { RaisesCount (torn_sink_faults_of self.old) (torn_sink_faults_of self.new) result }

        // What follows is said of this output alone.
        ensures told { FailsWhere (is_sink_torn self.old) result }
        ensures torn { IsErrOf result FileFault.Failed → (count : ℕ) → next_sink_cut self.old ≡ Some count →
            torn_taken self.new ≡ torn_taken self.old ++ take count bytes.now }
        ensures calls { torn_sink_calls_of self.new ≡ next_count (torn_sink_calls_of self.old) }
        ensures failing { torn_sink_failing_of self.new ≡ torn_sink_failing_of self.old }
    {
        self.calls = self.calls.saturating_add(1);
        let cut = cut_at(&self.failing, self.calls);
        let kept = match cut {
            Some(count) => first(bytes, count),
            None => bytes,
        };
        self.bytes.extend_from_slice(kept)?;
        if cut.is_some() {
            self.faults = self.faults.saturating_add(1);
            return Err(FileFault::Failed);
        }
        Ok(())
    }
}
