// Files and an output in memory, whose calls fail where they are told to.
ghost use Rattle.std.specs.Prelude.{◌≡◌, ◌^◌, ◌<◌, ◌++◌, [], None, Some, MatchOption, IfOk, OnOk, IsErrOf};
ghost use Rattle.std.specs.FinMap.{get, insert};
ghost use Rattle.cg_outside.specs.Held.{IsReadOf, HoldsPrefix, TookPrefix};
ghost use Rattle.cg_outside.specs.Causes.{next_count};
ghost use Rattle.cg_outside.specs.Calls.{FailsWhere, CountsFault, RaisesCount};
ghost use Rattle.cg_outside.specs.Entries.{held_of};

use crate::entries::{find, front, put};
use crate::failures::Failures;
use crate::{FileFault, Files, Sink};
use cg_base::Name;
use std::alloc::Global;

/// Files in memory whose calls, of both kinds and numbered from 1, fail where their number is listed. A read of a name
/// that isn't held fails too, and a failing write leaves the empty file. docs/LANGUAGE.md, "The outside".
#[derive(Drop)]
pub struct MemoryFiles {
    alloc: Global,
    files: Vec<(Name, Vec<u8>)>,
    failing: Vec<u64>,
    calls: u64,
    reads: Failures,
    writes: Failures,
}

impl MemoryFiles {
    ghost use Rattle.cg_outside.specs.Memory.{memory_held, calls_of, failing_of};

    /// These files; of two with one name the first counts. The calls whose number, from 1, is in `failing` fail. It
    /// takes no memory.
    pub fn new(alloc: Global, files: Vec<(Name, Vec<u8>)>, failing: Vec<u64>) -> MemoryFiles
        ensures held { memory_held result ≡ held_of files.items }
        ensures calls { calls_of result ≡ 0 }
        ensures failing { failing_of result ≡ failing.items }
    {
        MemoryFiles {
            alloc,
            files,
            failing,
            calls: 0,
            reads: Failures::new(alloc),
            writes: Failures::new(alloc),
        }
    }

    /// What is held under a name, and None exactly where the name isn't held.
    pub fn contents(&self, name: &str) -> Option<&[u8]>
        ensures { MatchOption result
            (get (memory_held self.now) name.now ≡ None)
            (λ bytes. get (memory_held self.now) name.now ≡ Some bytes.now) }
    {
        find(&self.files, name.as_bytes())
    }
}

impl Files for MemoryFiles {
    ghost use Rattle.std.specs.Prelude.{Some};
    ghost use Rattle.cg_outside.specs.Memory.{memory_held, failed_reads_of, failed_writes_of, calls_of, failing_of, told_to_fail, read_fails};

    ghost held = { λ files. Some (memory_held files) };

    ghost failed_reads = { failed_reads_of };

    ghost failed_writes = { failed_writes_of };

    fn read(&mut self, alloc: Global, name: &str, most: usize) -> Result<Vec<u8>, FileFault>
        requires { most < 2 ^ 32 }
        ensures bytes { IfOk result (λ bytes. IsReadOf (Some (memory_held self.old)) name.now most bytes.items) }
        ensures held { memory_held self.new ≡ memory_held self.old }
        ensures cause { CountsFault name.now (failed_reads_of self.old) (failed_reads_of self.new) result }
        ensures writes { failed_writes_of self.new ≡ failed_writes_of self.old }

        // What follows is said of files in memory alone.
        ensures told { FailsWhere (read_fails self.old name.now) result }
        ensures calls { calls_of self.new ≡ next_count (calls_of self.old) }
        ensures failing { failing_of self.new ≡ failing_of self.old }
    {
        self.calls = self.calls.saturating_add(1);
        self.reads.note(self.alloc, name)?;
        if self.failing.contains(&self.calls) {
            return Err(FileFault::Failed);
        }
        let Some(bytes) = find(&self.files, name.as_bytes()) else {
            return Err(FileFault::Failed);
        };
        self.reads.take_back();
        Ok(front(alloc, bytes, most)?)
    }

    fn write(&mut self, name: &str, bytes: &[u8]) -> Result<(), FileFault>
        ensures ok { OnOk result (memory_held self.new ≡ insert (memory_held self.old) name.now bytes.now) }
        ensures failed { IsErrOf result FileFault.Failed →
            HoldsPrefix name.now bytes.now (Some (memory_held self.old)) (Some (memory_held self.new)) }
        ensures memory { IsErrOf result FileFault.Memory → memory_held self.new ≡ memory_held self.old }
        ensures cause { CountsFault name.now (failed_writes_of self.old) (failed_writes_of self.new) result }
        ensures reads { failed_reads_of self.new ≡ failed_reads_of self.old }

        // What follows is said of files in memory alone.
        ensures told { FailsWhere (told_to_fail self.old) result }
        ensures emptied { IsErrOf result FileFault.Failed →
            memory_held self.new ≡ insert (memory_held self.old) name.now [] }
        ensures calls { calls_of self.new ≡ next_count (calls_of self.old) }
        ensures failing { failing_of self.new ≡ failing_of self.old }
    {
        self.calls = self.calls.saturating_add(1);
        let fails = self.failing.contains(&self.calls);
        let kept: &[u8] = if fails { &[] } else { bytes };
        self.writes.note(self.alloc, name)?;
        let done = put(self.alloc, &mut self.files, name, kept);
        if done.is_ok() && fails {
            return Err(FileFault::Failed);
        }
        self.writes.take_back();
        Ok(done?)
    }
}

/// An output in memory whose calls, numbered from 1, fail where their number is listed. A failing call appends nothing.
/// docs/LANGUAGE.md, "The outside".
#[derive(Drop)]
pub struct MemorySink {
    bytes: Vec<u8>,
    failing: Vec<u64>,
    calls: u64,
    faults: u64,
}

impl MemorySink {
    ghost use Rattle.cg_outside.specs.Memory.{memory_taken, sink_calls_of, sink_failing_of};

    /// An output that has taken nothing. The calls whose number, from 1, is in `failing` fail. It takes no memory.
    pub fn new(alloc: Global, failing: Vec<u64>) -> MemorySink
        ensures taken { memory_taken result ≡ [] }
        ensures calls { sink_calls_of result ≡ 0 }
        ensures failing { sink_failing_of result ≡ failing.items }
    {
        MemorySink {
            bytes: Vec::new(alloc),
            failing,
            calls: 0,
            faults: 0,
        }
    }

    /// The bytes taken.
    pub fn bytes(&self) -> &[u8]
        ensures { result.now ≡ memory_taken self.now }
    {
        &self.bytes
    }
}

impl Sink for MemorySink {
    ghost use Rattle.std.specs.Prelude.{Some};
    ghost use Rattle.cg_outside.specs.Memory.{memory_taken, sink_faults_of, sink_calls_of, sink_failing_of, sink_told_to_fail};

    ghost taken = { λ sink. Some (memory_taken sink) };

    ghost faults = { sink_faults_of };

    fn write(&mut self, bytes: &[u8]) -> Result<(), FileFault>
        ensures ok { OnOk result (memory_taken self.new ≡ memory_taken self.old ++ bytes.now) }
        ensures failed { IsErrOf result FileFault.Failed →
            TookPrefix bytes.now (Some (memory_taken self.old)) (Some (memory_taken self.new)) }
        ensures memory { IsErrOf result FileFault.Memory → memory_taken self.new ≡ memory_taken self.old }
        ensures cause { RaisesCount (sink_faults_of self.old) (sink_faults_of self.new) result }

        // What follows is said of an output in memory alone.
        ensures told { FailsWhere (sink_told_to_fail self.old) result }
        ensures kept { IsErrOf result FileFault.Failed → memory_taken self.new ≡ memory_taken self.old }
        ensures calls { sink_calls_of self.new ≡ next_count (sink_calls_of self.old) }
        ensures failing { sink_failing_of self.new ≡ sink_failing_of self.old }
    {
        self.calls = self.calls.saturating_add(1);
        if self.failing.contains(&self.calls) {
            self.faults = self.faults.saturating_add(1);
            return Err(FileFault::Failed);
        }
        self.bytes.extend_from_slice(bytes)?;
        Ok(())
    }
}
