// The outside, as a program that touches files and an output sees it.
ghost use Rattle.std.specs.Prelude.{◌≡◌, ◌^◌, ◌<◌, ℕ, List, IfOk, OnOk, IsErrOf};
ghost use Rattle.std.specs.declared.option.Option.{Option};
ghost use Rattle.std.specs.Io.KnownBytes.{append_known};
ghost use Rattle.cg_outside.specs.declared.outside.FileFault.TheVariants.{Memory};
ghost use Rattle.cg_outside.specs.Held.{Held, IsReadOf, with_file, HoldsPrefix, TookPrefix};
ghost use Rattle.cg_outside.specs.Calls.{CountsFault, RaisesCount};

use cg_base::Memory as OutOfMemory;
use std::alloc::{AllocError, AllocFailed, Global};

/// Why a call on files or on an output did not do its work. docs/LANGUAGE.md, "The outside".
#[derive(Clone, Copy, Debug, PartialEq, Eq)]
pub enum FileFault {
    /// The outside failed, and the count of this call has risen.
    Failed,
    /// Memory was wanting, and nothing has changed.
    Memory,
}

impl From<OutOfMemory> for FileFault {
    ghost from_gives = { λ _ fault. fault ≡ Memory };

    fn from(_: OutOfMemory) -> FileFault {
        FileFault::Memory
    }
}

impl From<AllocError> for FileFault {
    ghost from_gives = { λ _ fault. fault ≡ Memory };

    fn from(_: AllocError) -> FileFault {
        FileFault::Memory
    }
}

impl<T: Drop> From<AllocFailed<T>> for FileFault {
    ghost from_gives = { λ _ fault. fault ≡ Memory };

    fn from(_: AllocFailed<T>) -> FileFault {
        FileFault::Memory
    }
}

/// Files by their names, which are compared as texts. docs/LANGUAGE.md, "The outside".
pub trait Files {
    /// What they hold, where that is told.
    ghost held: { Self → Option Held };

    /// How many reads of each name have failed: a failed one adds one, and no other call changes it.
    ghost failed_reads: { Self → List ℕ → ℕ };

    /// How many writes of each name have failed: a failed one adds one, and no other call changes it.
    ghost failed_writes: { Self → List ℕ → ℕ };

    /// All bytes of a file, or where there are more than `most`, the first `most + 1`. A file that isn't held may be
    /// read as the empty one. `Failed` comes only where the count of reads of this name rose.
    fn read(&mut self, alloc: Global, name: &str, most: usize) -> Result<Vec<u8>, FileFault>
        requires { most < 2 ^ 32 }
        ensures bytes { IfOk result (λ bytes. IsReadOf (held self.old) name.now most bytes.items) }
        ensures held { held self.new ≡ held self.old }
        ensures cause { CountsFault name.now (failed_reads self.old) (failed_reads self.new) result }
        ensures writes { failed_writes self.new ≡ failed_writes self.old };

    /// Makes a file's contents these bytes, and leaves all other files. `Failed` comes only where the count of writes
    /// of this name rose; the file then holds a prefix of the bytes.
    fn write(&mut self, name: &str, bytes: &[u8]) -> Result<(), FileFault>
        ensures ok { OnOk result (held self.new ≡ with_file (held self.old) name.now bytes.now) }
        ensures failed { IsErrOf result FileFault.Failed →
            HoldsPrefix name.now bytes.now (held self.old) (held self.new) }
        ensures memory { IsErrOf result FileFault.Memory → held self.new ≡ held self.old }
        ensures cause { CountsFault name.now (failed_writes self.old) (failed_writes self.new) result }
        ensures reads { failed_reads self.new ≡ failed_reads self.old };
}

/// What takes the printed bytes. docs/LANGUAGE.md, "The outside".
pub trait Sink {
    /// The bytes taken, where they are told.
    ghost taken: { Self → Option (List ℕ) };

    /// How many calls have failed: a failed one adds one, and no other call changes it. It stays at 2^64 - 1.
    ghost faults: { Self → ℕ };

    /// Appends these bytes. `Failed` comes only where the count of faults rose; a prefix of the bytes is then appended.
    fn write(&mut self, bytes: &[u8]) -> Result<(), FileFault>
        ensures ok { OnOk result (taken self.new ≡ append_known (taken self.old) bytes.now) }
        ensures failed { IsErrOf result FileFault.Failed →
            TookPrefix bytes.now (taken self.old) (taken self.new) }
        ensures memory { IsErrOf result FileFault.Memory → taken self.new ≡ taken self.old }
        ensures cause { RaisesCount (faults self.old) (faults self.new) result };
}
