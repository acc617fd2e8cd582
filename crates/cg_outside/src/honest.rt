// Files and an output in memory that never fail.
ghost use Rattle.std.specs.Prelude.{◌≡◌, [], None, Some, MatchOption};
ghost use Rattle.std.specs.FinMap.{get};
ghost use Rattle.cg_outside.specs.Entries.{held_of};

use crate::entries::{find, front, put};
use crate::{FileFault, Files, Sink};
use cg_base::Name;
use std::alloc::Global;

/// Files in memory that never fail: each count is the constant 0. A name that isn't held reads as the empty file.
/// docs/LANGUAGE.md, "The outside".
#[derive(Drop)]
pub struct HonestFiles {
    alloc: Global,
    files: Vec<(Name, Vec<u8>)>,
}

impl HonestFiles {
    ghost use Rattle.cg_outside.specs.Memory.{honest_held};

    /// These files; of two with one name the first counts. It takes no memory.
    pub fn new(alloc: Global, files: Vec<(Name, Vec<u8>)>) -> HonestFiles
        ensures { honest_held result ≡ held_of files.items }
    {
        HonestFiles { alloc, files }
    }

    /// What is held under a name, and None exactly where the name isn't held.
    pub fn contents(&self, name: &str) -> Option<&[u8]>
        ensures { MatchOption result
            (get (honest_held self.now) name.now ≡ None)
            (λ bytes. get (honest_held self.now) name.now ≡ Some bytes.now) }
    {
        find(&self.files, name.as_bytes())
    }
}

impl Files for HonestFiles {
    ghost use Rattle.std.specs.Prelude.{Some};
    ghost use Rattle.cg_outside.specs.Memory.{honest_held};

    ghost held = { λ files. Some (honest_held files) };

    ghost failed_reads = { λ files name. 0 };

    ghost failed_writes = { λ files name. 0 };

    fn read(&mut self, alloc: Global, name: &str, most: usize) -> Result<Vec<u8>, FileFault> {
        match find(&self.files, name.as_bytes()) {
            Some(bytes) => Ok(front(alloc, bytes, most)?),
            None => Ok(Vec::new(alloc)),
        }
    }

    fn write(&mut self, name: &str, bytes: &[u8]) -> Result<(), FileFault> {
        Ok(put(self.alloc, &mut self.files, name, bytes)?)
    }
}

/// An output in memory that never fails: its count is the constant 0. docs/LANGUAGE.md, "The outside".
#[derive(Drop)]
pub struct HonestSink {
    bytes: Vec<u8>,
}

impl HonestSink {
    ghost use Rattle.cg_outside.specs.Memory.{honest_taken};

    /// An output that has taken nothing. It takes no memory.
    pub fn new(alloc: Global) -> HonestSink
        ensures { honest_taken result ≡ [] }
    {
        HonestSink {
            bytes: Vec::new(alloc),
        }
    }

    /// The bytes taken.
    pub fn bytes(&self) -> &[u8]
        ensures { result.now ≡ honest_taken self.now }
    {
        &self.bytes
    }
}

impl Sink for HonestSink {
    ghost use Rattle.std.specs.Prelude.{Some};
    ghost use Rattle.cg_outside.specs.Memory.{honest_taken};

    ghost taken = { λ sink. Some (honest_taken sink) };

    ghost faults = { λ sink. 0 };

    fn write(&mut self, bytes: &[u8]) -> Result<(), FileFault> {
        self.bytes.extend_from_slice(bytes)?;
        Ok(())
    }
}
