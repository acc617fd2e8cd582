// Files as a list, in which the first of a name counts.
ghost use Rattle.std.specs.Prelude.{◌≡◌, ◌+◌, ◌<◌, ◌^◌, None, Some, MatchOption, IfOk, OnOk, OnErr, take};
ghost use Rattle.std.specs.FinMap.{get, insert};
ghost use Rattle.cg_outside.specs.Entries.{held_of};

use cg_base::{Memory, Name};
use std::alloc::Global;

/// What is held under a name, and None exactly where the name isn't held.
pub(crate) fn find<'a>(files: &'a [(Name, Vec<u8>)], name: &[u8]) -> Option<&'a [u8]>
    ensures { MatchOption result
        (get (held_of files.now) name.now ≡ None)
        (λ bytes. get (held_of files.now) name.now ≡ Some bytes.now) }
{
    for (key, bytes) in files {
        if key.bytes() == name {
            return Some(bytes);
        }
    }
    None
}

/// Puts a file in front, where it counts. Without memory nothing has changed.
pub(crate) fn put(
    alloc: Global,
    files: &mut Vec<(Name, Vec<u8>)>,
    name: &str,
    bytes: &[u8],
) -> Result<(), Memory>
    ensures ok { OnOk result (held_of files.new.items ≡ insert (held_of files.old.items) name.now bytes.now) }
    ensures err { OnErr result (files.new.items ≡ files.old.items) }
{
    let entry = (Name::new(alloc, name.as_bytes())?, bytes.to_vec(alloc)?);
    files.insert(0, entry)?;
    Ok(())
}

/// The bytes, or where there are more than `most`, the first `most + 1` of them.
pub(crate) fn front(alloc: Global, bytes: &[u8], most: usize) -> Result<Vec<u8>, Memory>
    requires { most < 2 ^ 32 }
    ensures { IfOk result (λ v. v.items ≡ take (most + 1) bytes.now) }
{
    if bytes.len() <= most {
        return Ok(bytes.to_vec(alloc)?);
    }
    Ok(bytes[..most + 1].to_vec(alloc)?)
}
