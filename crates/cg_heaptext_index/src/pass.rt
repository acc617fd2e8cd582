// The pass over the entries of a heap file that finds their addresses.
ghost use Rattle.std.specs.Prelude.{◌≡◌, ℕ, List, IfOk, OnOk, is_some};
ghost use Rattle.cg_heaptext_def.specs.Grammar.{HeapSpells};
ghost use Rattle.cg_heaptext_def.specs.Trees.{Heap};
ghost use Rattle.cg_heaptext_entries.specs.Index.{IsIndex};
ghost use Rattle.cg_heaptext_index.specs.Addresses.{Answers, Joins, position};

use crate::fault::AddressFault;
use crate::map::{Addresses, Positions, significant};
use cg_base::Memory;
use cg_heaptext_entries::Index;
use cg_heaptext_places::earlier;
use std::alloc::Global;
use std::collections::BTreeMap;

// Keeps the position of an entry with this address, unless an earlier one has it. Answers whether one has.
fn add<'a>(positions: &mut Positions<'a>, address: &'a [u8], at: usize) -> Result<bool, Memory>
    ensures known { IfOk result (λ known. known ≡ is_some (position positions.old address.now)) }
    ensures joins { OnOk result (Joins positions.old address.now at positions.new) }
{
    if positions.contains_key(address) {
        return Ok(true);
    }
    positions.insert(address, at)?;
    Ok(false)
}

/// The entries of a heap file by their addresses (docs/LANGUAGE.md, "Heap files"): `Ok` exactly where no entry has the address of an earlier
/// one; and else the place of the first in the file that has, which is H2; or `Memory` where memory is wanting. It takes n log n time in the
/// size of the file, and memory in proportion to the entries.
pub fn addresses<'a>(alloc: Global, index: &Index<'a>) -> Result<Addresses<'a>, AddressFault>
    ensures { (bytes : List ℕ) (h : Heap) → HeapSpells bytes h → IsIndex index.now h → Answers h result }
{
    let entries = index.entries.as_slice();
    let mut positions = BTreeMap::new(alloc);
    let mut second = None;
    for (at, entry) in entries.iter().enumerate() {
        if add(&mut positions, significant(entry.address.digits), at)? {
            second = earlier(second, entry.place);
        }
    }
    match second {
        Some(place) => Err(AddressFault::Second(place)),
        None => Ok(Addresses { positions }),
    }
}
