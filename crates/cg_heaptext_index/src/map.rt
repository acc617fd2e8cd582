// The entries of a heap file by their addresses.
ghost use Rattle.std.specs.Prelude.{◌≡◌, ◌≤◌, ℕ, List, length};
ghost use Rattle.std.specs.List.{prefix_len};
ghost use Rattle.cg_base.specs.Bytes.{digit, Each};
ghost use Rattle.cg_heaptext_def.specs.Footprints.{position_from};
ghost use Rattle.cg_heaptext_def.specs.Trees.{amount};
ghost use Rattle.cg_heaptext_entries.specs.Index.{numeral_of};
ghost use Rattle.cg_heaptext_index.specs.Addresses.{IsMapOf, is_zero, significant as without_zeros};

use cg_heaptext_entries::Numeral;
use std::collections::BTreeMap;

/// Digits that begin with no zero, each with the position of an entry.
pub(crate) type Positions<'a> = BTreeMap<&'a [u8], usize>;

/// The positions of the entries of a heap file by their addresses (docs/LANGUAGE.md, "Heap files"). An address is a number of any size,
/// however many zeros are written before it.
#[derive(Drop)]
pub struct Addresses<'a> {
    pub(crate) positions: Positions<'a>,
}

impl<'a> Addresses<'a> {
    /// The position of the first entry whose address is this number, where there is one, in time that grows as the logarithm of the number
    /// of entries (docs/LANGUAGE.md, "Heap files").
    pub fn find(&self, address: &Numeral) -> Option<usize>
        ensures { (ns : List ℕ) → IsMapOf self.now ns → Each digit address.now.digits.now → result ≡ position_from 0 ns (amount (numeral_of address.now)) }
    {
        self.positions.get(significant(address.digits)).copied()
    }
}

// How many zeros stand in front of digits.
fn zero_len(digits: &[u8]) -> usize
    ensures count { result ≡ prefix_len is_zero digits.now }
    ensures within { result ≤ length digits.now }
{
    digits.iter().take_while(|digit| **digit == b'0').count()
}

/// Digits without the zeros in front.
pub(crate) fn significant<'a>(digits: &'a [u8]) -> &'a [u8]
    ensures { result.now ≡ without_zeros digits.now }
{
    digits.split_at(zero_len(digits)).1
}
