// What is found of the addresses that a heap file mentions.
ghost use Rattle.std.specs.Prelude.{◌≡◌, ℕ, [], ◌∷◌, List};
ghost use Rattle.cg_base.specs.Bytes.{digit, Each};
ghost use Rattle.cg_heaptext_def.specs.Trees.{amount};
ghost use Rattle.cg_heaptext_entries.specs.Index.{numeral_of};
ghost use Rattle.cg_heaptext_index.specs.Addresses.{IsMapOf};
ghost use Rattle.cg_heaptext_mentions.specs.Judged.{absent_after, is_out as is_out_of_range, mention, numeral_after, out_after};

use cg_base::{Place, literal};
use cg_heaptext_entries::Numeral;
use cg_heaptext_index::Addresses;
use cg_heaptext_places::earlier;

// The greatest address.
const MOST_ADDRESSES: u64 = 4_294_967_295;

/// The first place of the file at which an address is mentioned that has no entry, and the first at which an address is out of range, that
/// of an entry or one that is mentioned (docs/LANGUAGE.md, "Heap files", H3 and H5).
#[derive(Clone, Copy)]
pub struct Mentions {
    pub absent: Option<Place>,
    pub out: Option<Place>,
}

// Whether an address is out of range.
fn is_out(address: &Numeral) -> bool
    ensures { result ≡ is_out_of_range (amount (numeral_of address.now)) }
{
    match literal(address.digits) {
        Some(number) => number == 0 || number > MOST_ADDRESSES,
        None => true,
    }
}

/// The earlier of what was found before, where there is one, and an address that is out of range.
pub(crate) fn note_out(found: Option<Place>, address: &Numeral) -> Option<Place>
    ensures { result ≡ numeral_after found (numeral_of address.now) }
{
    if is_out(address) {
        earlier(found, address.place)
    } else {
        found
    }
}

// The earlier of what was found before, where there is one, and a mention of an address that has no entry.
fn note_absent(
    found: Option<Place>,
    addresses: &Addresses,
    place: Place,
    address: &Numeral,
) -> Option<Place>
    ensures { (ns : List ℕ) → IsMapOf addresses.now ns → Each digit address.now.digits.now → result ≡ absent_after ns found (mention place (numeral_of address.now) ∷ []) }
{
    match addresses.find(address) {
        Some(_) => found,
        None => earlier(found, place),
    }
}

/// What is found with one mention more, whose sign stands at this place.
pub(crate) fn note(
    found: Mentions,
    addresses: &Addresses,
    place: Place,
    address: &Numeral,
) -> Mentions
    ensures absent { (ns : List ℕ) → IsMapOf addresses.now ns → Each digit address.now.digits.now → result.absent ≡ absent_after ns found.absent (mention place (numeral_of address.now) ∷ []) }
    ensures out { result.out ≡ out_after found.out (mention place (numeral_of address.now) ∷ []) }
{
    Mentions {
        absent: note_absent(found.absent, addresses, place, address),
        out: note_out(found.out, address),
    }
}
