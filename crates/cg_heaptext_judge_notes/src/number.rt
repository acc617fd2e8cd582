// Numbers that pass their types.
ghost use Rattle.std.specs.Prelude.{◌≡◌, ◌+◌, nat_le};
ghost use Rattle.cg_base.specs.Numbers.{number_from};
ghost use Rattle.cg_heaptext_entries.specs.Index.{numeral_of};
ghost use Rattle.cg_heaptext_judge_def.specs.Judging.{counting};

use cg_base::{Place, literal};
use cg_heaptext_entries::Numeral;
use cg_heaptext_places::earlier;

// Whether the number that digits spell is above a bound.
fn is_above(digits: &[u8], most: u64) -> bool
    ensures { result ≡ nat_le (most + 1) (number_from 0 digits.now) }
{
    match literal(digits) {
        Some(number) => most < number,
        None => true,
    }
}

/// The earlier of the earliest number that was found before to pass its type, where there is one, and a number, where it is above `most`, the
/// greatest of its type (docs/LANGUAGE.md, "Heap files", H5).
pub fn note_number(over: Option<Place>, number: &Numeral, most: u64) -> Option<Place>
    ensures { result ≡ counting over (numeral_of number.now) (most + 1) }
{
    if is_above(number.digits, most) {
        earlier(over, number.place)
    } else {
        over
    }
}
