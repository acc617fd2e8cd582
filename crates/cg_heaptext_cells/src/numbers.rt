// Numbers of any length, and those above a bound.
ghost use Rattle.std.specs.Prelude.{◌≡◌, nat_lt, [], ◌∷◌};
ghost use Rattle.cg_base.specs.Numbers.{number_from};
ghost use Rattle.cg_heaptext_def.specs.Small.{capped_number};
ghost use Rattle.cg_heaptext_places.specs.Noted.{noted_all};
ghost use Rattle.cg_heaptext_cells.specs.Numbers.{numeral_read, places_above};

use cg_base::{Items, Place, literal};
use cg_heaptext_lexer::Token;
use cg_heaptext_places::earlier;

/// The elements of an array, and the earliest place of those that are above a bound. One above 2^64 - 1 is given as that.
#[derive(Drop)]
pub struct Elements {
    pub numbers: Items<u64>,
    pub over: Option<Place>,
}

/// The number that digits spell, or 2^64 - 1 where it is above that (docs/LANGUAGE.md, "Heap files").
pub fn number(digits: &[u8]) -> u64
    ensures { result ≡ capped_number (number_from 0 digits.now) }
{
    match literal(digits) {
        Some(number) => number,
        None => u64::MAX,
    }
}

// Whether the number that digits spell is above a bound.
fn is_above(digits: &[u8], most: u64) -> bool
    ensures { result ≡ nat_lt most (number_from 0 digits.now) }
{
    match literal(digits) {
        Some(number) => most < number,
        None => true,
    }
}

// The earlier of the place that was found before and that of a number, where this is above a bound.
pub(crate) fn note(over: Option<Place>, number: &Token, most: u64) -> Option<Place>
    ensures { result ≡ noted_all over (places_above most (numeral_read number.now ∷ [])) }
{
    if is_above(number.text, most) {
        earlier(over, number.place)
    } else {
        over
    }
}
