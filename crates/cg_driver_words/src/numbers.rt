// The numbers behind `--steps` and `gen`.
ghost use Rattle.std.specs.Prelude.{◌≡◌};
ghost use Rattle.std.specs.List.{list_all};
ghost use Rattle.cg_base.specs.Bytes.{digit};
ghost use Rattle.cg_driver_words.specs.Words.{in_range as within, number_in as number_of};

use cg_base::{is_digit, literal};

/// A number from 1 to the greatest that may be asked for.
fn in_range(most: u64, number: Option<u64>) -> Option<u64>
    ensures { result ≡ within most number }
{
    match number {
        Some(number) if 1 <= number && number <= most => Some(number),
        _ => None,
    }
}

/// Whether all bytes are digits.
fn are_digits(text: &[u8]) -> bool
    ensures { result ≡ list_all digit text.now }
{
    text.iter().all(|byte| is_digit(*byte))
}

/// The number that a word says: one to twenty digits, from 1 to the greatest that may be asked for.
pub(crate) fn number_in(most: u64, text: &[u8]) -> Option<u64>
    ensures { result ≡ number_of most text.now }
{
    if text.is_empty() || text.len() > 20 || !are_digits(text) {
        return None;
    }
    in_range(most, literal(text))
}
