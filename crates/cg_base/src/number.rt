// Numbers.
ghost use Rattle.std.specs.Prelude.{◌≡◌, ◌+◌, ◌-◌, ◌*◌};
ghost use Rattle.cg_base.specs.Numbers.{literal_of, word64};

/// The number with a digit more, if it is at most 2^64 - 1.
fn with_digit(number: u64, digit: u8) -> Option<u64>
    ensures { result ≡ word64 (number * 10 + (digit - 48)) }
{
    let ones = u64::from(digit.saturating_sub(b'0'));
    number.checked_mul(10)?.checked_add(ones)
}

/// The number that decimal digits spell, the most significant first, if it is at most 2^64 - 1. Leading zeros are allowed
/// (docs/LANGUAGE.md, "Tokens").
pub fn literal(digits: &[u8]) -> Option<u64>
    ensures { result ≡ literal_of digits.now }
{
    let mut number = 0;
    for digit in digits {
        number = with_digit(number, *digit)?;
    }
    Some(number)
}
