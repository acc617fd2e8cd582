// Numbers in the four bases.
ghost use Rattle.std.specs.Prelude.{◌≡◌, ◌+◌, ◌*◌, ◌≤◌, length};
ghost use Rattle.std.specs.List.{prefix_len};
ghost use Rattle.cg_base.specs.Numbers.{word64};
ghost use Rattle.cg_lexer.specs.Bytes.{digit_value as value_of_digit, digit_of};
ghost use Rattle.cg_lexer.specs.Numbers.{base_size, base_mark, value_of};
ghost use Rattle.cg_lexer.specs.Front.{number_base, number_length, number_value};

/// The base of a number.
#[derive(Clone, Copy)]
pub(crate) enum Base {
    Decimal,
    Hexadecimal,
    Octal,
    Binary,
}

impl Base {
    /// How many digits the base has.
    fn size(self) -> u8
        ensures { result ≡ base_size self }
    {
        match self {
            Base::Decimal => 10,
            Base::Hexadecimal => 16,
            Base::Octal => 8,
            Base::Binary => 2,
        }
    }

    /// How many bytes are written before the digits.
    fn mark_len(self) -> usize
        ensures { result ≡ length (base_mark self) }
    {
        match self {
            Base::Decimal => 0,
            _ => 2,
        }
    }
}

/// The value of a digit; 16 where a byte is none.
fn digit_value(byte: u8) -> u8
    ensures { result ≡ value_of_digit byte }
{
    match byte {
        b'0'..=b'9' => byte - b'0',
        b'a'..=b'f' => byte - b'a' + 10,
        b'A'..=b'F' => byte - b'A' + 10,
        _ => 16,
    }
}

fn is_digit_of(size: u8, byte: u8) -> bool
    ensures { result ≡ digit_of size byte }
{
    digit_value(byte) < size
}

/// The base of the number at the front of bytes.
fn base_of(bytes: &[u8]) -> Base
    ensures { result ≡ number_base bytes.now }
{
    match bytes {
        [b'0', b'x', digit, ..] if is_digit_of(16, *digit) => Base::Hexadecimal,
        [b'0', b'o', digit, ..] if is_digit_of(8, *digit) => Base::Octal,
        [b'0', b'b', digit, ..] if is_digit_of(2, *digit) => Base::Binary,
        _ => Base::Decimal,
    }
}

fn digit_len(size: u8, bytes: &[u8]) -> usize
    ensures value { result ≡ prefix_len (digit_of size) bytes.now }
    ensures within { result ≤ length bytes.now }
{
    bytes
        .iter()
        .take_while(|byte| is_digit_of(size, **byte))
        .count()
}

/// How many bytes the number at the front has.
pub(crate) fn number_len(bytes: &[u8]) -> usize
    ensures { result ≡ number_length bytes.now }
{
    let base = base_of(bytes);
    let mark = base.mark_len();
    mark + digit_len(base.size(), &bytes[mark..])
}

/// The number with a digit more, if it is at most 2^64 - 1.
fn with_digit(size: u8, number: u64, digit: u8) -> Option<u64>
    ensures { result ≡ word64 (number * size + value_of_digit digit) }
{
    let ones = u64::from(digit_value(digit));
    number.checked_mul(u64::from(size))?.checked_add(ones)
}

/// The number that digits of a base spell, the most significant first, if it is at most 2^64 - 1.
fn value(base: Base, digits: &[u8]) -> Option<u64>
    ensures { result ≡ value_of base digits.now }
{
    let mut number = 0;
    for digit in digits {
        number = with_digit(base.size(), number, *digit)?;
    }
    Some(number)
}

/// The value of a number with this text.
pub(crate) fn number(text: &[u8]) -> Option<u64>
    ensures { result ≡ number_value text.now }
{
    let base = base_of(text);
    value(base, &text[base.mark_len()..])
}
