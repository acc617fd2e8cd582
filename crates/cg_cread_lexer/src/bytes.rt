// Kinds of bytes, and how many of a kind stand in front.
ghost use Rattle.std.specs.Prelude.{◌≡◌, ◌≤◌, [], ◌∷◌, length};
ghost use Rattle.std.specs.List.{list_any, prefix_len};
ghost use Rattle.std.specs.Str.{bytes_eq};
ghost use Rattle.cg_base.specs.Bytes.{digit};
ghost use Rattle.cg_ctree.specs.Tokens.{letter, part_of_name, short_signs, long_signs};

use cg_base::is_digit;

/// Whether a name may begin with a byte.
pub(crate) fn is_letter(byte: u8) -> bool
    ensures { result ≡ letter byte }
{
    byte.is_ascii_lowercase() || byte.is_ascii_uppercase() || byte == b'_'
}

fn is_part_of_name(byte: u8) -> bool
    ensures { result ≡ part_of_name byte }
{
    is_letter(byte) || is_digit(byte)
}

/// How many bytes at the front may stand in a name.
pub(crate) fn name_len(bytes: &[u8]) -> usize
    ensures { result ≡ prefix_len part_of_name bytes.now }
{
    bytes
        .iter()
        .take_while(|byte| is_part_of_name(**byte))
        .count()
}

/// How many bytes at the front are digits.
pub(crate) fn digit_len(bytes: &[u8]) -> usize
    ensures count { result ≡ prefix_len digit bytes.now }
    ensures within { result ≤ length bytes.now }
{
    bytes.iter().take_while(|byte| is_digit(**byte)).count()
}

/// Whether a byte is a sign.
pub(crate) fn is_short_sign(byte: u8) -> bool
    ensures { result ≡ list_any (bytes_eq (byte ∷ [])) short_signs }
{
    b"{}();,:.=~+-*/%&|^<>".contains(&byte)
}

/// Whether two bytes are one sign.
pub(crate) fn is_long_sign(first: u8, second: u8) -> bool
    ensures { result ≡ list_any (bytes_eq (first ∷ second ∷ [])) long_signs }
{
    match first {
        b'-' => second == b'>',
        b'<' | b'>' => second == first || second == b'=',
        b'=' | b'!' => second == b'=',
        _ => false,
    }
}
