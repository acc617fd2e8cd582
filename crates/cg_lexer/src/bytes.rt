// Kinds of bytes, and how many of a kind stand in front.
ghost use Rattle.std.specs.Prelude.{◌≡◌, ◌≤◌, length};
ghost use Rattle.std.specs.List.{prefix_len};
ghost use Rattle.cg_lexer.specs.Bytes.{small, large, part_of_name, inline};
ghost use Rattle.cg_lexer.specs.Front.{short, middle, long};

use cg_base::is_digit;

pub(crate) fn is_small(byte: u8) -> bool
    ensures { result ≡ small byte }
{
    byte.is_ascii_lowercase() || byte == b'_'
}

pub(crate) fn is_large(byte: u8) -> bool
    ensures { result ≡ large byte }
{
    byte.is_ascii_uppercase()
}

fn is_part_of_name(byte: u8) -> bool
    ensures { result ≡ part_of_name byte }
{
    is_small(byte) || is_large(byte) || is_digit(byte) || byte == b'\''
}

pub(crate) fn name_len(bytes: &[u8]) -> usize
    ensures { result ≡ prefix_len part_of_name bytes.now }
{
    bytes
        .iter()
        .take_while(|byte| is_part_of_name(**byte))
        .count()
}

/// How many bytes stand before the end of the line.
pub(crate) fn line_len(bytes: &[u8]) -> usize
    ensures value { result ≡ prefix_len inline bytes.now }
    ensures within { result ≤ length bytes.now }
{
    bytes.iter().take_while(|byte| **byte != b'\n').count()
}

/// Whether a byte is a sign.
pub(crate) fn is_short(byte: u8) -> bool
    ensures { result ≡ short byte }
{
    b"(){}[]<>=:!|,.+-*/%".contains(&byte)
}

/// Whether two bytes are one sign.
pub(crate) fn is_middle(first: u8, second: u8) -> bool
    ensures { result ≡ middle first second }
{
    match first {
        b'#' => second == b'{',
        b'<' | b'>' | b'=' | b'/' => second == b'=',
        b':' => second == b'<',
        b'-' => second == b'>',
        b'.' | b'&' | b'|' => second == first,
        _ => false,
    }
}

/// Whether three bytes are one sign.
pub(crate) fn is_long(first: u8, second: u8, third: u8) -> bool
    ensures { result ≡ long first second third }
{
    let operator = second == b'&' || second == b'|' || second == b'^';
    first == b'.' && operator && third == b'.'
}
