// The token at the front of bytes.
ghost use Rattle.std.specs.Prelude.{◌≡◌, ◌≤◌, [], ◌∷◌, length};
ghost use Rattle.std.specs.List.{prefix_len};
ghost use Rattle.cg_base.specs.Bytes.{digit, white};
ghost use Rattle.cg_lexer.specs.Bytes.{large, part_of_name, small};
ghost use Rattle.cg_heaptext_def.specs.Tokens.{is_sign as is_sign_text};
ghost use Rattle.cg_heaptext_lexer.specs.Front.{found, found_of, sign_found};

use crate::token::TokenKind;
use cg_base::{is_digit, is_white};

fn is_small(byte: u8) -> bool
    ensures { result ≡ small byte }
{
    byte.is_ascii_lowercase() || byte == b'_'
}

fn is_part_of_name(byte: u8) -> bool
    ensures { result ≡ part_of_name byte }
{
    is_small(byte) || byte.is_ascii_uppercase() || is_digit(byte) || byte == b'\''
}

fn name_len(bytes: &[u8]) -> usize
    ensures { result ≡ prefix_len part_of_name bytes.now }
{
    bytes
        .iter()
        .take_while(|byte| is_part_of_name(**byte))
        .count()
}

fn digit_len(bytes: &[u8]) -> usize
    ensures { result ≡ prefix_len digit bytes.now }
{
    bytes.iter().take_while(|byte| is_digit(**byte)).count()
}

/// How many bytes of white space stand in front.
pub(crate) fn gap_len(bytes: &[u8]) -> usize
    ensures count { result ≡ prefix_len white bytes.now }
    ensures within { result ≤ length bytes.now }
{
    bytes.iter().take_while(|byte| is_white(**byte)).count()
}

fn is_sign(byte: u8) -> bool
    ensures { result ≡ is_sign_text (byte ∷ []) }
{
    b"@=,{}[]<>()".contains(&byte)
}

/// What stands at the front of bytes: its kind, and how many bytes its text has.
#[derive(Clone, Copy)]
pub(crate) struct Found {
    pub(crate) kind: TokenKind,
    pub(crate) len: usize,
}

fn of(kind: TokenKind, len: usize) -> Found
    ensures { result ≡ found_of kind len }
{
    Found { kind, len }
}

fn sign(bytes: &[u8]) -> Found
    ensures { result ≡ sign_found bytes.now }
{
    match bytes {
        [b'#', b'{', ..] => of(TokenKind::Sign, 2),
        [first, ..] if is_sign(*first) => of(TokenKind::Sign, 1),
        _ => of(TokenKind::Unknown, 0),
    }
}

/// What stands at the front: the longest token that fits, `Unknown` where none does, or `End`.
pub(crate) fn front(bytes: &[u8]) -> Found
    ensures { result ≡ found bytes.now }
{
    match bytes {
        [] => of(TokenKind::End, 0),
        [first, ..] if is_digit(*first) => of(TokenKind::Number, digit_len(bytes)),
        [first, ..] if is_small(*first) => of(TokenKind::Lower, name_len(bytes)),
        [first, ..] if first.is_ascii_uppercase() => of(TokenKind::Upper, name_len(bytes)),
        _ => sign(bytes),
    }
}
