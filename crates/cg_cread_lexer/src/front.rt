// The token at the front of bytes.
ghost use Rattle.std.specs.Prelude.{◌≡◌};
ghost use Rattle.std.specs.List.{list_any};
ghost use Rattle.std.specs.Str.{bytes_eq};
ghost use Rattle.cg_ctree.specs.Tokens.{is_word as is_word_text};
ghost use Rattle.cg_cread_lexer.specs.Front.{whole_found, name_found, number_found, line_found, sign_found, found};

use crate::bytes::{digit_len, is_letter, is_long_sign, is_short_sign, name_len};
use crate::token::TokenKind;
use cg_base::is_digit;

/// The words of C.
const WORDS: [&[u8]; 13] = [
    b"struct",
    b"return",
    b"if",
    b"else",
    b"while",
    b"switch",
    b"case",
    b"break",
    b"sizeof",
    b"uint8_t",
    b"uint16_t",
    b"uint32_t",
    b"uint64_t",
];

/// The first include line.
const FIRST_LINE: &[u8] = b"#include <stdint.h>";

/// The second include line, as long as the first one.
const SECOND_LINE: &[u8] = b"#include \"cogent.h\"";

fn is_among(text: &[u8], texts: &[&[u8]]) -> bool
    ensures { result ≡ list_any (λ t. bytes_eq text.now t.now) texts.now }
{
    texts.iter().any(|other| text == *other)
}

fn is_word(text: &[u8]) -> bool
    ensures { result ≡ is_word_text text.now }
{
    is_among(text, &WORDS)
}

/// What stands at the front of bytes: its kind, how many bytes its text has, and how many it takes, the `ull` of a number
/// among them.
#[derive(Clone, Copy)]
pub(crate) struct Found {
    pub(crate) kind: TokenKind,
    pub(crate) len: usize,
    pub(crate) taken: usize,
}

fn whole(kind: TokenKind, len: usize) -> Found
    ensures { result ≡ whole_found kind len }
{
    Found {
        kind,
        len,
        taken: len,
    }
}

fn name(bytes: &[u8]) -> Found
    ensures { result ≡ name_found bytes.now }
{
    let len = name_len(bytes);
    let kind = if is_word(&bytes[..len]) {
        TokenKind::Word
    } else {
        TokenKind::Name
    };
    whole(kind, len)
}

fn number(bytes: &[u8]) -> Found
    ensures { result ≡ number_found bytes.now }
{
    let len = digit_len(bytes);
    if bytes[len..].starts_with(b"ull") {
        let kind = TokenKind::Literal;
        Found {
            kind,
            len,
            taken: len + 3,
        }
    } else {
        whole(TokenKind::Plain, len)
    }
}

fn line(bytes: &[u8]) -> Found
    ensures { result ≡ line_found bytes.now }
{
    if bytes.starts_with(FIRST_LINE) || bytes.starts_with(SECOND_LINE) {
        whole(TokenKind::Line, FIRST_LINE.len())
    } else {
        whole(TokenKind::Unknown, 0)
    }
}

fn sign(bytes: &[u8]) -> Found
    ensures { result ≡ sign_found bytes.now }
{
    match bytes {
        [b'/', b'*', ..] => whole(TokenKind::Unknown, 0),
        [first, second, ..] if is_long_sign(*first, *second) => whole(TokenKind::Sign, 2),
        [first, ..] if is_short_sign(*first) => whole(TokenKind::Sign, 1),
        _ => whole(TokenKind::Unknown, 0),
    }
}

/// What stands at the front: the longest token that fits, `Unknown` where none does, or `End`.
pub(crate) fn front(bytes: &[u8]) -> Found
    ensures { result ≡ found bytes.now }
{
    match bytes {
        [] => whole(TokenKind::End, 0),
        [first, ..] if is_letter(*first) => name(bytes),
        [first, ..] if is_digit(*first) => number(bytes),
        [b'#', ..] => line(bytes),
        _ => sign(bytes),
    }
}
