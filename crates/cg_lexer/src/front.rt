// The token at the front of bytes.
ghost use Rattle.std.specs.Prelude.{◌≡◌};
ghost use Rattle.std.specs.List.{list_any};
ghost use Rattle.std.specs.Str.{bytes_eq};
ghost use Rattle.cg_lexer.specs.Front.{sign_length, token_length, front_length, kind_of};
ghost use Rattle.cg_lexer.specs.Tokens.{is_word as is_word_text};

use crate::bytes::{is_large, is_long, is_middle, is_short, is_small, name_len};
use crate::gap::opens;
use crate::number::{number, number_len};
use crate::token::TokenKind;
use cg_base::is_digit;

/// How many bytes the sign at the front has; 0 where none stands there.
fn sign_len(bytes: &[u8]) -> usize
    ensures { result ≡ sign_length bytes.now }
{
    match bytes {
        [first, second, third, ..] if is_long(*first, *second, *third) => 3,
        [first, second, ..] if is_middle(*first, *second) => 2,
        [first, ..] if is_short(*first) => 1,
        _ => 0,
    }
}

/// How many bytes the token at the front has; 0 where none stands there.
fn token_len(bytes: &[u8]) -> usize
    ensures { result ≡ token_length bytes.now }
{
    match bytes {
        [first, ..] if is_small(*first) || is_large(*first) => name_len(bytes),
        [first, ..] if is_digit(*first) => number_len(bytes),
        _ => sign_len(bytes),
    }
}

/// How many bytes the token at the front has; 0 where a block comment begins, and where no token stands.
pub(crate) fn front_len(bytes: &[u8]) -> usize
    ensures { result ≡ front_length bytes.now }
{
    if opens(bytes) { 0 } else { token_len(bytes) }
}

/// The words of the language.
const WORDS: [&[u8]; 14] = [
    b"type",
    b"let",
    b"in",
    b"and",
    b"if",
    b"then",
    b"else",
    b"take",
    b"all",
    b"not",
    b"complement",
    b"upcast",
    b"True",
    b"False",
];

fn is_among(text: &[u8], texts: &[&[u8]]) -> bool
    ensures { result ≡ list_any (λ t. bytes_eq text.now t.now) texts.now }
{
    texts.iter().any(|other| text == *other)
}

fn is_word(text: &[u8]) -> bool
    ensures { result ≡ is_word_text text.now }
{
    is_among(text, &WORDS)
}

/// The kind of a token with this text; the end's where it is empty.
pub(crate) fn kind(text: &[u8]) -> TokenKind
    ensures { result ≡ kind_of text.now }
{
    match text {
        [] => TokenKind::End,
        [first, ..] if is_digit(*first) => TokenKind::Number(number(text)),
        _ if is_word(text) => TokenKind::Word,
        [first, ..] if is_large(*first) => TokenKind::Upper,
        b"_" => TokenKind::Sign,
        [first, ..] if is_small(*first) => TokenKind::Lower,
        _ => TokenKind::Sign,
    }
}
