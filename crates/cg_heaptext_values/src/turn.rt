// What tokens are to what stands in brackets.
ghost use Rattle.std.specs.Prelude.{◌≡◌};
ghost use Rattle.cg_heaptext_values.specs.Turns.{name_kind, opening, read_leading, read_turn, sign_leading as sign_leading_of, sign_turn as sign_turn_of};

use cg_heaptext_lexer::{Token, TokenKind};

/// What a token does: it opens a tuple, an unboxed record or parentheses, closes one, parts what stands in it, or none of these. `Over`
/// stands where no token does.
#[derive(Clone, Copy)]
pub enum Turn {
    Opens,
    Closes,
    Parts,
    Stays,
    Over,
}

fn sign_turn(text: &[u8]) -> Turn
    ensures { result ≡ sign_turn_of text.now }
{
    if text == b"(".as_slice() || text == b"#{".as_slice() {
        Turn::Opens
    } else if text == b")".as_slice() || text == b"}".as_slice() {
        Turn::Closes
    } else if text == b",".as_slice() {
        Turn::Parts
    } else {
        Turn::Stays
    }
}

pub(crate) fn turn_of(token: &Token) -> Turn
    ensures { result ≡ read_turn token.now.kind token.now.text.now }
{
    match token.kind {
        TokenKind::Number | TokenKind::Lower | TokenKind::Upper => Turn::Stays,
        TokenKind::Sign => sign_turn(token.text),
        TokenKind::Unknown | TokenKind::End => Turn::Over,
    }
}

/// What a token is in front of a value: a parenthesis that opens, one that closes, or another.
#[derive(Clone, Copy)]
pub enum Leading {
    Opens,
    Closes,
    Other,
}

fn sign_leading(text: &[u8]) -> Leading
    ensures { result ≡ sign_leading_of text.now }
{
    if text == b"(".as_slice() {
        Leading::Opens
    } else if text == b")".as_slice() {
        Leading::Closes
    } else {
        Leading::Other
    }
}

pub(crate) fn leading_of(token: &Token) -> Leading
    ensures { result ≡ read_leading token.now.kind token.now.text.now }
{
    match token.kind {
        TokenKind::Sign => sign_leading(token.text),
        _ => Leading::Other,
    }
}

/// What a sign begins, where a value stands: an address, an unboxed record, or what is in parentheses.
#[derive(Clone, Copy)]
pub enum Opening {
    Address,
    Record,
    Parenthesis,
}

pub(crate) fn opening_of(text: &[u8]) -> Opening
    ensures { result ≡ opening text.now }
{
    if text == b"@".as_slice() {
        Opening::Address
    } else if text == b"#{".as_slice() {
        Opening::Record
    } else {
        Opening::Parenthesis
    }
}

/// What a large name is.
#[derive(Clone, Copy)]
pub enum NameKind {
    True,
    False,
    Constructor,
}

pub(crate) fn kind_of(name: &[u8]) -> NameKind
    ensures { result ≡ name_kind name.now }
{
    if name == b"True".as_slice() {
        NameKind::True
    } else if name == b"False".as_slice() {
        NameKind::False
    } else {
        NameKind::Constructor
    }
}
