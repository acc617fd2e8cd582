// Tokens.
use cg_base::Place;

/// What a token is. The wildcard `_` is a sign. A number is None where it is above 2^64 - 1. `End` stands behind the
/// last byte.
#[derive(Clone, Copy, Debug, PartialEq, Eq)]
pub enum TokenKind {
    Lower,
    Upper,
    Number(Option<u64>),
    Word,
    Sign,
    End,
}

/// A token: its text in the source; the place of its first byte; whether no token stands before it on its line; and whether no
/// byte stands between it and the token before it. The first token of a source is not joined.
#[derive(Clone, Copy, Debug)]
pub struct Token<'a> {
    pub kind: TokenKind,
    pub text: &'a [u8],
    pub place: Place,
    pub first: bool,
    pub joined: bool,
}

/// Why no token can be read: a byte that begins none, at its place; or a comment that isn't closed, at its beginning.
#[derive(Clone, Copy, Debug, PartialEq, Eq)]
pub enum LexFault {
    UnknownByte(Place),
    OpenComment(Place),
}
