// Tokens.
use cg_base::Place;

/// What a token is. `Lower` begins with a small letter or the line below, words of the language and `_` alone among them; `Upper` with a
/// large letter. `Unknown` is a byte that begins no token. `End` stands behind the last byte.
#[derive(Clone, Copy, Debug, PartialEq, Eq)]
pub enum TokenKind {
    Number,
    Lower,
    Upper,
    Sign,
    Unknown,
    End,
}

/// A token: its text in the heap file, and the place of its first byte. The text of `Unknown` and of `End` is empty.
#[derive(Clone, Copy, Debug)]
pub struct Token<'a> {
    pub kind: TokenKind,
    pub text: &'a [u8],
    pub place: Place,
}
