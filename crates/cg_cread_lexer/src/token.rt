// Tokens.
use cg_base::Place;

/// What a token is. `Plain` is a number without `ull`, `Literal` one with it, `Line` an include line. `Unknown` is a byte that
/// begins no token, or a comment that isn't closed. `End` stands behind the last byte.
#[derive(Clone, Copy, Debug, PartialEq, Eq)]
pub enum TokenKind {
    Name,
    Word,
    Plain,
    Literal,
    Sign,
    Line,
    Unknown,
    End,
}

/// A token: its text in the C text, of a literal the digits alone; whether it stands on a later line than the token before it,
/// or than the beginning; and the place of its first byte. The text of `Unknown` and of `End` is empty.
#[derive(Clone, Copy, Debug)]
pub struct Token<'a> {
    pub kind: TokenKind,
    pub text: &'a [u8],
    pub later: bool,
    pub place: Place,
}
