// The lexer.
ghost use Rattle.std.specs.Prelude.{◌≡◌};
ghost use Rattle.cg_cread_lexer.specs.Next.{Next, start};

use crate::front::{Found, front};
use crate::gap::gap_len;
use crate::token::Token;
use cg_base::Place;
use std::marker::Model;

/// Reads a C text token by token. A contract sees what is left of it, and where that begins.
#[derive(Drop)]
pub struct Lexer<'a> {
    rest: &'a [u8],
    place: Place,
}

impl<'a> Model for Lexer<'a> {
    ghost use Rattle.cg_cread_lexer.specs.Next.{Cursor};

    ghost Value = { Cursor };

    ghost view = { λ l. record { rest = l.rest.now; place = l.place } };
}

impl<'a> Lexer<'a> {
    /// Begins at the first byte, line 1 and column 1.
    pub fn new(bytes: &'a [u8]) -> Lexer<'a>
        ensures { result ≡ start bytes.now }
    {
        Lexer {
            rest: bytes,
            place: Place { line: 1, column: 1 },
        }
    }

    /// The next token, the longest that fits (docs/LANGUAGE.md, "The C text"); behind the last one `End`, for ever. At a byte
    /// that begins no token, and at a comment that isn't closed, `Unknown`, for ever. It takes no memory, and time in
    /// proportion to the bytes that it passes.
    pub fn next(&mut self) -> Token<'a>
        ensures { Next self.old result self.new }
    {
        let (gap, rest) = self.rest.split_at(gap_len(self.rest));
        let Found { kind, len, taken } = front(rest);
        let (token, after) = rest.split_at(taken);
        let place = self.place.behind(gap);
        self.rest = after;
        self.place = place.behind(token);
        Token {
            kind,
            text: &rest[..len],
            later: gap.contains(&b'\n'),
            place,
        }
    }
}
