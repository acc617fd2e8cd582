// The lexer.
ghost use Rattle.std.specs.Prelude.{◌≡◌, length};
ghost use Rattle.cg_heaptext_lexer.specs.Next.{Next, start};

use crate::front::{Found, front, gap_len};
use crate::token::Token;
use cg_base::Place;
use std::marker::Model;

/// Reads a heap file token by token. A contract sees what is left of it, and where that begins.
#[derive(Drop)]
pub struct Lexer<'a> {
    rest: &'a [u8],
    place: Place,
}

impl<'a> Model for Lexer<'a> {
    ghost use Rattle.cg_heaptext_lexer.specs.Next.{Cursor};

    ghost Value = { Cursor };

    ghost view = { λ l. record { rest = l.rest.now; place = l.place } };
}

impl<'a> Lexer<'a> {
    /// Begins at the first byte, line 1 and column 1.
    pub fn new(bytes: &'a [u8]) -> Lexer<'a>
        ensures { result ≡ start bytes.now }
    {
        Lexer {
            rest: bytes,
            place: Place { line: 1, column: 1 },
        }
    }

    /// Another lexer at the same place of the same file. Each reads on by itself.
    pub fn copy(&self) -> Lexer<'a>
        ensures { result ≡ self.now }
    {
        Lexer {
            rest: self.rest,
            place: self.place,
        }
    }

    /// How many bytes are left.
    pub fn left(&self) -> usize
        ensures { result ≡ length self.now.rest }
    {
        self.rest.len()
    }

    /// The next token, the longest that fits (docs/LANGUAGE.md, "Heap files"); behind the last one `End`, for ever. At a byte that begins
    /// no token, `Unknown`, for ever. It takes no memory, and time in proportion to the bytes that it passes.
    pub fn next(&mut self) -> Token<'a>
        ensures { Next self.old result self.new }
    {
        let (gap, rest) = self.rest.split_at(gap_len(self.rest));
        let Found { kind, len } = front(rest);
        let (text, after) = rest.split_at(len);
        let place = self.place.behind(gap);
        self.rest = after;
        self.place = place.behind(text);
        Token { kind, text, place }
    }
}
