// The lexer.
ghost use Rattle.std.specs.Prelude.{◌≡◌};
ghost use Rattle.cg_lexer.specs.Tokens.{start};
ghost use Rattle.cg_lexer.specs.Next.{Next, stop_at};

use crate::front::{front_len, kind};
use crate::gap::{gap_len, is_first, is_joined, opens};
use crate::token::{LexFault, Token};
use cg_base::Place;
use std::marker::Model;

/// What is answered where no token is found: the end, whose token this is, or a fault at its place.
fn stop<'a>(rest: &[u8], token: Token<'a>) -> Result<Token<'a>, LexFault>
    ensures { result ≡ stop_at rest.now token.entry }
{
    if rest.is_empty() {
        Ok(token)
    } else if opens(rest) {
        Err(LexFault::OpenComment(token.place))
    } else {
        Err(LexFault::UnknownByte(token.place))
    }
}

/// Reads a source token by token. A contract sees what is left of it, where that begins, and whether a token ends there. The
/// last answer is kept, the end or a fault, once it was given.
#[derive(Drop)]
pub struct Lexer<'a> {
    rest: &'a [u8],
    place: Place,
    behind: bool,
    last: Option<Result<Token<'a>, LexFault>>,
}

impl<'a> Model for Lexer<'a> {
    ghost use Rattle.cg_lexer.specs.Tokens.{Cursor};
    ghost use Rattle.cg_lexer.specs.Next.{Stays};

    ghost Value = { Cursor };

    ghost view = { λ l. record { rest = l.rest.now; place = l.place; behind = l.behind } };

    ghost invariant = { λ l. Stays (record { rest = l.rest.now; place = l.place; behind = l.behind }) l.last };
}

impl<'a> Lexer<'a> {
    /// Begins at the first byte, line 1 and column 1.
    pub fn new(bytes: &'a [u8]) -> Lexer<'a>
        ensures { result ≡ start bytes.now }
    {
        Lexer {
            rest: bytes,
            place: Place { line: 1, column: 1 },
            behind: false,
            last: None,
        }
    }

    /// The next token, the longest that fits (docs/LANGUAGE.md, "Tokens"); behind the last one the kind `End`, for ever. A byte
    /// that begins no token, and a comment that isn't closed, are faults, also for ever. It takes no memory, and all calls
    /// together take time in proportion to the bytes of the source and to the calls.
    pub fn next(&mut self) -> Result<Token<'a>, LexFault>
        ensures { Next self.old result self.new }
    {
        if let Some(answer) = self.last {
            return answer;
        }
        let (gap, rest) = self.rest.split_at(gap_len(self.rest));
        let (text, after) = rest.split_at(front_len(rest));
        let place = self.place.behind(gap);
        let token = Token {
            kind: kind(text),
            text,
            place,
            first: is_first(self.behind, gap),
            joined: is_joined(self.behind, gap),
        };
        if !text.is_empty() {
            self.rest = after;
            self.place = place.behind(text);
            self.behind = true;
            return Ok(token);
        }
        let answer = stop(rest, token);
        self.last = Some(answer);
        answer
    }
}
