// Passing over a cell.
ghost use Rattle.std.specs.Prelude.{◌≡◌, ◌≤◌, ℕ, zero, List, length, Some};
ghost use Rattle.cg_heaptext_def.specs.Tokens.{Lexeme};
ghost use Rattle.cg_heaptext_entries.specs.Index.{Before};
ghost use Rattle.cg_heaptext_entries.specs.Passes.{IsNoLonger, PassesCell};
ghost use Rattle.cg_heaptext_entries.specs.Skip.{read_turn, skipped, sign_turn as sign_turn_of};

use cg_heaptext_lexer::{Lexer, Token, TokenKind};

/// What a token does to the depth: it opens an unboxed record, closes one or the cell, or neither. `Over` stands where no token does.
#[derive(Clone, Copy)]
pub enum Turn {
    Opens,
    Closes,
    Stays,
    Over,
}

fn sign_turn(text: &[u8]) -> Turn
    ensures { result ≡ sign_turn_of text.now }
{
    if text == b"#{".as_slice() {
        Turn::Opens
    } else if text == b"}".as_slice() || text == b"]".as_slice() || text == b">".as_slice() {
        Turn::Closes
    } else {
        Turn::Stays
    }
}

fn turn_of(token: &Token) -> Turn
    ensures { result ≡ read_turn token.now.kind token.now.text.now }
{
    match token.kind {
        TokenKind::Number | TokenKind::Lower | TokenKind::Upper => Turn::Stays,
        TokenKind::Sign => sign_turn(token.text),
        TokenKind::Unknown | TokenKind::End => Turn::Over,
    }
}

// Passes what is left of a cell behind its first token. No more than `most` bytes are left.
fn skip_inside(lexer: &mut Lexer, most: usize)
    requires { length lexer.old.rest ≤ most }
    ensures passes { (ts : List Lexeme) → Before lexer.old ts → Before lexer.new (skipped (Some zero) ts) }
    ensures shorter { IsNoLonger lexer.old lexer.new }
{
    let mut depth: usize = 0;
    loop {
        let token = lexer.next();
        match turn_of(&token) {
            Turn::Opens => depth += 1,
            Turn::Closes if depth == 0 => return,
            Turn::Closes => depth -= 1,
            Turn::Stays => {}
            Turn::Over => return,
        }
    }
}

// Passes a cell. No more than `most` bytes are left.
pub(crate) fn skip_cell(lexer: &mut Lexer, most: usize)
    requires { length lexer.old.rest ≤ most }
    ensures passes { PassesCell lexer.old lexer.new }
    ensures shorter { IsNoLonger lexer.old lexer.new }
{
    lexer.next();
    skip_inside(lexer, most);
}
