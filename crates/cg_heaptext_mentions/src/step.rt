// What a token does to what is open, and where a mention begins.
ghost use Rattle.std.specs.Prelude.{◌≡◌};
ghost use Rattle.cg_heaptext_mentions.specs.Steps.{read_step, sign_step as sign_step_of};

use cg_heaptext_lexer::{Token, TokenKind};

/// A mention begins with a token, or it opens an unboxed record, or closes one or the cell, or does none of these. `Over` stands where no
/// token does.
#[derive(Clone, Copy)]
pub enum Step {
    At,
    Opens,
    Closes,
    Stays,
    Over,
}

fn sign_step(text: &[u8]) -> Step
    ensures { result ≡ sign_step_of text.now }
{
    if text == b"@".as_slice() {
        Step::At
    } else if text == b"#{".as_slice() {
        Step::Opens
    } else if text == b"}".as_slice() || text == b"]".as_slice() || text == b">".as_slice() {
        Step::Closes
    } else {
        Step::Stays
    }
}

pub(crate) fn step_of(token: &Token) -> Step
    ensures { result ≡ read_step token.now.kind token.now.text.now }
{
    match token.kind {
        TokenKind::Number | TokenKind::Lower | TokenKind::Upper => Step::Stays,
        TokenKind::Sign => sign_step(token.text),
        TokenKind::Unknown | TokenKind::End => Step::Over,
    }
}
