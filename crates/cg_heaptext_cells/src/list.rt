// Lists with commas between their items: the elements of an array, and the answers of an allocator.
ghost use Rattle.std.specs.Prelude.{◌≡◌};
ghost use Rattle.cg_heaptext_cells.specs.ByKind.{read_by};
ghost use Rattle.cg_heaptext_cells.specs.Lists.{marked, sign_mark as sign_mark_of};
ghost use Rattle.cg_heaptext_cells.specs.declared.list.Mark.TheVariants.{Over};

use cg_heaptext_lexer::{Token, TokenKind};

/// What a token is in a list: an item, a comma, or none of it. `Over` stands too where no token does.
#[derive(Clone, Copy)]
pub enum Mark {
    Item,
    Comma,
    Over,
}

fn sign_mark(text: &[u8]) -> Mark
    ensures { result ≡ sign_mark_of text.now }
{
    if text == b",".as_slice() {
        Mark::Comma
    } else {
        Mark::Over
    }
}

pub(crate) fn mark_of(token: &Token) -> Mark
    ensures { result ≡ read_by marked Over token.now.kind token.now.text.now }
{
    match token.kind {
        TokenKind::Number => Mark::Item,
        TokenKind::Sign => sign_mark(token.text),
        TokenKind::Lower | TokenKind::Upper | TokenKind::Unknown | TokenKind::End => Mark::Over,
    }
}
