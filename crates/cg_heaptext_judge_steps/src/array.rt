// The elements of an array.
ghost use Rattle.std.specs.Prelude.{◌≡◌, ◌+◌, List};
ghost use Rattle.cg_base.specs.declared.place.Place.{Place};
ghost use Rattle.cg_heaptext_cells.specs.ByKind.{read_by};
ghost use Rattle.cg_heaptext_cells.specs.Lists.{marked};
ghost use Rattle.cg_heaptext_cells.specs.declared.list.Mark.TheVariants.{Over};
ghost use Rattle.cg_heaptext_def.specs.Trees as trees;
ghost use Rattle.cg_heaptext_def.specs.Trees.{elements};
ghost use Rattle.cg_heaptext_entries.specs.Index.{CellStands};
ghost use Rattle.cg_heaptext_judge_steps.specs.Steps.{counted_all, is_comma_mark, is_item_mark};

use cg_base::Place;
use cg_heaptext_entries::Numeral;
use cg_heaptext_judge_notes::note_number;
use cg_heaptext_lexer::{Lexer, Token, TokenKind};

// Whether a token is an item of a list.
fn is_item(token: &Token) -> bool
    ensures { result ≡ is_item_mark (read_by marked Over token.now.kind token.now.text.now) }
{
    match token.kind {
        TokenKind::Number => true,
        TokenKind::Lower | TokenKind::Upper | TokenKind::Sign => false,
        TokenKind::Unknown | TokenKind::End => false,
    }
}

// Whether a token is the comma between two items.
fn is_comma(token: &Token) -> bool
    ensures { result ≡ is_comma_mark (read_by marked Over token.now.kind token.now.text.now) }
{
    match token.kind {
        TokenKind::Sign => token.text == b",".as_slice(),
        TokenKind::Number | TokenKind::Lower | TokenKind::Upper => false,
        TokenKind::Unknown | TokenKind::End => false,
    }
}

/// The earliest of the number that was found before to pass its type, where there is one, and of the elements of an array that are above
/// `most` (docs/LANGUAGE.md, "Heap files", H5). It takes time in proportion to the bytes of the cell.
pub(crate) fn note_elements(over: Option<Place>, cell: &Lexer, most: u64) -> Option<Place>
    ensures { (p : Place) (ns : List trees.Numeral) → CellStands cell.now (elements p ns) → result ≡ counted_all over ns (most + 1) }
{
    let mut found = over;
    let mut lexer = cell.copy();
    lexer.next();
    loop {
        let token = lexer.next();
        if is_item(&token) {
            let number = Numeral {
                place: token.place,
                digits: token.text,
            };
            found = note_number(found, &number, most);
        } else if !is_comma(&token) {
            return found;
        }
    }
}
