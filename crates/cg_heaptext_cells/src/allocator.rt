// The answers of an allocator.
ghost use Rattle.std.specs.Prelude.{◌≡◌, Bool, List, codes, IfOk};
ghost use Rattle.std.specs.Str.{bytes_eq};
ghost use Rattle.cg_base.specs.declared.place.Place.{Place};
ghost use Rattle.cg_heaptext_def.specs.Trees as trees;
ghost use Rattle.cg_heaptext_entries.specs.Index.{CellStands};

use crate::list::{Mark, mark_of};
use cg_base::{Items, Memory};
use cg_heaptext_lexer::{Lexer, Token};
use std::alloc::Global;

fn is_yes(token: &Token) -> bool
    ensures { result ≡ bytes_eq token.now.text.now (codes "1") }
{
    token.text == b"1".as_slice()
}

/// The answers of the allocator at whose first token the lexer stands, the next one first (docs/LANGUAGE.md, "Heap files"); or `Memory`
/// where memory is wanting. The lexer stays there. It takes time and memory in proportion to the cell.
pub fn answers(alloc: Global, cell: &Lexer) -> Result<Items<bool>, Memory>
    ensures { (p : Place) (bs : List Bool) → CellStands cell.now (trees.answers p bs) → IfOk result (λ r. r ≡ bs) }
{
    let mut lexer = cell.copy();
    lexer.next();
    let mut answers = Items::new(alloc);
    loop {
        let token = lexer.next();
        let answer = match mark_of(&token) {
            Mark::Item => is_yes(&token),
            Mark::Comma => continue,
            Mark::Over => return Ok(answers),
        };
        answers.push(answer)?;
    }
}
