// The elements of an array.
ghost use Rattle.std.specs.Prelude.{◌≡◌, List, map, IfOk};
ghost use Rattle.cg_base.specs.declared.place.Place.{Place};
ghost use Rattle.cg_heaptext_def.specs.Small.{capped_number};
ghost use Rattle.cg_heaptext_def.specs.Trees as trees;
ghost use Rattle.cg_heaptext_def.specs.Trees.{Numeral, amount};
ghost use Rattle.cg_heaptext_entries.specs.Index.{CellStands};
ghost use Rattle.cg_heaptext_places.specs.Noted.{IsLeast};
ghost use Rattle.cg_heaptext_cells.specs.Cells.{IsAbove};

use crate::list::{Mark, mark_of};
use crate::numbers::{Elements, note, number};
use cg_base::{Items, Memory};
use cg_heaptext_lexer::Lexer;
use std::alloc::Global;

/// The elements of the array at whose first token the lexer stands, and the earliest of those that are above `most` (docs/LANGUAGE.md,
/// "Heap files"); or `Memory` where memory is wanting. An element above 2^64 - 1 is given as that. The lexer stays there. It takes time and
/// memory in proportion to the cell.
pub fn elements(alloc: Global, cell: &Lexer, most: u64) -> Result<Elements, Memory>
    ensures { (p : Place) (ns : List Numeral) → CellStands cell.now (trees.elements p ns)
        → IfOk result (λ r. IsLeast (IsAbove most ns) r.over × (r.numbers ≡ map capped_number (map amount ns))) }
{
    let mut lexer = cell.copy();
    lexer.next();
    let mut numbers = Items::new(alloc);
    let mut over = None;
    loop {
        let token = lexer.next();
        match mark_of(&token) {
            Mark::Item => {
                numbers.push(number(token.text))?;
                over = note(over, &token, most);
            }
            Mark::Comma => {}
            Mark::Over => return Ok(Elements { numbers, over }),
        }
    }
}
