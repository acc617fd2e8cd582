// The slots of a record that nobody reaches.
ghost use Rattle.std.specs.Prelude.{◌≡◌, map, IfOk};
ghost use Rattle.cg_base.specs.declared.place.Place.{Place};
ghost use Rattle.cg_heaptext_def.specs.HeapText.{numerals_in};
ghost use Rattle.cg_heaptext_def.specs.Reading.{loose_fields};
ghost use Rattle.cg_heaptext_def.specs.Small.{capped, most_word};
ghost use Rattle.cg_heaptext_def.specs.Trees as trees;
ghost use Rattle.cg_heaptext_def.specs.Trees.{Fields};
ghost use Rattle.cg_heaptext_entries.specs.Index.{CellStands};
ghost use Rattle.cg_heaptext_places.specs.Noted.{IsLeast};
ghost use Rattle.cg_heaptext_cells.specs.Cells.{IsAbove};

use crate::pieces::{Held, add, depth_behind, gift_of, held_of, note_gift};
use cg_base::{Items, Memory, Place};
use cg_heap::Scalar;
use cg_heaptext_lexer::Lexer;
use std::alloc::Global;

/// The slots of a record that nobody reaches, and the earliest place of its numbers that are above 2^64 - 1. A number or an address above
/// that is given as 2^64 - 1.
#[derive(Drop)]
pub struct Loose {
    pub slots: Items<Scalar>,
    pub over: Option<Place>,
}

/// The slots of the record at whose first token the lexer stands, where nobody reaches it and it keeps any form, and the earliest of its
/// numbers that are above 2^64 - 1 (docs/LANGUAGE.md, "Heap files"); or `Memory` where memory is wanting. A number or an address above that is
/// given as 2^64 - 1. The lexer stays there. It takes time and memory in proportion to the cell.
pub fn loose_slots(alloc: Global, cell: &Lexer) -> Result<Loose, Memory>
    ensures { (p : Place) (fs : Fields) → CellStands cell.now (trees.slots p fs)
        → IfOk result (λ r. IsLeast (IsAbove most_word (numerals_in fs)) r.over × (r.slots ≡ map capped (loose_fields fs))) }
{
    let mut lexer = cell.copy();
    lexer.next();
    let mut slots = Items::new(alloc);
    let mut over = None;
    let mut held = Held::Free;
    let mut depth = 0;
    loop {
        let token = lexer.next();
        let gift = gift_of(held, &token);
        add(&mut slots, gift, &token)?;
        over = note_gift(over, gift, &token);
        held = held_of(&token);
        match depth_behind(&token, depth)? {
            Some(behind) => depth = behind,
            None => return Ok(Loose { slots, over }),
        }
    }
}
