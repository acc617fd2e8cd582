// Stores with the cells of heap files.
ghost use Rattle.std.specs.Prelude.{◌≡◌, ◌⊎◌, ℕ, map, None, OnOk, OnErr};
ghost use Rattle.cg_heap.specs.Stored.{cell_at};
ghost use Rattle.cg_heaptext_contents.specs.Placings.{pair_of};
ghost use Rattle.cg_heaptext_def.specs.Footprints.{held_in};
ghost use Rattle.cg_heaptext_def.specs.Placed.{CanBePlaced};
ghost use Rattle.cg_heaptext.specs.Filled.{IsFilled};

use crate::start::Start;
use cg_base::{Items, Memory};
use cg_heap::Store;
use cg_heaptext_contents::Placed;

/// Puts the cells of a heap file into a store that holds none. At `Memory` some of them were placed.
pub fn fill<S: Store>(start: Start, store: &mut S) -> Result<(), Memory>
    requires empty { (q : ℕ) → cell_at (S.stored store.old) q ≡ None }
    requires top { (S.stored store.old).top ≡ 0 }
    requires placeable { CanBePlaced (map pair_of start.cells) }
    ensures ok { OnOk result (IsFilled (map pair_of start.cells) (S.stored store.new)) }
    ensures err { OnErr result ((q : ℕ) → (cell_at (S.stored store.new) q ≡ None) ⊎ (cell_at (S.stored store.new) q ≡ held_in (map pair_of start.cells) q)) }
{
    place_all(start.cells, store)
}

// Puts cells into a store that holds none, the last one first.
fn place_all<S: Store>(cells: Items<Placed>, store: &mut S) -> Result<(), Memory>
    requires empty { (q : ℕ) → cell_at (S.stored store.old) q ≡ None }
    requires top { (S.stored store.old).top ≡ 0 }
    requires placeable { CanBePlaced (map pair_of cells) }
    ensures ok { OnOk result (IsFilled (map pair_of cells) (S.stored store.new)) }
    ensures err { OnErr result ((q : ℕ) → (cell_at (S.stored store.new) q ≡ None) ⊎ (cell_at (S.stored store.new) q ≡ held_in (map pair_of cells) q)) }
{
    let mut left = cells;
    while let Some(placed) = left.pop() {
        store.place(placed.at, placed.cell)?;
    }
    Ok(())
}
