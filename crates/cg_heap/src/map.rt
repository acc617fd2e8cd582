// A store over an ordered map.
ghost use Rattle.std.specs.Prelude.{◌≡◌, ◌<◌, ◌^◌, IfOk, OnOk, OnErr, Some, replicate};
ghost use Rattle.std.specs.BTreeMap.{Updates};
ghost use Rattle.std.specs.FinMap as map;
ghost use Rattle.std.specs.Ordering.{nat_cmp};
ghost use Rattle.cg_heap.specs.Stored.{cell_length, fresh_cell};

use crate::held::HeldCell;
use crate::{Cell, Form, Fresh, Scalar, Store};
use cg_base::{Items, Memory};
use std::alloc::Global;
use std::collections::BTreeMap;
use std::marker::Model;

/// A store whose cells stand in an ordered map, which contracts see as what it holds. A call takes time that grows as the
/// logarithm of the number of cells; to make a cell or to take it out also takes time in proportion to its length.
#[derive(Drop)]
pub struct MapStore {
    alloc: Global,
    cells: BTreeMap<u64, HeldCell>,
    top: u64,
}

impl Model for MapStore {
    ghost use Rattle.std.specs.Coded.{codes};
    ghost use Rattle.cg_heap.specs.Stored.{Stored, IsSound};
    ghost use Rattle.cg_heap.specs.Codes.{coded_stored};

    ghost Value = { Stored };

    ghost coded = { coded_stored (Prim.hlevel codes) };

    ghost use Rattle.cg_heap.specs.Mapped.{mapped};

    ghost view = { λ store. mapped store.cells.entries store.top };

    ghost invariant = { λ store. IsSound (mapped store.cells.entries store.top) };
}

impl MapStore {
    /// A store without a cell. It takes no memory.
    pub fn new(alloc: Global) -> MapStore
        ensures { result ≡ record { cells = map.empty; top = 0 } }
    {
        MapStore {
            alloc,
            cells: BTreeMap::new(alloc),
            top: 0,
        }
    }
}

impl Store for MapStore {
    ghost stored = { λ store. store };

    fn top(&self) -> u64 {
        self.top
    }

    fn len(&self, at: u64) -> Option<u32> {
        match self.cells.get(&at) {
            Some(cell) => Some(cell.len() as u32),
            None => None,
        }
    }

    fn form(&self, at: u64) -> Option<Form> {
        match self.cells.get(&at) {
            Some(cell) => Some(cell.form()),
            None => None,
        }
    }

    fn get(&self, at: u64, slot: u32) -> Option<Scalar> {
        self.cells.get(&at)?.get(slot)
    }

    fn answer(&self, at: u64, index: u32) -> Option<bool> {
        self.cells.get(&at)?.answer(index)
    }

    fn set_field(&mut self, at: u64, slot: u32, value: Scalar) -> bool {
        match self.cells.get_mut(&at) {
            Some(cell) => cell.set_field(slot, value),
            None => false,
        }
    }

    fn set_element(&mut self, at: u64, index: u32, value: u64) -> bool {
        match self.cells.get_mut(&at) {
            Some(cell) => cell.set_element(index, value),
            None => false,
        }
    }

    fn pop(&mut self, at: u64) -> Option<bool> {
        match self.cells.get_mut(&at) {
            Some(cell) => cell.pop(),
            None => None,
        }
    }

    fn add(&mut self, fresh: Fresh) -> Result<u64, Memory> {
        let cell = made(self.alloc, fresh)?;
        let at = self.top + 1;
        put_at(&mut self.cells, at, cell)?;
        self.top = at;
        Ok(at)
    }

    fn place(&mut self, at: u64, cell: Cell) -> Result<(), Memory> {
        put_at(&mut self.cells, at, cell)?;
        self.top = self.top.max(at);
        Ok(())
    }

    fn remove(&mut self, at: u64) -> bool {
        match self.cells.remove(&at) {
            Some(cell) => {
                drop(cell);
                true
            }
            None => false,
        }
    }
}

// Puts a cell at an address, over one that is there. Without memory nothing has changed.
fn put_at(cells: &mut BTreeMap<u64, HeldCell>, at: u64, cell: Cell) -> Result<(), Memory>
    ensures ok { OnOk result (Updates nat_cmp cells.old cells.new at (Some cell)) }
    ensures err { OnErr result (cells.new.entries ≡ cells.old.entries) }
{
    cells.insert(at, HeldCell::new(cell))?;
    Ok(())
}

// A new cell.
fn made(alloc: Global, fresh: Fresh) -> Result<Cell, Memory>
    ensures cell { IfOk result (λ cell. cell ≡ fresh_cell fresh) }
    ensures short { IfOk result (λ cell. cell_length cell < 2 ^ 32) }
{
    Ok(match fresh {
        Fresh::Slots(count) => Cell::Slots(repeated(alloc, Scalar::Unset, count)?),
        Fresh::Words(count) => Cell::Words(repeated(alloc, 0, count)?),
    })
}

// So many times one item.
fn repeated<T: Copy>(alloc: Global, item: T, count: u32) -> Result<Items<T>, Memory>
    ensures { IfOk result (λ items. items ≡ replicate count item) }
{
    let mut items = Items::new(alloc);
    for _ in 0..count {
        items.push(item)?;
    }
    Ok(items)
}
