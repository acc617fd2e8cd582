// Calls that follow each other, and the words, spans and holes that each leaves; and random calls.
ghost use Rattle.std.specs.Prelude.{◌≡◌, IfOk};
ghost use Rattle.cg_heap.specs.Stored.{cell_length};

use cg_base::{Items, Memory};
use cg_flat::FlatStore;
use cg_heap::{Cell, Fresh, Scalar, Store};
use cg_heap_tests::agrees;
use std::alloc::Global;
use std::test::Fail;

/// A cell of two slots, 1 and unset.
fn slots(alloc: Global) -> Result<Cell, Memory>
    ensures { IfOk result (λ cell. cell_length cell ≡ 2) }
{
    let mut slots = Items::new(alloc);
    slots.push(Scalar::Word(1))?;
    slots.push(Scalar::Unset)?;
    Ok(Cell::Slots(slots))
}

/// A cell of one answer, yes.
fn answers(alloc: Global) -> Result<Cell, Memory>
    ensures { IfOk result (λ cell. cell_length cell ≡ 1) }
{
    let mut answers = Items::new(alloc);
    answers.push(true)?;
    Ok(Cell::Answers(answers))
}

/// Places the two cells, if none stands there.
fn place_both(alloc: Global, store: &mut FlatStore) -> Result<bool, Memory> {
    if store.len(5).is_some() {
        return Ok(false);
    }
    store.place(5, slots(alloc)?)?;
    if store.len(9).is_some() {
        return Ok(false);
    }
    store.place(9, answers(alloc)?)?;
    Ok(true)
}

/// Makes a cell of so many elements at an address below 100; 0 where it would be above.
fn add(store: &mut FlatStore, count: u32) -> Result<u64, Memory> {
    if store.top() >= 100 {
        return Ok(0);
    }
    store.add(Fresh::Words(count))
}

/// Places two cells and makes a third: the words of each stand behind those of the one before.
fn three_stand(alloc: Global, store: &mut FlatStore) -> Result<bool, Memory> {
    let placed = place_both(alloc, store)?;
    let third = add(store, 3)?;
    Ok(
        placed
            && third == 10
            && store.span(5) == Some((0, 4))
            && store.span(9) == Some((4, 2))
            && store.span(10) == Some((6, 3))
            && store.words() == [1, 1, 0, 0, 0, 1, 0, 0, 0].as_slice(),
    )
}

/// Takes the first cell out, and makes two, of which the first fits in its place.
fn two_follow(store: &mut FlatStore) -> Result<bool, Memory> {
    let removed = store.remove(5);
    let first = add(store, 3)?;
    let second = add(store, 2)?;
    Ok(
        removed
            && (first, second) == (11, 12)
            && store.span(11) == Some((0, 3))
            && store.span(12) == Some((9, 2))
            && store.words().len() == 11,
    )
}

/// Takes a cell out beside a hole: the two become one, into which four words fit.
fn holes_merge(store: &mut FlatStore) -> Result<bool, Memory> {
    let removed = store.remove(11);
    let none = store.get(5, 0).is_none() && store.span(11).is_none();
    let at = add(store, 4)?;
    Ok(removed && none && at == 13 && store.span(13) == Some((0, 4)) && store.words().len() == 11)
}

/// Writes a cell of elements by what is lent of it, and says whether it has them then, and no other words have changed.
fn writes_lent(store: &mut FlatStore) -> bool {
    if store.elements(12).is_none() {
        return false;
    }
    store.elements_mut(12).fill(7);
    matches!(store.get(12, 1), Some(Scalar::Word(7)))
        && store.words() == [0, 0, 0, 0, 0, 1, 0, 0, 0, 7, 7].as_slice()
}

#[test]
fn cells_take_holes(rt: HostRuntime) -> Result<(), Fail> {
    let alloc = rt.alloc();
    let mut store = FlatStore::new(alloc);
    assert!(rt; three_stand(alloc, &mut store)?);
    assert!(rt; two_follow(&mut store)?);
    assert!(rt; holes_merge(&mut store)?);
    assert!(rt; writes_lent(&mut store));
    Ok(())
}

#[test]
fn random_calls_agree_with_a_list(rt: HostRuntime) {
    let mut store = FlatStore::new(rt.alloc());
    assert!(rt; agrees(rt.alloc(), &mut store, 100_000));
}
