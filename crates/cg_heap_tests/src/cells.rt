// A store over an ordered map, by calls that follow each other, and by random ones.
use crate::random::agrees;
use cg_base::Items;
use cg_heap::{Cell, Fresh, MapStore, Scalar, Store};
use std::test::Fail;

/// Writes the slots of a cell of two slots at 1, and reads them.
fn slots_are_written(store: &mut MapStore) -> bool {
    matches!(store.get(1, 0), Some(Scalar::Unset))
        && store.set_field(1, 0, Scalar::Address(2))
        && matches!(store.get(1, 0), Some(Scalar::Address(2)))
        && matches!(store.get(1, 1), Some(Scalar::Unset))
        && store.get(1, 2).is_none()
        && !store.set_field(1, 2, Scalar::Unset)
        && !store.set_element(1, 0, 7)
}

/// Writes the elements of a cell of three elements at 2, and reads them.
fn elements_are_written(store: &mut MapStore) -> bool {
    store.set_element(2, 2, 7)
        && !store.set_element(2, 3, 7)
        && !store.set_field(2, 2, Scalar::Word(8))
        && matches!(store.get(2, 2), Some(Scalar::Word(7)))
        && matches!(store.get(2, 0), Some(Scalar::Word(0)))
}

/// Takes the two answers, yes and no, of a cell at 9.
fn answers_are_taken(store: &mut MapStore) -> bool {
    store.get(9, 0).is_none()
        && store.answer(9, 1) == Some(false)
        && store.answer(9, 2).is_none()
        && store.pop(9) == Some(true)
        && store.answer(9, 0) == Some(false)
        && store.len(9) == Some(1)
        && store.pop(9) == Some(false)
        && store.pop(9).is_none()
        && store.len(9) == Some(0)
        && store.pop(8).is_none()
}

#[test]
fn cells_are_made_and_written(rt: HostRuntime) -> Result<(), Fail> {
    let mut store = MapStore::new(rt.alloc());
    let first = store.add(Fresh::Slots(2))?;
    let second = store.add(Fresh::Words(3))?;
    assert!(rt; (first, second) == (1, 2));
    assert!(rt; slots_are_written(&mut store) && elements_are_written(&mut store));
    Ok(())
}

#[test]
fn addresses_are_used_once(rt: HostRuntime) -> Result<(), Fail> {
    let mut store = MapStore::new(rt.alloc());
    let first = store.add(Fresh::Slots(1))?;
    let freed = store.remove(1);
    let again = store.remove(1);
    let second = store.add(Fresh::Slots(1))?;
    assert!(rt; (first, second) == (1, 2) && freed && !again);
    assert!(rt; store.len(1).is_none() && store.len(2) == Some(1));
    Ok(())
}

#[test]
fn answers_are_taken_in_order(rt: HostRuntime) -> Result<(), Fail> {
    let alloc = rt.alloc();
    let mut answers = Items::new(alloc);
    answers.push(true)?;
    answers.push(false)?;
    let mut store = MapStore::new(alloc);
    store.place(9, Cell::Answers(answers))?;
    assert!(rt; answers_are_taken(&mut store));
    Ok(())
}

#[test]
fn random_calls_agree_with_a_list(rt: HostRuntime) {
    let mut store = MapStore::new(rt.alloc());
    assert!(rt; agrees(rt.alloc(), &mut store, 100_000));
}
