// The library on heaps, over a store in a map.
#![tactic(auto, using(crate::proofs::TestSteps::test_steps))]

ghost use Rattle.std.specs.Prelude.{◌≡◌, [], ◌∷◌, ◌+◌, ◌≤◌, IfOk, OnOk, map};
ghost use Rattle.std.specs.List.{All};
ghost use Rattle.cg_base.specs.Types.{type_of};
ghost use Rattle.cg_heap.specs.declared.cell.Scalar.TheVariants as scalar;
ghost use Rattle.cg_lib_heap.specs.Library.{HasArray, HasWords, library_heap};
ghost use Rattle.cg_typing.specs.Parts.{nodes};

use cg_base::{Items, Lib, Memory, Name, Part, Sigil, Ty};
use cg_heap::{Cell, MapStore, Scalar, Store};
use cg_lib_heap::lib_heap;
use std::alloc::Global;
use std::test::Fail;

/// Three scalars.
fn three(
    alloc: Global,
    first: Scalar,
    second: Scalar,
    third: Scalar,
) -> Result<Items<Scalar>, Memory>
    ensures { IfOk result (λ us. us ≡ first ∷ second ∷ third ∷ []) }
{
    let mut scalars = Items::new(alloc);
    scalars.push(first)?;
    scalars.push(second)?;
    scalars.push(third)?;
    Ok(scalars)
}

/// The type of a boxed record with one field.
fn record_type(alloc: Global) -> Result<Items<Ty>, Memory>
    ensures { IfOk result (λ args. All (λ ty. nodes ty ≤ 1024) (map type_of args)) }
{
    let name = Name::new(alloc, b"a")?;
    let mut parts = Items::new(alloc);
    parts.push(Part {
        name,
        ty: Ty::Bool,
        taken: true,
    })?;
    let mut args = Items::new(alloc);
    args.push(Ty::Fields(parts, Sigil::W))?;
    Ok(args)
}

/// A store with an allocator at an address, which says yes once.
fn allocator(alloc: Global, by: u64) -> Result<MapStore, Memory>
    requires least { 1 ≤ by }
    requires most { by ≤ 9 }
    ensures { IfOk result (λ store. store.top ≤ 9) }
{
    let mut answers = Items::new(alloc);
    answers.push(true)?;
    let mut store = MapStore::new(alloc);
    store.place(by, Cell::Answers(answers))?;
    Ok(store)
}

/// Calls a function without type arguments on three scalars.
fn call(
    alloc: Global,
    lib: Lib,
    first: Scalar,
    second: Scalar,
    third: Scalar,
    store: &mut MapStore,
) -> Result<Items<Scalar>, Memory>
    requires top { store.old.top ≤ 99 }
    requires array { HasArray lib (first ∷ second ∷ third ∷ []) store.old }
    ensures { OnOk result (store.new ≡ (library_heap lib [] (first ∷ second ∷ third ∷ []) store.old).store) }
{
    let args = Items::new(alloc);
    let arg = three(alloc, first, second, third)?;
    lib_heap(alloc, lib, &args, &arg, store)
}

/// Whether the allocator at an address granted the cell at 10, or refused it; None where neither was answered.
fn answer(by: u64, given: &Items<Scalar>) -> Option<bool> {
    match given.as_slice() {
        [
            Scalar::Address(at),
            Scalar::Word(1),
            Scalar::Unset,
            Scalar::Address(10),
        ] if *at == by => Some(true),
        [
            Scalar::Address(at),
            Scalar::Word(0),
            Scalar::Word(0),
            Scalar::Unset,
        ] if *at == by => Some(false),
        _ => None,
    }
}

/// Calls New by the allocator at an address.
fn new_of_type(
    alloc: Global,
    by: u64,
    args: &Items<Ty>,
    store: &mut MapStore,
) -> Result<Items<Scalar>, Memory>
    requires top { store.old.top ≤ 9 }
    requires types { All (λ ty. nodes ty ≤ 1024) (map type_of args.now) }
    ensures { OnOk result (store.new.top ≤ store.old.top + 1) }
{
    let arg = three(alloc, Scalar::Address(by), Scalar::Unset, Scalar::Unset)?;
    lib_heap(alloc, Lib::New, args, &arg, store)
}

/// What the allocator at an address answers, asked for a record.
fn new_record(alloc: Global, by: u64, store: &mut MapStore) -> Result<Option<bool>, Memory>
    requires { store.old.top ≤ 9 }
    ensures { OnOk result (store.new.top ≤ store.old.top + 1) }
{
    let args = record_type(alloc)?;
    let given = new_of_type(alloc, by, &args, store)?;
    Ok(answer(by, &given))
}

/// What the allocator at 9 answers, asked for an array.
fn new_array(alloc: Global, count: u64, store: &mut MapStore) -> Result<Option<bool>, Memory>
    requires { store.old.top ≤ 98 }
    ensures { OnOk result (store.new.top ≤ store.old.top + 1) }
{
    let given = call(
        alloc,
        Lib::Create,
        Scalar::Address(9),
        Scalar::Word(count),
        Scalar::Unset,
        store,
    )?;
    Ok(answer(9, &given))
}

/// Frees the cell at 10 by the allocator at an address, and says whether that is given back.
fn free(alloc: Global, by: u64, store: &mut MapStore) -> Result<bool, Memory>
    requires { store.old.top ≤ 99 }
{
    let given = call(
        alloc,
        Lib::Free,
        Scalar::Address(by),
        Scalar::Address(10),
        Scalar::Unset,
        store,
    )?;
    Ok(matches!(given.as_slice(), [Scalar::Address(at)] if *at == by))
}

#[test]
fn records_are_made(rt: HostRuntime) -> Result<(), Fail> {
    let alloc = rt.alloc();
    let mut store = allocator(alloc, 9)?;
    let made = new_record(alloc, 9, &mut store)?;
    let cells = (store.len(9), store.len(10));
    assert!(rt; made == Some(true) && cells == (Some(0), Some(1)));
    Ok(())
}

#[test]
fn cells_are_freed(rt: HostRuntime) -> Result<(), Fail> {
    let alloc = rt.alloc();
    let mut store = allocator(alloc, 9)?;
    let _made = new_record(alloc, 9, &mut store)?;
    let freed = free(alloc, 9, &mut store)?;
    assert!(rt; freed && store.len(10).is_none());
    Ok(())
}

/// Puts a cell at 9 whose one slot holds 3, if none stands there.
fn put_foreign(alloc: Global, store: &mut MapStore) -> Result<bool, Memory>
    requires { store.old.top ≤ 9 }
    ensures { OnOk result (store.new.top ≤ 9) }
{
    if store.len(9).is_some() {
        return Ok(false);
    }
    let mut slots = Items::new(alloc);
    slots.push(Scalar::Word(3))?;
    store.place(9, Cell::Slots(slots))?;
    Ok(true)
}

/// Whether that cell stands there, and one at 10 as this says.
fn is_beside(store: &MapStore, len: Option<u32>) -> bool {
    store.len(9) == Some(1)
        && matches!(store.get(9, 0), Some(Scalar::Word(3)))
        && store.len(10) == len
}

/// Makes the record at 10 by an allocator at 1 and frees it, and says whether the cell at 9 stands beside it and stays.
fn makes_beside(alloc: Global, store: &mut MapStore) -> Result<bool, Memory>
    requires { store.old.top ≤ 9 }
{
    let made = new_record(alloc, 1, store)?;
    let beside = is_beside(store, Some(1));
    let freed = free(alloc, 1, store)?;
    Ok(made == Some(true) && beside && freed && is_beside(store, None))
}

#[test]
fn foreign_cells_are_kept(rt: HostRuntime) -> Result<(), Fail> {
    let alloc = rt.alloc();
    let mut store = allocator(alloc, 1)?;
    let placed = put_foreign(alloc, &mut store)?;
    let kept = makes_beside(alloc, &mut store)?;
    assert!(rt; placed && kept);
    Ok(())
}

#[test]
fn arrays_are_made_and_refused(rt: HostRuntime) -> Result<(), Fail> {
    let alloc = rt.alloc();
    let mut store = allocator(alloc, 9)?;
    let made = new_array(alloc, 3, &mut store)?;
    let refused = new_array(alloc, 3, &mut store)?;
    assert!(rt; made == Some(true) && refused == Some(false) && store.len(10) == Some(3));
    Ok(())
}

/// Whether the allocator's answer was taken off, and no cell made.
fn has_taken_answer(store: &MapStore) -> bool {
    store.len(9) == Some(0) && store.len(10).is_none()
}

#[test]
fn long_arrays_are_refused(rt: HostRuntime) -> Result<(), Fail> {
    let alloc = rt.alloc();
    let mut store = allocator(alloc, 9)?;
    let made = new_array(alloc, 1_048_577, &mut store)?;
    assert!(rt; made == Some(false) && has_taken_answer(&store));
    Ok(())
}

/// A store with the array 5, 6 at 4.
fn array(alloc: Global) -> Result<MapStore, Memory>
    ensures top { IfOk result (λ store. store.top ≤ 4) }
    ensures array { IfOk result (λ store. HasWords 4 store) }
{
    let mut words = Items::new(alloc);
    words.push(5)?;
    words.push(6)?;
    let mut store = MapStore::new(alloc);
    store.place(4, Cell::Words(words))?;
    Ok(store)
}

/// Writes 7 at an index of the array at 4.
fn put(alloc: Global, index: u64, store: &mut MapStore) -> Result<(), Memory>
    requires top { store.old.top ≤ 4 }
    requires array { HasWords 4 store.old }
    ensures top { OnOk result (store.new.top ≤ 4) }
    ensures array { OnOk result (HasWords 4 store.new) }
{
    let given = call(
        alloc,
        Lib::Put,
        Scalar::Address(4),
        Scalar::Word(index),
        Scalar::Word(7),
        store,
    )?;
    drop(given);
    Ok(())
}

/// What a function gives of the array at 4, if it is a number.
fn read(alloc: Global, lib: Lib, index: u64, store: &mut MapStore) -> Result<Option<u64>, Memory>
    requires top { store.old.top ≤ 4 }
    requires array { HasArray lib (scalar.Address 4 ∷ []) store.old }
{
    let given = call(
        alloc,
        lib,
        Scalar::Address(4),
        Scalar::Word(index),
        Scalar::Unset,
        store,
    )?;
    match given.as_slice() {
        [Scalar::Word(number)] => Ok(Some(*number)),
        _ => Ok(None),
    }
}

#[test]
fn elements_are_written(rt: HostRuntime) -> Result<(), Fail> {
    let alloc = rt.alloc();
    let mut store = array(alloc)?;
    put(alloc, 1, &mut store)?;
    let element = read(alloc, Lib::Get, 1, &mut store)?;
    assert!(rt; element == Some(7));
    Ok(())
}

#[test]
fn nothing_is_written_beyond(rt: HostRuntime) -> Result<(), Fail> {
    let alloc = rt.alloc();
    let mut store = array(alloc)?;
    put(alloc, 2, &mut store)?;
    let element = read(alloc, Lib::Get, 2, &mut store)?;
    assert!(rt; element == Some(0) && store.len(4) == Some(2));
    Ok(())
}

#[test]
fn arrays_have_lengths(rt: HostRuntime) -> Result<(), Fail> {
    let alloc = rt.alloc();
    let mut store = array(alloc)?;
    let length = read(alloc, Lib::Length, 0, &mut store)?;
    assert!(rt; length == Some(2));
    Ok(())
}
