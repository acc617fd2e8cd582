// Runs on heaps with a record or an allocator: what each gives, makes and frees, and the cells that it leaves.
ghost use Rattle.std.specs.Prelude.{◌≤◌, IfOk, OnOk, length};

use crate::sources::lowered;
use cg_base::{Items, Memory, Name};
use cg_cmachine::{Ran, run_c};
use cg_heap::{Cell, Form, MapStore, Scalar, Store};
use std::alloc::Global;
use std::process::Abort;
use std::test::Fail;

/// Runs the first function of a source on an address, within the steps that a run of this cost has: 32 for each of it, and 32.
fn run_on(
    rt: &impl Abort,
    alloc: Global,
    source: &str,
    at: u64,
    cost: u32,
    store: &mut MapStore,
) -> Result<Ran, Fail>
    requires { store.old.top ≤ 9 }
{
    let program = lowered(rt, alloc, source)?;
    let name = Name::new(alloc, b"f0")?;
    let mut arg = Items::new(alloc);
    arg.push(Scalar::Address(at))?;
    let bound = 32 * cost as u64 + 32;
    match run_c(alloc, &program, &name, &arg, store, bound) {
        Ok(ran) => Ok(ran),
        Err(_) => panic!(rt; "the run is stuck or over its bound"),
    }
}

/// Whether a run gave this address, and made and freed these cells.
fn gave(ran: &Ran, at: u64, made: &[u64], freed: &[u64]) -> bool {
    matches!(ran.value.as_slice(), [Scalar::Address(given)] if *given == at)
        && ran.made.as_slice() == made
        && ran.freed.as_slice() == freed
}

/// How many cells a store has at the addresses up to 10.
fn cells(store: &MapStore) -> u64 {
    let mut count: u64 = 0;
    for at in 1..11 {
        if store.len(at).is_some() {
            count = count.wrapping_add(1);
        }
    }
    count
}

/// Whether the slot of a record holds this number.
fn holds(store: &MapStore, at: u64, slot: u32, number: u64) -> bool {
    matches!(store.get(at, slot), Some(Scalar::Word(held)) if held == number)
}

/// Whether the cell at an address is a record of so many slots.
fn is_record(store: &MapStore, at: u64, slots: u32) -> bool {
    store.form(at) == Some(Form::Slots) && store.len(at) == Some(slots)
}

/// A store whose cell at 5 is a record of two words.
fn with_pair(alloc: Global, first: u64, second: u64) -> Result<MapStore, Memory>
    ensures { IfOk result (λ store. store.top ≤ 9) }
{
    let mut slots = Items::new(alloc);
    slots.push(Scalar::Word(first))?;
    slots.push(Scalar::Word(second))?;
    let mut store = MapStore::new(alloc);
    store.place(5, Cell::Slots(slots))?;
    Ok(store)
}

#[test]
fn a_record_is_bumped(rt: HostRuntime) -> Result<(), Fail> {
    let alloc = rt.alloc();
    let source = "type Cell = {val : U32, tag : U8}
bump : Cell -> Cell
bump c = let c' {val = v} = c in c' {val = v + 1}
";
    let mut store = with_pair(alloc, 4_294_967_295, 7)?;
    let ran = run_on(&rt, alloc, source, 5, 8, &mut store)?;
    assert!(rt; gave(&ran, 5, &[], &[]) && ran.steps <= 288);
    assert!(rt; cells(&store) == 1 && is_record(&store, 5, 2));
    assert!(rt; holds(&store, 5, 0, 0) && holds(&store, 5, 1, 7));
    Ok(())
}

/// A store whose cell at 1 is an allocator with these answers.
fn with_allocator(alloc: Global, answers: Items<bool>) -> Result<MapStore, Memory>
    requires { length answers ≤ 9 }
    ensures { IfOk result (λ store. store.top ≤ 1) }
{
    let mut store = MapStore::new(alloc);
    store.place(1, Cell::Answers(answers))?;
    Ok(store)
}

/// A store whose cell at 1 is an allocator that grants one cell.
fn with_one_grant(alloc: Global) -> Result<MapStore, Memory>
    ensures { IfOk result (λ store. store.top ≤ 1) }
{
    let mut answers = Items::new(alloc);
    answers.push(true)?;
    with_allocator(alloc, answers)
}

/// Whether the cell at 1 is an allocator with so many answers left, and which comes next.
fn is_allocator(store: &MapStore, left: u32, next: Option<bool>) -> bool {
    store.form(1) == Some(Form::Answers) && store.len(1) == Some(left) && store.answer(1, 0) == next
}

/// Runs the function that asks for a record and frees it, and says whether it gave the allocator at 1, and made and freed these cells.
fn makes_and_frees(
    rt: &impl Abort,
    alloc: Global,
    cost: u32,
    cells: &[u64],
    store: &mut MapStore,
) -> Result<bool, Fail>
    requires { store.old.top ≤ 9 }
{
    let source = "type R = {x : U32}
f : SysState -> SysState
f s = let (s, r) = new[R] s in r
  | None -> s
  | Some p -> free[R] (s, p)
";
    let ran = run_on(rt, alloc, source, 1, cost, store)?;
    Ok(gave(&ran, 1, cells, cells) && ran.steps <= 32 * cost as u64 + 32)
}

#[test]
fn a_record_is_refused(rt: HostRuntime) -> Result<(), Fail> {
    let alloc = rt.alloc();
    let mut store = with_allocator(alloc, Items::new(alloc))?;
    assert!(rt; makes_and_frees(&rt, alloc, 12, &[], &mut store)?);
    assert!(rt; cells(&store) == 1 && is_allocator(&store, 0, None));
    Ok(())
}

#[test]
fn a_record_is_granted_and_freed(rt: HostRuntime) -> Result<(), Fail> {
    let alloc = rt.alloc();
    let mut store = with_one_grant(alloc)?;
    assert!(rt; makes_and_frees(&rt, alloc, 18, &[2], &mut store)?);
    assert!(rt; cells(&store) == 1 && is_allocator(&store, 0, None));
    Ok(())
}

#[test]
fn one_answer_is_taken(rt: HostRuntime) -> Result<(), Fail> {
    let alloc = rt.alloc();
    let mut answers = Items::new(alloc);
    answers.push(true)?;
    answers.push(false)?;
    let mut store = with_allocator(alloc, answers)?;
    assert!(rt; makes_and_frees(&rt, alloc, 18, &[2], &mut store)?);
    assert!(rt; cells(&store) == 1 && is_allocator(&store, 1, Some(false)));
    Ok(())
}

/// Puts a record at 9 whose one slot holds 3.
fn put_foreign(alloc: Global, store: &mut MapStore) -> Result<bool, Memory>
    requires { store.old.top ≤ 9 }
    ensures { OnOk result (store.new.top ≤ 9) }
{
    if store.len(9).is_some() {
        return Ok(false);
    }
    let mut slots = Items::new(alloc);
    slots.push(Scalar::Word(3))?;
    store.place(9, Cell::Slots(slots))?;
    Ok(true)
}

#[test]
fn a_foreign_cell_is_kept(rt: HostRuntime) -> Result<(), Fail> {
    let alloc = rt.alloc();
    let mut store = with_one_grant(alloc)?;
    assert!(rt; put_foreign(alloc, &mut store)?);
    assert!(rt; makes_and_frees(&rt, alloc, 18, &[10], &mut store)?);
    assert!(rt; cells(&store) == 2 && is_allocator(&store, 0, None));
    assert!(rt; is_record(&store, 9, 1) && holds(&store, 9, 0, 3));
    Ok(())
}
