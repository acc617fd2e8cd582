// Calls of a store, many of one kind (docs/CASES.md, "Calls").
ghost use Rattle.std.specs.Prelude.{◌≡◌, ◌+◌, ◌<◌, ◌≤◌, ◌^◌, IfOk, IfSome, OnOk, length};
ghost use Rattle.cg_heap.specs.Stored.{cell_length};

use cg_base::{Items, Memory, literal};
use cg_flat::FlatStore;
use cg_heap::{Cell, Fresh, MapStore, Scalar, Store};
use std::alloc::{AllocError, Global};

/// A kind of call.
#[derive(Clone, Copy)]
enum Kind {
    Nothing,
    Add,
    Place,
    Len,
    Get,
    SetField,
    SetElement,
    Answer,
    Pop,
    Remove,
    Write,
    Fold,
    Holes,
    Refill,
    Misfit,
}

/// The address of the list of answers.
const LIST: u64 = 4_000_000_000;

/// The address of the array.
const ARRAY: u64 = 4_000_000_001;

/// The address behind which no cell stands.
const FREE: u64 = 2_000_000_000;

/// How many cells are made at most among holes.
const AMONG_HOLES: u32 = 1_000;

/// The names of the kinds.
const KINDS: [(&str, Kind); 15] = [
    ("nothing", Kind::Nothing),
    ("add", Kind::Add),
    ("place", Kind::Place),
    ("len", Kind::Len),
    ("get", Kind::Get),
    ("set_field", Kind::SetField),
    ("set_element", Kind::SetElement),
    ("answer", Kind::Answer),
    ("pop", Kind::Pop),
    ("remove", Kind::Remove),
    ("write", Kind::Write),
    ("fold", Kind::Fold),
    ("holes", Kind::Holes),
    ("refill", Kind::Refill),
    ("misfit", Kind::Misfit),
];

// The kind of call that a word names.
fn kind_of(word: &str) -> Option<Kind> {
    for (name, kind) in &KINDS {
        if *name == word {
            return Some(*kind);
        }
    }
    None
}

// Makes so many cells, and says how many.
fn add_cells<S: Store>(store: &mut S, fresh: Fresh, count: u32) -> Result<u64, Memory>
    requires { (S.stored store.old).top ≤ 4294967296 }
    ensures { OnOk result ((S.stored store.new).top ≤ (S.stored store.old).top + count) }
{
    for _ in 0..count {
        let _ = store.add(fresh)?;
    }
    Ok(u64::from(count))
}

// Places a cell, where none stands.
fn place_new<S: Store>(store: &mut S, at: u64, cell: Cell) -> Result<(), Memory>
    requires least { 1 ≤ at }
    requires most { at < 2 ^ 32 }
    requires short { cell_length cell < 2 ^ 32 }
    requires top { (S.stored store.old).top ≤ 4294967296 }
    ensures { OnOk result ((S.stored store.new).top ≤ 4294967296) }
{
    if store.len(at).is_none() {
        store.place(at, cell)?;
    }
    Ok(())
}

// A list of so many answers, each yes.
fn answers(alloc: Global, count: u32) -> Result<Items<bool>, Memory>
    ensures { IfOk result (λ items. length items ≡ count) }
{
    let mut answers = Items::new(alloc);
    for _ in 0..count {
        answers.push(true)?;
    }
    Ok(answers)
}

// So many elements, each 1.
fn elements(alloc: Global, count: u32) -> Result<Items<u64>, Memory>
    ensures { IfOk result (λ items. length items ≡ count) }
{
    let mut elements = Items::new(alloc);
    for _ in 0..count {
        elements.push(1)?;
    }
    Ok(elements)
}

// Takes every second cell out, of twice as many.
fn make_holes<S: Store>(store: &mut S, count: u32)
    ensures { (S.stored store.new).top ≡ (S.stored store.old).top }
{
    for turn in 0..count {
        let _ = store.remove(1 + 2 * u64::from(turn));
    }
}

// Makes the store that a kind of call is asked of.
fn fill<S: Store>(alloc: Global, store: &mut S, kind: Kind, count: u32) -> Result<(), Memory>
    requires new { (S.stored store.old).top ≡ 0 }
    requires few { count ≤ 1000000000 }
    ensures { OnOk result ((S.stored store.new).top ≤ 4294967296) }
{
    let fresh = match kind {
        Kind::SetElement => Fresh::Words(1),
        _ => Fresh::Slots(1),
    };
    let _ = add_cells(store, fresh, count)?;
    if let Kind::Holes | Kind::Refill | Kind::Misfit = kind {
        let _ = add_cells(store, fresh, count)?;
        make_holes(store, count);
    }
    place_new(store, LIST, Cell::Answers(answers(alloc, count)?))?;
    place_new(store, ARRAY, Cell::Words(elements(alloc, count)?))
}

// The address of a turn: each from 1 to the count, in leaps of seven.
fn address(turn: u32, count: u32) -> u64 {
    1 + u64::from(turn) * 7 % u64::from(count.max(1))
}

// Places a cell of no answers, if it may stand there and none does; says whether it was placed.
fn place_cell<S: Store>(alloc: Global, store: &mut S, at: u64) -> bool {
    if at == 0 || at >= LIST || store.len(at).is_some() {
        return false;
    }
    store.place(at, Cell::Answers(Items::new(alloc))).is_ok()
}

// Makes one call, and says whether it found or did what it was to.
fn call<S: Store>(alloc: Global, store: &mut S, kind: Kind, at: u64, turn: u32) -> bool {
    match kind {
        Kind::Place => place_cell(alloc, store, at.saturating_add(FREE)),
        Kind::Len => store.len(at).is_some(),
        Kind::Get => store.get(at, 0).is_some(),
        Kind::SetField => store.set_field(at, 0, Scalar::Word(7)),
        Kind::SetElement => store.set_element(at, 0, 7),
        Kind::Answer => store.answer(LIST, turn) == Some(true),
        Kind::Pop => store.pop(LIST) == Some(true),
        Kind::Remove => store.remove(at),
        Kind::Write => store.set_element(ARRAY, turn, 7),
        _ => false,
    }
}

// Makes so many calls, and counts those that did.
fn calls<S: Store>(alloc: Global, store: &mut S, kind: Kind, count: u32) -> u64 {
    let mut sum: u64 = 0;
    for turn in 0..count {
        let done = call(alloc, store, kind, address(turn, count), turn);
        sum = sum.wrapping_add(u64::from(done));
    }
    sum
}

// The sum of so many elements of the array.
fn fold<S: Store>(store: &S, count: u32) -> u64 {
    let mut sum: u64 = 0;
    for turn in 0..count {
        if let Some(Scalar::Word(number)) = store.get(ARRAY, turn) {
            sum = sum.wrapping_add(number);
        }
    }
    sum
}

// How many of so many calls found or did what they were to, on a store that has held nothing.
fn answered<S: Store>(alloc: Global, store: &mut S, kind: Kind, count: u32) -> Result<u64, Memory>
    requires new { (S.stored store.old).top ≡ 0 }
    requires few { count ≤ 1000000000 }
{
    fill(alloc, store, kind, count)?;
    match kind {
        Kind::Add => add_cells(store, Fresh::Slots(1), count),
        Kind::Fold => Ok(fold(store, count)),
        Kind::Refill => add_cells(store, Fresh::Slots(1), count.min(AMONG_HOLES)),
        Kind::Misfit => add_cells(store, Fresh::Slots(2), count.min(AMONG_HOLES)),
        _ => Ok(calls(alloc, store, kind, count)),
    }
}

// The kind of call that two words ask for, and how many.
fn asked(words: &[String]) -> Option<(Kind, u32)>
    ensures { IfSome result (λ asked. asked.1 ≤ 1000000000) }
{
    let [name, count] = words else {
        return None;
    };
    let count = literal(count.as_bytes())?;
    if count > 1_000_000_000 {
        return None;
    }
    Some((kind_of(name.as_str())?, count as u32))
}

// What calls of a store that has held nothing answer, by the words NAME COUNT.
fn text<S: Store>(alloc: Global, words: &[String], store: &mut S) -> Result<String, AllocError>
    requires { (S.stored store.old).top ≡ 0 }
{
    let Some((kind, count)) = asked(words) else {
        return String::from_str(alloc, "no such call\n");
    };
    match answered(alloc, store, kind, count) {
        Ok(sum) => Ok(format!(in alloc; "{sum}\n")?),
        Err(_) => Err(AllocError),
    }
}

/// How many of so many calls of a store over an ordered map found or did what they were to, by the words NAME COUNT.
pub fn store_text(alloc: Global, words: &[String]) -> Result<String, AllocError> {
    text(alloc, words, &mut MapStore::new(alloc))
}

/// The same of a flat store.
pub fn flat_text(alloc: Global, words: &[String]) -> Result<String, AllocError> {
    text(alloc, words, &mut FlatStore::new(alloc))
}
