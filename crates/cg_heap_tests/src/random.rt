// Stores, by random calls, each compared with the same call on a plain list.
ghost use Rattle.std.specs.Prelude.{◌≡◌, ◌<◌, ◌≤◌, ◌^◌, IfOk, length};
ghost use Rattle.cg_heap.specs.Stored.{cell_at};

use cg_base::{Items, Memory};
use cg_heap::{Cell, Fresh, Scalar, Store};
use std::alloc::Global;

/// What a cell of the plain list holds.
#[derive(Clone, Copy)]
enum Kind {
    Slots,
    Words,
    Answers,
}

/// What stands at an address: so many entries, None where there is no cell. An entry is a number that tells it from others (`code`).
#[derive(Clone, Copy)]
struct Row {
    kind: Kind,
    len: Option<u32>,
    entries: [u64; 4],
}

/// A call: which one, an address, the index of an entry, and what is written or made.
#[derive(Clone, Copy)]
struct Call {
    which: u64,
    at: u64,
    index: u32,
    number: u64,
}

/// No cell.
const NOTHING: Row = Row {
    kind: Kind::Slots,
    len: None,
    entries: [0, 0, 0, 0],
};

/// How many addresses the plain list has, from 0 on.
const ROWS: u64 = 20_000;

/// The number of a scalar; 0 for none.
fn code(scalar: Option<Scalar>) -> u64 {
    match scalar {
        None => 0,
        Some(Scalar::Unset) => 1,
        Some(Scalar::Word(number)) => number.wrapping_mul(2).wrapping_add(2),
        Some(Scalar::Address(address)) => address.wrapping_mul(2).wrapping_add(3),
    }
}

/// The number of an answer; 0 for none.
fn answer_code(answer: Option<bool>) -> u64 {
    match answer {
        None => 0,
        Some(false) => 1,
        Some(true) => 2,
    }
}

/// The entry at an index; 0 for none.
fn entry(row: &Row, index: u32) -> u64 {
    if index < 4 && index < row.len.unwrap_or(0) {
        row.entries[index as usize]
    } else {
        0
    }
}

/// Whether `len`, `get` and `answer` answer the same.
fn same_reads<S: Store>(store: &S, row: &Row, call: Call) -> bool {
    let entry = entry(row, call.index);
    let (scalar, answer) = match row.kind {
        Kind::Answers => (0, entry),
        _ => (entry, 0),
    };
    store.len(call.at) == row.len
        && code(store.get(call.at, call.index)) == scalar
        && answer_code(store.answer(call.at, call.index)) == answer
}

/// A scalar.
fn scalar(number: u64) -> Scalar {
    match number % 3 {
        0 => Scalar::Unset,
        1 => Scalar::Word(number),
        _ => Scalar::Address(number),
    }
}

/// Writes an entry, if there is one and this is its kind.
fn write(row: &mut Row, index: u32, is_kind: bool, entry: u64) -> bool {
    let is_there = is_kind && index < 4 && index < row.len.unwrap_or(0);
    if is_there {
        row.entries[index as usize] = entry;
    }
    is_there
}

/// Whether `set_field` and `set_element` answer the same.
#[tactic(auto, using(cg_heap::proofs::TopSteps::top_steps))]
fn same_sets<S: Store>(store: &mut S, row: &mut Row, call: Call) -> bool
    ensures { (S.stored store.new).top ≡ (S.stored store.old).top }
{
    let value = scalar(call.number);
    let is_slot = matches!(row.kind, Kind::Slots);
    let is_slot = write(row, call.index, is_slot, code(Some(value)));
    let is_word = matches!(row.kind, Kind::Words);
    let is_word = write(
        row,
        call.index,
        is_word,
        code(Some(Scalar::Word(call.number))),
    );
    store.set_field(call.at, call.index, value) == is_slot
        && store.set_element(call.at, call.index, call.number) == is_word
}

/// Whether `pop` answers the same.
#[tactic(auto, using(cg_heap::proofs::TopSteps::top_steps))]
fn same_pop<S: Store>(store: &mut S, row: &mut Row, call: Call) -> bool
    ensures { (S.stored store.new).top ≡ (S.stored store.old).top }
{
    let answer = answer_code(store.pop(call.at));
    match (row.kind, row.len) {
        (Kind::Answers, Some(len)) if len > 0 => {
            let [first, second, third, fourth] = row.entries;
            row.entries = [second, third, fourth, 0];
            row.len = Some(len - 1);
            answer == first
        }
        _ => answer == 0,
    }
}

/// Whether `remove` answers the same.
fn same_remove<S: Store>(store: &mut S, row: &mut Row, call: Call) -> bool
    ensures { (S.stored store.new).top ≡ (S.stored store.old).top }
{
    let is_there = row.len.is_some();
    *row = NOTHING;
    store.remove(call.at) == is_there
}

/// Whether `add` answers the address above the top, whose row this is.
fn same_add<S: Store>(store: &mut S, row: &mut Row, top: &mut u64, number: u64) -> bool
    requires { (S.stored store.old).top ≡ top.old }
    ensures { (S.stored store.new).top ≡ top.new }
{
    let len = (number % 5) as u32;
    row.len = Some(len);
    let fresh = if number % 2 == 0 {
        row.kind = Kind::Slots;
        row.entries = [1, 1, 1, 1];
        Fresh::Slots(len)
    } else {
        row.kind = Kind::Words;
        row.entries = [2, 2, 2, 2];
        Fresh::Words(len)
    };
    if *top >= ROWS {
        return false;
    }
    match store.add(fresh) {
        Ok(at) => {
            *top += 1;
            at == *top
        }
        Err(_) => false,
    }
}

/// So many answers, by the bits of a number.
fn answers(alloc: Global, number: u64, len: u32) -> Result<Items<bool>, Memory>
    ensures { IfOk result (λ items. length items ≡ len) }
{
    let mut items = Items::new(alloc);
    let mut left = number;
    for _ in 0..len {
        items.push(left % 2 == 1)?;
        left /= 2;
    }
    Ok(items)
}

/// Places a list of answers at an address that holds none, whose row this is.
fn place<S: Store>(alloc: Global, store: &mut S, row: &mut Row, top: &mut u64, call: Call) -> bool
    requires absent { cell_at (S.stored store.old) call.at ≡ None }
    requires least { 1 ≤ call.at }
    requires most { call.at < 2 ^ 32 }
    requires top { (S.stored store.old).top ≡ top.old }
    ensures { (S.stored store.new).top ≡ top.new }
{
    let bits = call.number;
    let len = (bits % 5) as u32;
    row.kind = Kind::Answers;
    row.len = Some(len);
    row.entries = [
        1 + bits % 2,
        1 + bits / 2 % 2,
        1 + bits / 4 % 2,
        1 + bits / 8 % 2,
    ];
    let Ok(answers) = answers(alloc, bits, len) else {
        return false;
    };
    match store.place(call.at, Cell::Answers(answers)) {
        Ok(()) => {
            *top = (*top).max(call.at);
            true
        }
        Err(_) => false,
    }
}

/// Whether there is a cell exactly where there is one in the list; where there is none, and may be one, one is placed.
fn same_place<S: Store>(
    alloc: Global,
    store: &mut S,
    row: &mut Row,
    top: &mut u64,
    call: Call,
) -> bool
    requires { (S.stored store.old).top ≡ top.old }
    ensures { (S.stored store.new).top ≡ top.new }
{
    let is_there = row.len.is_some();
    match store.len(call.at) {
        Some(_) => is_there,
        None if is_there => false,
        None if call.at == 0 || call.at >= ROWS => true,
        None => place(alloc, store, row, top, call),
    }
}

/// Whether one of the calls that change a store answers the same.
fn same_write<S: Store>(
    alloc: Global,
    store: &mut S,
    row: &mut Row,
    top: &mut u64,
    call: Call,
) -> bool
    requires { (S.stored store.old).top ≡ top.old }
    ensures { (S.stored store.new).top ≡ top.new }
{
    match call.which {
        0 | 1 => same_sets(store, row, call),
        2 => same_pop(store, row, call),
        3 => same_remove(store, row, call),
        4 => same_place(alloc, store, row, top, call),
        _ => same_add(store, row, top, call.number),
    }
}

/// The next number of a linear congruential generator.
fn next(state: u64) -> u64 {
    state
        .wrapping_mul(6_364_136_223_846_793_005)
        .wrapping_add(1_442_695_040_888_963_407)
}

/// A call at one of the first 60 addresses, at one from 57 below the top to 2 above it, or at any up to the top; `add` at that above
/// the top.
fn random_call(state: u64, top: u64) -> Call {
    let bits = state >> 16;
    let which = bits / 2_160_000 % 6;
    let at = match (which, bits % 4) {
        (5, _) => top.saturating_add(1),
        (_, 0) => top.saturating_sub(57).saturating_add(bits / 4 % 60),
        (_, 1) => bits / 4 % top.max(1),
        _ => bits / 4 % 60,
    };
    Call {
        which,
        at,
        index: (bits / 240 % 6) as u32,
        number: bits / 1_440 % 1_500,
    }
}

/// Makes so many random calls on both, and behind each those that read, and says whether they answer the same.
fn agree<S: Store>(alloc: Global, store: &mut S, rows: &mut [Row], calls: u32) -> bool
    requires { (S.stored store.old).top ≡ 0 }
{
    let mut top: u64 = 0;
    let mut state: u64 = 1;
    for _ in 0..calls {
        state = next(state);
        let call = random_call(state, top);
        let is_same = match rows.get_mut(call.at as usize) {
            Some(row) => {
                same_write(alloc, store, row, &mut top, call) && same_reads(store, row, call)
            }
            None => false,
        };
        if !is_same {
            return false;
        }
    }
    true
}

/// Whether a store that has held nothing agrees with a list in so many random calls, at most 100,000.
pub fn agrees<S: Store>(alloc: Global, store: &mut S, calls: u32) -> bool
    requires { (S.stored store.old).top ≡ 0 }
{
    match vec![in alloc; NOTHING; ROWS as usize] {
        Ok(mut rows) => agree(alloc, store, rows.as_mut_slice(), calls),
        Err(_) => false,
    }
}
