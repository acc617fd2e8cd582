// Room for the words of a new cell.
ghost use Rattle.std.specs.Prelude.{◌≡◌, ◌+◌, ◌-◌, ◌<◌, ◌≤◌, ◌^◌, ◌++◌, All, IfOk, OnOk, OnErr, Some, None, [], length, nat_eq, replicate, if◌then◌else◌};
ghost use Rattle.std.specs.HashMap.{Updates, get};
ghost use Rattle.std.specs.Vec.{vec_capacity};
ghost use Rattle.cg_flat.specs.Around.{AreWithin};
ghost use Rattle.cg_flat.specs.Flat.{first_fit, holes_left};
ghost use Rattle.cg_flat.specs.Settled.{AreFree, settled};

use crate::freed::settle;
use crate::hole::{first_with_room, take_front};
use crate::span::{Hole, Span};
use cg_base::Memory;
use cg_heap::Form;
use std::collections::HashMap;

// Makes room for a cell of so many words at an address that holds none: at the front of the first hole that has it, and else
// behind all words. Answers where it starts. All memory is taken first, also that for the hole which the cell will leave;
// without memory words and spans haven't changed, nor what the holes are with those that were freed.
pub(crate) fn make_room(
    words: &mut Vec<u64>,
    spans: &mut HashMap<u64, Span>,
    holes: &mut Vec<Hole>,
    freed: &mut Vec<Hole>,
    at: u64,
    form: Form,
    count: usize,
) -> Result<usize, Memory>
    requires within { AreWithin (length words.old.items) (settled freed.old.items holes.old.items) }
    requires free { AreFree freed.old.items holes.old.items }
    requires small { count < 2 ^ 34 }
    requires absent { get nat_eq spans.old at ≡ None }
    ensures start { IfOk result (λ start. start ≡ (if nat_eq count 0 then 0 else first_fit count (settled freed.old.items holes.old.items) (length words.old.items))) }
    ensures words { IfOk result (λ start. words.new.items ≡ words.old.items ++ replicate (start + count - length words.old.items) 0) }
    ensures spans { IfOk result (λ start. Updates nat_eq spans.old spans.new at (Some (record { form = form; start = start; count = count }))) }
    ensures holes { OnOk result (holes.new.items ≡ holes_left count (settled freed.old.items holes.old.items)) }
    ensures freed { OnOk result (freed.new.items ≡ []) }
    ensures room { OnOk result (length spans.new.entries ≤ vec_capacity freed.new) }
    ensures no_words { OnErr result (words.new.items ≡ words.old.items) }
    ensures no_spans { OnErr result (spans.new.entries ≡ spans.old.entries) }
    ensures no_holes { OnErr result (settled freed.new.items holes.new.items ≡ settled freed.old.items holes.old.items) }
    ensures no_freed { OnErr result (AreFree freed.new.items holes.new.items) }
    ensures no_more { OnErr result (length freed.new.items ≤ length freed.old.items) }
    ensures no_less { OnErr result (vec_capacity freed.old ≤ vec_capacity freed.new) }
{
    settle(holes, freed)?;
    freed.try_reserve(spans.len() + 1)?;
    let len = words.len();
    let start = start_for(holes.as_slice(), count, len);
    grow(words, start + count)?;
    if let Err(_) = spans.insert(at, Span { form, start, count }) {
        words.truncate(len);
        return Err(Memory);
    }
    fill_first(holes, count);
    Ok(start)
}

// Where so many words go, among so many: to the first hole that has room for them, and else behind all.
fn start_for(holes: &[Hole], count: usize, len: usize) -> usize
    requires { AreWithin len holes.now }
    ensures start { result ≡ (if nat_eq count 0 then 0 else first_fit count holes.now len) }
    ensures within { result ≤ len }
{
    if count == 0 {
        return 0;
    }
    match first_with_room(holes, count) {
        Some(index) => holes[index].start,
        None => len,
    }
}

// Adds words that are 0, so that there are at least so many.
fn grow(words: &mut Vec<u64>, len: usize) -> Result<(), Memory>
    ensures ok { OnOk result (words.new.items ≡ words.old.items ++ replicate (len - length words.old.items) 0) }
    ensures err { OnErr result (words.new.items ≡ words.old.items) }
{
    if words.len() < len {
        words.resize(len, 0)?;
    }
    Ok(())
}

// Takes so many words off the front of the first hole that has room for them, if any has.
fn fill_first(holes: &mut Vec<Hole>, count: usize)
    requires { All (λ h. h.start + h.count < 2 ^ 64) holes.old.items }
    ensures holes { holes.new.items ≡ holes_left count holes.old.items }
    ensures shorter { length holes.new.items ≤ length holes.old.items }
    ensures capacity { vec_capacity holes.new ≡ vec_capacity holes.old }
{
    if count == 0 {
        return;
    }
    match first_with_room(holes.as_slice(), count) {
        Some(index) => take_front(holes, index, count),
        None => (),
    }
}
