// Tables of uses: what a part does with each variable of its context.
#![tactic(auto)]

ghost use Rattle.std.specs.Prelude.{◌≡◌, IfOk, ◌&&◌, ◌||◌, not, replicate, slice_set, None};
ghost use Rattle.cg_check_uses.specs.Uses as tables;
ghost use Rattle.cg_check_uses.specs.Noted.{noted};

use crate::entry::Use;
use cg_base::{Items, Memory, Place};
use cg_core::Seen;
use std::alloc::Global;

/// Nothing.
pub const NO_USE: Use = Use {
    touched: false,
    used: false,
    bad: None,
};

// A use.
const USED: Use = Use {
    touched: true,
    used: true,
    bad: None,
};

/// Nothing, of each of so many variables. Want of memory is its one refusal.
#[tactic(auto, using(crate::proofs::TableSteps::table_steps))]
pub fn no_uses(alloc: Global, count: usize) -> Result<Vec<Use>, Memory>
    ensures { IfOk result (λ uses. uses.items ≡ tables.no_uses count) }
{
    Ok(vec![in alloc; NO_USE; count]?)
}

// One item of a list in another's place, where there is one.
#[tactic(auto, using(crate::proofs::TableSteps::table_steps))]
fn put<T: Copy>(items: &mut Vec<T>, at: usize, item: T)
    ensures { items.new.items ≡ slice_set items.old.items at item }
{
    if at < items.len() {
        items[at] = item;
    }
}

/// One use of a variable, of so many. Want of memory is its one refusal.
#[tactic(auto, using(crate::proofs::TableSteps::table_steps))]
pub fn one_use(alloc: Global, count: usize, at: usize) -> Result<Vec<Use>, Memory>
    ensures { IfOk result (λ uses. uses.items ≡ tables.var_uses count at) }
{
    let mut uses = no_uses(alloc, count)?;
    put(&mut uses, at, USED);
    Ok(uses)
}

// The first observer of two lists, of which the first comes before.
fn first_place(first: Option<Place>, second: Option<Place>) -> Option<Place>
    ensures { result ≡ tables.first_of first second }
{
    match first {
        Some(place) => Some(place),
        None => second,
    }
}

// What one part does and then another.
fn both(first: Use, second: Use) -> Use
    ensures { result ≡ tables.both first second }
{
    Use {
        touched: first.touched || second.touched,
        used: first.used || second.used,
        bad: first_place(first.bad, second.bad),
    }
}

/// What one part does with each variable and then another. Want of memory is its one refusal.
pub fn join(alloc: Global, first: &[Use], second: &[Use]) -> Result<Vec<Use>, Memory>
    ensures { IfOk result (λ uses. uses.items ≡ tables.join first.now second.now) }
{
    let mut uses = Vec::new(alloc);
    for i in 0..first.len().min(second.len()) {
        uses.push(both(first[i], second[i]))?;
    }
    Ok(uses)
}

// Whether a variable was touched before, or is by one more part.
fn touched(before: bool, part: Use) -> bool
    ensures { result ≡ (before || part.touched) }
{
    before || part.touched
}

/// What was touched before, and by one more part. Want of memory is its one refusal.
pub fn mark(alloc: Global, before: &[bool], uses: &[Use]) -> Result<Vec<bool>, Memory>
    ensures { IfOk result (λ flags. flags.items ≡ tables.mark before.now uses.now) }
{
    let mut flags = Vec::new(alloc);
    for i in 0..before.len().min(uses.len()) {
        flags.push(touched(before[i], uses[i]))?;
    }
    Ok(flags)
}

// No observer of any of so many variables.
fn unseen(alloc: Global, count: usize) -> Result<Vec<Option<Place>>, Memory>
    ensures { IfOk result (λ seen. seen.items ≡ replicate count None) }
{
    Ok(vec![in alloc; None; count]?)
}

/// The first observer of each of so many variables. Want of memory is its one refusal.
pub fn seen_places(
    alloc: Global,
    count: usize,
    observers: &Items<Seen>,
) -> Result<Vec<Option<Place>>, Memory>
    ensures { IfOk result (λ seen. seen.items ≡ tables.seen_places count observers.now) }
{
    let mut seen = unseen(alloc, count)?;
    for observer in observers.as_slice() {
        see(&mut seen, *observer);
    }
    Ok(seen)
}

// Notes an observer, where there is none of its variable.
fn see(seen: &mut Vec<Option<Place>>, observer: Seen)
    ensures { seen.new.items ≡ noted seen.old.items observer }
{
    let at = observer.var as usize;
    if at < seen.len() {
        seen[at] = first_place(seen[at], Some(observer.place));
    }
}

// What was touched before a variable's second part, where it is observed in the first or not.
fn touched_but(seen: Option<Place>, before: bool, first: Use) -> bool
    ensures { result ≡ (before || (not (tables.is_seen seen) && first.touched)) }
{
    before || (seen.is_none() && first.touched)
}

/// What was touched before, and by a first part that observes some. Want of memory is its one refusal.
pub fn mark_but(
    alloc: Global,
    seen: &[Option<Place>],
    before: &[bool],
    uses: &[Use],
) -> Result<Vec<bool>, Memory>
    ensures { IfOk result (λ flags. flags.items ≡ tables.mark_but seen.now before.now uses.now) }
{
    let mut flags = Vec::new(alloc);
    for i in 0..seen.len().min(before.len()).min(uses.len()) {
        flags.push(touched_but(seen[i], before[i], uses[i]))?;
    }
    Ok(flags)
}

// What a `let!` does with a variable that it observes or not.
fn both_seen(seen: Option<Place>, first: Use, second: Use) -> Use
    ensures { result ≡ tables.both_seen seen first second }
{
    match seen {
        None => both(first, second),
        Some(place) => Use {
            touched: true,
            used: second.used,
            bad: if second.used { second.bad } else { Some(place) },
        },
    }
}

/// What a `let!` does with each variable. Want of memory is its one refusal.
pub fn join_seen(
    alloc: Global,
    seen: &[Option<Place>],
    first: &[Use],
    second: &[Use],
) -> Result<Vec<Use>, Memory>
    ensures { IfOk result (λ uses. uses.items ≡ tables.join_seen seen.now first.now second.now) }
{
    let mut uses = Vec::new(alloc);
    for i in 0..seen.len().min(first.len()).min(second.len()) {
        uses.push(both_seen(seen[i], first[i], second[i]))?;
    }
    Ok(uses)
}

/// What is done with the last variable, which goes out of scope; nothing, where there is none.
#[tactic(auto, using(crate::proofs::TableSteps::table_steps))]
pub fn leave(uses: &mut Vec<Use>) -> Use
    ensures last { result ≡ tables.last uses.old.items }
    ensures front { uses.new.items ≡ tables.front uses.old.items }
{
    uses.pop().unwrap_or(NO_USE)
}
