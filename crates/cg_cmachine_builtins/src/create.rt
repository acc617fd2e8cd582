// Cells to be made.
ghost use Rattle.std.specs.Prelude.{◌≡◌, false, ◌+◌, ◌<◌, ◌^◌, ◌&&◌, [], ◌∷◌, ◌++◌, length, nat_le, IfOk, IfErr, OnOk};
ghost use Rattle.cg_cmachine_def.specs.BuiltIns.{array_of, granted, next_answer};
ghost use Rattle.cg_cmachine_def.specs.Layouts.{pointer};
ghost use Rattle.cg_cmachine_def.specs.Outcomes.{bind};
ghost use Rattle.cg_cmachine_values.specs.declared.fault.RunFault.TheVariants as fault;
ghost use Rattle.cg_cmachine_values.specs.Values.{IsWithin};
ghost use Rattle.cg_cmachine_builtins.specs.Called.{Lands, Steps, into_place, state_of};
ghost use Rattle.cg_heap.specs.declared.cell.Fresh.TheVariants.{Words};
ghost use Rattle.cg_value.specs.Fits.{most_elements};
ghost use Rattle.cg_cmachine_builtins.specs.declared.changes.Changes.{Changes};
ghost use Rattle.cg_heap.specs.Stored.{changed, with_fresh, without_answer};

use crate::Changes;
use crate::room::refusal;
use crate::widths::array_name;
use cg_base::Word;
use cg_cmachine_values::{CValue, Place, RunFault, write};
use cg_heap::{Fresh, Scalar, Store};

/// How many elements an array has at most.
const MOST_ELEMENTS: u32 = 1_048_576;

/// A cell that is asked for: of an allocator, to be pointed to by a pointer to this struct; how many steps it takes, and whether it
/// may be made at all.
#[derive(Clone, Copy)]
pub(crate) struct Request<'a> {
    pub allocator: u64,
    pub name: &'a [u8],
    pub fresh: Fresh,
    pub cost: u32,
    pub may: bool,
}

/// An array of a width, of so many elements.
pub(crate) fn array<'a>(word: Word, allocator: u64, count: u32) -> Request<'a>
    ensures asked { result.allocator ≡ allocator }
    ensures name { pointer result.name.now ≡ array_of word }
    ensures fresh { result.fresh ≡ Words count }
    ensures cost { result.cost ≡ count }
    ensures may { result.may ≡ nat_le count most_elements }
{
    Request {
        allocator,
        name: array_name(word),
        fresh: Fresh::Words(count),
        cost: count,
        may: count <= MOST_ELEMENTS,
    }
}

/// Whether the cell is made: the allocator's next answer is yes.
fn is_granted<S: Store>(store: &S, request: Request<'_>) -> bool
    ensures { result ≡ (next_answer request.entry.allocator (S.stored store.now) && request.entry.may) }
{
    match store.answer(request.allocator, 0) {
        Some(true) => request.may,
        _ => false,
    }
}

/// Takes an allocator's next answer off, and makes a cell.
fn make<S: Store>(
    store: &mut S,
    changes: &mut Changes,
    allocator: u64,
    fresh: Fresh,
) -> Result<u64, RunFault>
    requires { (S.stored store.old).top < 2 ^ 63 }
    ensures address { IfOk result (λ at. at ≡ (S.stored store.old).top + 1) }
    ensures store { OnOk result (S.stored store.new ≡ with_fresh fresh (changed without_answer allocator (S.stored store.old))) }
    ensures made { OnOk result (changes.new.made.items ≡ changes.old.made.items ++ ((S.stored store.old).top + 1) ∷ []) }
    ensures freed { changes.new.freed ≡ changes.old.freed }
    ensures err { IfErr result (λ e. e ≡ fault.Memory) }
{
    changes.made.reserve(1)?;
    store.pop(allocator);
    let address = store.add(fresh)?;
    changes.made.push(address)?;
    Ok(address)
}

/// A cell that is asked for, whose address nobody takes.
pub(crate) fn create<S: Store>(
    store: &mut S,
    changes: &mut Changes,
    left: u64,
    request: Request<'_>,
) -> Result<u64, RunFault>
    requires { (S.stored store.old).top < 2 ^ 63 }
    ensures { Steps (granted (pointer request.entry.name.now) request.entry.allocator (next_answer request.entry.allocator (S.stored store.old) && request.entry.may) request.entry.fresh request.entry.cost (state_of (S.stored store.old) changes.old) left) (S.stored store.new) changes.new result }
{
    if !is_granted(store, request) {
        store.pop(request.allocator);
        return Ok(left);
    }
    if left < request.cost as u64 {
        return Err(RunFault::Budget);
    }
    make(store, changes, request.allocator, request.fresh)?;
    Ok(left - request.cost as u64)
}

/// A cell that is asked for, whose address, or the null address, is assigned to a place. Where the assignment is stuck, nothing has
/// changed.
pub(crate) fn create_into<'a, S: Store>(
    store: &mut S,
    changes: &mut Changes,
    slots: &mut [Scalar],
    left: u64,
    request: Request<'a>,
    place: Place<'a>,
) -> Result<u64, RunFault>
    requires within { IsWithin (length slots.old) place }
    requires small { (S.stored store.old).top < 2 ^ 63 }
    ensures lands { Lands (bind (granted (pointer request.entry.name.now) request.entry.allocator (next_answer request.entry.allocator (S.stored store.old) && request.entry.may) request.entry.fresh request.entry.cost (state_of (S.stored store.old) changes.old) left) (into_place (S.stored store.old) slots.old place.entry)) slots.new (S.stored store.new) changes.new result }
    ensures many { length slots.new ≡ length slots.old }
{
    if !is_granted(store, request) {
        return null_into(store, slots, left, request, place);
    }
    if left < request.cost as u64 {
        return Err(RunFault::Budget);
    }
    match refusal(store, slots, place, request.name, Some(request.fresh)) {
        Some(why) => return Err(RunFault::Stuck(why)),
        None => (),
    }
    let address = make(store, changes, request.allocator, request.fresh)?;
    match write(store, slots, place, CValue::Pointer(request.name, address)) {
        Ok(()) => Ok(left - request.cost as u64),
        Err(why) => Err(RunFault::Stuck(why)),
    }
}

/// The null address, assigned to a place where an allocator's answer isn't yes. Where the assignment is stuck, nothing has changed.
fn null_into<'a, S: Store>(
    store: &mut S,
    slots: &mut [Scalar],
    left: u64,
    request: Request<'a>,
    place: Place<'a>,
) -> Result<u64, RunFault>
    requires within { IsWithin (length slots.old) place }
    requires small { (S.stored store.old).top < 2 ^ 63 }
    ensures lands { (c : Changes) → Lands (bind (granted (pointer request.entry.name.now) request.entry.allocator false request.entry.fresh request.entry.cost (state_of (S.stored store.old) c) left) (into_place (S.stored store.old) slots.old place.entry)) slots.new (S.stored store.new) c result }
    ensures many { length slots.new ≡ length slots.old }
{
    match refusal(store, slots, place, request.name, None) {
        Some(why) => return Err(RunFault::Stuck(why)),
        None => (),
    }
    store.pop(request.allocator);
    match write(store, slots, place, CValue::Pointer(request.name, 0)) {
        Ok(()) => Ok(left),
        Err(why) => Err(RunFault::Stuck(why)),
    }
}
