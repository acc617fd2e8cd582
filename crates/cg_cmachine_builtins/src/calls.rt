// Calls.
ghost use Rattle.std.specs.Prelude.{◌≡◌, ◌<◌, ◌^◌, false, length, map, true};
ghost use Rattle.cg_cmachine_layout.specs.Kinds.{shape_layout};
ghost use Rattle.cg_cmachine_def.specs.BuiltIns.{called, make_struct};
ghost use Rattle.cg_cmachine_def.specs.Layouts.{size};
ghost use Rattle.cg_cmachine_def.specs.Outcomes.{bind};
ghost use Rattle.cg_cmachine_values.specs.Values.{IsWithin, value_of};
ghost use Rattle.cg_cmachine_builtins.specs.Acts.{act_of, perform as performed};
ghost use Rattle.cg_cmachine_builtins.specs.Called.{Lands, Steps, built_in_of, into_place, state_of};

use crate::act::Act;
use crate::create::{Request, array, create, create_into};
use crate::judge::judge;
use crate::operands::allocator_there;
use crate::{BuiltIn, Changes};
use cg_base::Name;
use cg_cmachine_layout::Shape;
use cg_cmachine_values::{CValue, Place, RunFault, write};
use cg_ctree::Why;
use cg_heap::{Fresh, Scalar, Store};

/// What a call does, where nobody takes its value.
fn perform<S: Store>(
    store: &mut S,
    changes: &mut Changes,
    left: u64,
    act: Act,
) -> Result<u64, RunFault>
    requires { (S.stored store.old).top < 2 ^ 63 }
    ensures { Steps (performed (act_of (S.stored store.old) act) (state_of (S.stored store.old) changes.old) left) (S.stored store.new) changes.new result }
{
    match act {
        Act::Array(word, allocator, count) => {
            create(store, changes, left, array(word, allocator, count))
        }
        Act::Back(address) => {
            changes.freed.push(address)?;
            store.remove(address);
            Ok(left)
        }
        Act::Element(address, index, number) => {
            store.set_element(address, index, number);
            Ok(left)
        }
        Act::Number(_, _) => Ok(left),
        Act::Nothing => Ok(left),
    }
}

/// A call whose value, if it gives one, nobody takes: the steps that are left.
pub fn call<'a, S: Store>(
    store: &mut S,
    changes: &mut Changes,
    left: u64,
    built_in: BuiltIn,
    values: &[CValue<'a>],
) -> Result<u64, RunFault>
    requires { (S.stored store.old).top < 2 ^ 63 }
    ensures { Steps (called (built_in_of built_in) false (map value_of values.now) (state_of (S.stored store.old) changes.old) left) (S.stored store.new) changes.new result }
{
    match judge(store, built_in, false, values) {
        Err(why) => Err(RunFault::Stuck(why)),
        Ok(act) => perform(store, changes, left, act),
    }
}

/// What a call does, whose value is assigned to a place; where none is given, nothing is done.
fn perform_into<'a, S: Store>(
    store: &mut S,
    changes: &mut Changes,
    slots: &mut [Scalar],
    left: u64,
    act: Act,
    place: Place<'a>,
) -> Result<u64, RunFault>
    requires within { IsWithin (length slots.old) place }
    requires small { (S.stored store.old).top < 2 ^ 63 }
    ensures lands { Lands (bind (performed (act_of (S.stored store.old) act) (state_of (S.stored store.old) changes.old) left) (into_place (S.stored store.old) slots.old place.entry)) slots.new (S.stored store.new) changes.new result }
    ensures many { length slots.new ≡ length slots.old }
{
    match act {
        Act::Array(word, allocator, count) => create_into(
            store,
            changes,
            slots,
            left,
            array(word, allocator, count),
            place,
        ),
        Act::Number(word, number) => {
            match write(store, slots, place, CValue::Word(word, number)) {
                Ok(()) => Ok(left),
                Err(why) => Err(RunFault::Stuck(why)),
            }
        }
        Act::Back(_) | Act::Element(_, _, _) | Act::Nothing => {
            Err(RunFault::Stuck(Why::KindsDiffer))
        }
    }
}

/// A call whose value is assigned to a place, in one step. Where the assignment is stuck, nothing has changed.
pub fn call_into<'a, S: Store>(
    store: &mut S,
    changes: &mut Changes,
    slots: &mut [Scalar],
    left: u64,
    built_in: BuiltIn,
    values: &[CValue<'a>],
    place: Place<'a>,
) -> Result<u64, RunFault>
    requires within { IsWithin (length slots.old) place }
    requires small { (S.stored store.old).top < 2 ^ 63 }
    ensures lands { Lands (bind (called (built_in_of built_in) true (map value_of values.now) (state_of (S.stored store.old) changes.old) left) (into_place (S.stored store.old) slots.old place.entry)) slots.new (S.stored store.new) changes.new result }
    ensures many { length slots.new ≡ length slots.old }
{
    match judge(store, built_in, true, values) {
        Err(why) => Err(RunFault::Stuck(why)),
        Ok(act) => perform_into(store, changes, slots, left, act, place),
    }
}

/// `cg_new(heap, sizeof(struct S))`, whose value is assigned to a place, in one step. Where the assignment is stuck, nothing has changed.
pub fn new_into<'a, S: Store>(
    store: &mut S,
    changes: &mut Changes,
    slots: &mut [Scalar],
    left: u64,
    name: &'a Name,
    shape: Shape<'a>,
    heap: &CValue<'a>,
    place: Place<'a>,
) -> Result<u64, RunFault>
    requires within { IsWithin (length slots.old) place }
    requires small { (S.stored store.old).top < 2 ^ 63 }
    ensures lands { Lands (bind (make_struct name.now (size (shape_layout shape.entry)) (value_of heap.now) (state_of (S.stored store.old) changes.old) left) (into_place (S.stored store.old) slots.old place.entry)) slots.new (S.stored store.new) changes.new result }
    ensures many { length slots.new ≡ length slots.old }
{
    match allocator_there(store, heap) {
        Err(why) => Err(RunFault::Stuck(why)),
        Ok(allocator) => {
            let request = Request {
                allocator,
                name: name.bytes(),
                fresh: Fresh::Slots(shape.size()),
                cost: 0,
                may: true,
            };
            create_into(store, changes, slots, left, request, place)
        }
    }
}
