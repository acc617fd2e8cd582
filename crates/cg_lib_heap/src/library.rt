// The library on heaps.
#![tactic(auto, using(crate::proofs::AllocateSteps::allocate_steps))]

ghost use Rattle.std.specs.Prelude.{◌≡◌, [], ◌<◌, ◌≤◌, ◌^◌, map, IfOk, OnErr, OnOk};
ghost use Rattle.std.specs.List.{All};
ghost use Rattle.cg_base.specs.Types.{type_of};
ghost use Rattle.cg_base.specs.declared.fun.Lib.TheVariants.{Create, Free, Get, Length, New, Put};
ghost use Rattle.cg_lib_heap.specs.Library.{HasArray, HasWords, library_heap, record_slots as record_slots_of};
ghost use Rattle.cg_lib_value.specs.Library.{first_type};
ghost use Rattle.cg_heap.specs.Reps.{first_address as first_address_of};
ghost use Rattle.cg_typing.specs.Parts.{nodes};

use crate::allocate::{grant, next_answer, refuse};
use crate::arrays::{element_at, length_at, put_element_at};
use crate::scalars::{alone, first_address, second_address, second_number, third_number};
use cg_base::{Items, Lib, Memory, Ty};
use cg_heap::{Fresh, Scalar, Store, slots_of_parts};
use std::alloc::Global;

/// How many elements an array may have.
const MOST_ELEMENTS: u64 = 1_048_576;

/// What a function of the library gives on a heap at its type arguments, if it takes no function: the scalars of its result, and in the
/// store what it makes, writes and frees (docs/LANGUAGE.md, "The library"). Of functions that take one it gives no scalars, and changes
/// nothing. The array that Length or Get reads is to be there, as it is for a well-typed argument. Want of memory is its one refusal,
/// after which the store is as it was.
pub fn lib_heap<S: Store>(
    alloc: Global,
    lib: Lib,
    args: &Items<Ty>,
    arg: &Items<Scalar>,
    store: &mut S,
) -> Result<Items<Scalar>, Memory>
    requires top { (S.stored store.old).top < 2 ^ 63 }
    requires types { All (λ ty. nodes ty ≤ 1024) (map type_of args.now) }
    requires array { HasArray lib arg.now (S.stored store.old) }
    ensures result { IfOk result (λ us. us ≡ (library_heap lib (map type_of args.now) arg.now (S.stored store.old)).result) }
    ensures store { OnOk result (S.stored store.new ≡ (library_heap lib (map type_of args.now) arg.now (S.stored store.old)).store) }
    ensures err { OnErr result (S.stored store.new ≡ S.stored store.old) }
{
    match lib {
        Lib::New => new_record(alloc, args, arg, store),
        Lib::Create => new_array(alloc, arg, store),
        Lib::Free | Lib::FreeArray => free(alloc, arg, store),
        Lib::Length => length(alloc, arg, store),
        Lib::Get => get(alloc, arg, store),
        Lib::Put => put(alloc, arg, store),
        Lib::Map | Lib::Fold | Lib::Seq32 | Lib::Seq64 | Lib::Seq32Break => Ok(Items::new(alloc)),
    }
}

// How many slots the cell of a record of the first type argument has; 0, where it is no record.
fn record_slots(args: &Items<Ty>) -> u32
    requires { nodes (first_type (map type_of args.now)) ≤ 1024 }
    ensures { result ≡ record_slots_of (first_type (map type_of args.now)) }
{
    match args.as_slice() {
        [Ty::Fields(parts, _), ..] => slots_of_parts(parts),
        _ => 0,
    }
}

// Makes a record of the first type argument, no field of which is set, where the allocator grants it.
fn new_record<S: Store>(
    alloc: Global,
    args: &Items<Ty>,
    arg: &Items<Scalar>,
    store: &mut S,
) -> Result<Items<Scalar>, Memory>
    requires top { (S.stored store.old).top < 2 ^ 63 }
    requires small { nodes (first_type (map type_of args.now)) ≤ 1024 }
    ensures result { IfOk result (λ us. us ≡ (library_heap New (map type_of args.now) arg.now (S.stored store.old)).result) }
    ensures store { OnOk result (S.stored store.new ≡ (library_heap New (map type_of args.now) arg.now (S.stored store.old)).store) }
    ensures err { OnErr result (S.stored store.new ≡ S.stored store.old) }
{
    let at = first_address(arg);
    if next_answer(store, at) {
        grant(alloc, at, Fresh::Slots(record_slots(args)), store)
    } else {
        refuse(alloc, at, store)
    }
}

// Makes an array of zeros, where the allocator grants it and it isn't too long.
fn new_array<S: Store>(
    alloc: Global,
    arg: &Items<Scalar>,
    store: &mut S,
) -> Result<Items<Scalar>, Memory>
    requires top { (S.stored store.old).top < 2 ^ 63 }
    ensures result { IfOk result (λ us. us ≡ (library_heap Create [] arg.now (S.stored store.old)).result) }
    ensures store { OnOk result (S.stored store.new ≡ (library_heap Create [] arg.now (S.stored store.old)).store) }
    ensures err { OnErr result (S.stored store.new ≡ S.stored store.old) }
{
    let at = first_address(arg);
    let count = second_number(arg);
    if next_answer(store, at) && count <= MOST_ELEMENTS {
        grant(alloc, at, Fresh::Words(count as u32), store)
    } else {
        refuse(alloc, at, store)
    }
}

// Takes the cell at the second address out.
fn free<S: Store>(
    alloc: Global,
    arg: &Items<Scalar>,
    store: &mut S,
) -> Result<Items<Scalar>, Memory>
    ensures result { IfOk result (λ us. us ≡ (library_heap Free [] arg.now (S.stored store.old)).result) }
    ensures store { OnOk result (S.stored store.new ≡ (library_heap Free [] arg.now (S.stored store.old)).store) }
    ensures err { OnErr result (S.stored store.new ≡ S.stored store.old) }
{
    let given = alone(alloc, Scalar::Address(first_address(arg)))?;
    store.remove(second_address(arg));
    Ok(given)
}

// How many elements an array has.
fn length<S: Store>(alloc: Global, arg: &Items<Scalar>, store: &S) -> Result<Items<Scalar>, Memory>
    requires { HasWords (first_address_of arg.now) (S.stored store.now) }
    ensures { IfOk result (λ us. us ≡ (library_heap Length [] arg.now (S.stored store.now)).result) }
{
    let length = length_at(store, first_address(arg));
    alone(alloc, Scalar::Word(length))
}

// An element of an array; 0, where there is none.
fn get<S: Store>(alloc: Global, arg: &Items<Scalar>, store: &S) -> Result<Items<Scalar>, Memory>
    requires { HasWords (first_address_of arg.now) (S.stored store.now) }
    ensures { IfOk result (λ us. us ≡ (library_heap Get [] arg.now (S.stored store.now)).result) }
{
    let element = element_at(store, first_address(arg), second_number(arg));
    alone(alloc, Scalar::Word(element))
}

// Writes an element of an array, where there is one.
fn put<S: Store>(alloc: Global, arg: &Items<Scalar>, store: &mut S) -> Result<Items<Scalar>, Memory>
    ensures result { IfOk result (λ us. us ≡ (library_heap Put [] arg.now (S.stored store.old)).result) }
    ensures store { OnOk result (S.stored store.new ≡ (library_heap Put [] arg.now (S.stored store.old)).store) }
    ensures err { OnErr result (S.stored store.new ≡ S.stored store.old) }
{
    let array = first_address(arg);
    let given = alone(alloc, Scalar::Address(array))?;
    put_element_at(store, array, second_number(arg), third_number(arg));
    Ok(given)
}
