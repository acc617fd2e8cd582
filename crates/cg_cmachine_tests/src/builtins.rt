// Arrays and records on a store over an ordered map, by calls that follow each other.
#![tactic(auto, using(cg_cmachine_layout::proofs::Groups::one_word))]

use cg_base::{Items, Memory, Name, Word};
use cg_cmachine_builtins::{BuiltIn, Changes, call, call_into, named, new_into};
use cg_cmachine_layout::{Kind, Structs};
use cg_cmachine_values::{CValue, Place};
use cg_ctree::{CDecl, CStruct, CTy};
use cg_heap::{Cell, Fresh, MapStore, Scalar, Store};
use std::alloc::Global;
use std::test::Fail;

/// A heap of one run.
#[derive(Drop)]
struct Heap {
    store: MapStore,
    changes: Changes,
}

/// A heap with an allocator at 1, which answers yes and then no.
fn with_allocator(alloc: Global) -> Result<Heap, Memory> {
    let mut answers = Items::new(alloc);
    answers.push(true)?;
    answers.push(false)?;
    let mut store = MapStore::new(alloc);
    store.place(1, Cell::Answers(answers))?;
    Ok(Heap {
        store,
        changes: Changes {
            made: Vec::new(alloc),
            freed: Vec::new(alloc),
        },
    })
}

/// The steps that are left of 100 behind a call whose value nobody takes.
fn done(heap: &mut Heap, built_in: BuiltIn, values: &[CValue<'_>]) -> Option<u64> {
    if heap.store.top() > 100 {
        return None;
    }
    call(&mut heap.store, &mut heap.changes, 100, built_in, values).ok()
}

/// The steps that are left of 100 behind a call whose value is assigned to a frame's only variable, and what it holds then.
fn given(
    heap: &mut Heap,
    kind: Kind<'_>,
    built_in: BuiltIn,
    values: &[CValue<'_>],
) -> Option<(u64, Scalar)> {
    if heap.store.top() > 100 || kind.size() > 1 {
        return None;
    }
    let mut slots = [Scalar::Unset];
    let place = Place::Local(0, kind);
    let left = call_into(
        &mut heap.store,
        &mut heap.changes,
        &mut slots,
        100,
        built_in,
        values,
        place,
    )
    .ok()?;
    Some((left, slots[0]))
}

/// An allocator's address.
fn allocator<'a>() -> CValue<'a> {
    CValue::Pointer(b"SysState", 1)
}

/// The address of the first array that is made.
fn array<'a>() -> CValue<'a> {
    CValue::Pointer(b"W8", 2)
}

/// Asks for an array of three elements.
fn created(heap: &mut Heap, name: &Name) -> Option<(u64, Scalar)> {
    given(
        heap,
        Kind::Pointer(name),
        BuiltIn::Create(Word::U8),
        &[allocator(), CValue::Literal(3)],
    )
}

/// An element of the array.
fn element(heap: &mut Heap, index: u64) -> Option<(u64, Scalar)> {
    given(
        heap,
        Kind::Word(Word::U8),
        BuiltIn::Get(Word::U8),
        &[array(), CValue::Literal(index)],
    )
}

/// How long the array is.
fn length(heap: &mut Heap) -> Option<(u64, Scalar)> {
    given(
        heap,
        Kind::Word(Word::U32),
        BuiltIn::LengthOf(Word::U8),
        &[array()],
    )
}

#[test]
fn arrays_are_made_and_freed(rt: HostRuntime) -> Result<(), Fail> {
    let mut heap = with_allocator(rt.alloc())?;
    let name = Name::new(rt.alloc(), b"W8")?;
    let first = created(&mut heap, &name);
    let second = created(&mut heap, &name);
    assert!(rt; matches!(first, Some((97, Scalar::Address(2)))));
    assert!(rt; matches!(second, Some((100, Scalar::Address(0)))));
    assert!(rt; heap.changes.made.as_slice() == [2].as_slice());
    let freed = done(
        &mut heap,
        BuiltIn::FreeArray(Word::U8),
        &[allocator(), array()],
    );
    assert!(rt; freed == Some(100) && heap.changes.freed.as_slice() == [2].as_slice());
    assert!(rt; heap.store.len(2).is_none());
    Ok(())
}

#[test]
fn arrays_are_read_and_written(rt: HostRuntime) -> Result<(), Fail> {
    let mut heap = with_allocator(rt.alloc())?;
    let name = Name::new(rt.alloc(), b"W8")?;
    assert!(rt; created(&mut heap, &name).is_some());
    let values = [array(), CValue::Literal(1), CValue::Literal(7)];
    assert!(rt; done(&mut heap, BuiltIn::Put(Word::U8), &values) == Some(100));
    assert!(rt; matches!(element(&mut heap, 1), Some((100, Scalar::Word(7)))));
    assert!(rt; matches!(element(&mut heap, 3), Some((100, Scalar::Word(0)))));
    assert!(rt; matches!(length(&mut heap), Some((100, Scalar::Word(3)))));
    Ok(())
}

/// `struct S { uint32_t n; };`, alone.
fn structs(alloc: Global) -> Result<Items<CStruct>, Memory> {
    let mut members = Items::new(alloc);
    members.push(CDecl {
        ty: CTy::Word(Word::U32),
        name: Name::new(alloc, b"n")?,
    })?;
    let mut structs = Items::new(alloc);
    structs.push(CStruct {
        name: Name::new(alloc, b"S")?,
        members,
    })?;
    Ok(structs)
}

/// Asks for a record, whose address is assigned to a frame's only variable: what that holds then.
fn record<'a>(heap: &mut Heap, name: &'a Name, structs: &Structs<'a>) -> Option<Scalar> {
    let kind = Kind::Pointer(name);
    if heap.store.top() > 100 || kind.size() > 1 {
        return None;
    }
    let mut slots = [Scalar::Unset];
    let left = new_into(
        &mut heap.store,
        &mut heap.changes,
        &mut slots,
        100,
        name,
        structs.shape(name),
        &allocator(),
        Place::Local(0, kind),
    );
    match left {
        Ok(100) => Some(slots[0]),
        _ => None,
    }
}

/// The same of the struct of a name among these, twice.
fn two_records<'a>(
    alloc: Global,
    heap: &mut Heap,
    name: &'a Name,
    structs: &'a [CStruct],
) -> Result<(Option<Scalar>, Option<Scalar>), Memory> {
    let table = Structs::new(alloc, structs)?;
    let first = record(heap, name, &table);
    Ok((first, record(heap, name, &table)))
}

#[test]
fn records_are_made(rt: HostRuntime) -> Result<(), Fail> {
    let structs = structs(rt.alloc())?;
    let name = Name::new(rt.alloc(), b"S")?;
    let mut heap = with_allocator(rt.alloc())?;
    let (first, second) = two_records(rt.alloc(), &mut heap, &name, structs.as_slice())?;
    assert!(rt; matches!(first, Some(Scalar::Address(2))));
    assert!(rt; matches!(second, Some(Scalar::Address(0))));
    assert!(rt; heap.store.len(2) == Some(1));
    Ok(())
}

#[test]
fn records_are_freed(rt: HostRuntime) -> Result<(), Fail> {
    let mut heap = with_allocator(rt.alloc())?;
    if heap.store.top() > 100 {
        return Ok(());
    }
    heap.store.add(Fresh::Slots(2))?;
    let values = [allocator(), CValue::Pointer(b"S", 2)];
    assert!(rt; done(&mut heap, BuiltIn::Free, &values) == Some(100));
    assert!(rt; heap.store.len(2).is_none());
    assert!(rt; done(&mut heap, BuiltIn::Free, &values).is_none());
    Ok(())
}

/// The built-in of a name.
fn built_in(alloc: Global, text: &[u8]) -> Result<Option<BuiltIn>, Memory> {
    let name = Name::new(alloc, text)?;
    Ok(named(&name))
}

#[test]
fn names_are_found(rt: HostRuntime) -> Result<(), Fail> {
    let alloc = rt.alloc();
    let put = built_in(alloc, b"cg_w16_put")?;
    let free = built_in(alloc, b"cg_free")?;
    let other = built_in(alloc, b"cg_w16_puts")?;
    assert!(rt; matches!(put, Some(BuiltIn::Put(Word::U16))));
    assert!(rt; matches!(free, Some(BuiltIn::Free)));
    assert!(rt; other.is_none());
    Ok(())
}
