// Whole heap files at the type of an argument.
use cg_base::{Items, Memory, Name, Part, Sigil, Ty, Word};
use cg_heap::{MapStore, Scalar, Store};
use cg_heaptext::{HeapFault, fill, read_heap};
use cg_value::Value;
use std::alloc::Global;
use std::test::Fail;

/// Texts that hold no argument of the record, and none of the pair, with their faults.
const RECORD: [(&str, HeapFault); 5] = [
    ("arg = {", HeapFault::H1(1)),
    (
        "@5 = {val = 1, tag = 1}\n@05 = {val = 1, tag = 1}\narg = @5",
        HeapFault::H2(2),
    ),
    ("arg = @3", HeapFault::H3(1)),
    ("arg = 7", HeapFault::H4(1)),
    ("@5 = {val = 1, tag = 256}\narg = @5", HeapFault::H5(1)),
];

/// A part that isn't taken.
fn part(alloc: Global, name: &[u8], ty: Ty) -> Result<Part, Memory> {
    let name = Name::new(alloc, name)?;
    Ok(Part {
        name,
        ty,
        taken: false,
    })
}

/// A record of a word of 32 bits and one of 8.
fn record(alloc: Global, sigil: Sigil) -> Result<Ty, Memory> {
    let mut parts = Items::new(alloc);
    parts.push(part(alloc, b"val", Ty::Word(Word::U32))?)?;
    parts.push(part(alloc, b"tag", Ty::Word(Word::U8))?)?;
    Ok(Ty::Fields(parts, sigil))
}

/// Two records, one to read and one to write.
fn pair(alloc: Global) -> Result<Ty, Memory> {
    let mut parts = Items::new(alloc);
    parts.push(part(alloc, b"p1", record(alloc, Sigil::R)?)?)?;
    parts.push(part(alloc, b"p2", record(alloc, Sigil::W)?)?)?;
    Ok(Ty::Fields(parts, Sigil::U))
}

/// Whether these are the numbers 1 and 2.
fn are_one_and_two(values: &[Value]) -> bool {
    match values {
        [Value::Num(first), Value::Num(second)] => *first == 1 && *second == 2,
        _ => false,
    }
}

#[test]
fn a_record_is_held(rt: HostRuntime) -> Result<(), Fail> {
    let file = "@7 = [3]\n@5 = {val = 1, tag = (2)}\narg = @05\n";
    let ty = record(rt.alloc(), Sigil::W)?;
    let start = match read_heap(rt.alloc(), file.as_bytes(), &ty) {
        Ok(start) => start,
        Err(_) => panic!(rt; "a fault"),
    };
    assert!(rt; start.cells.len() == 2);
    assert!(rt; matches!(start.arg.as_slice(), [Scalar::Address(5)]));
    assert!(rt; start.writes.as_slice() == [5].as_slice());
    assert!(rt; start.reads.as_slice().is_empty());
    match &start.value {
        Value::Fields(fields) => assert!(rt; are_one_and_two(fields.as_slice())),
        _ => panic!(rt; "no record"),
    }
    Ok(())
}

#[test]
fn faults_are_told_with_their_lines(rt: HostRuntime) -> Result<(), Fail> {
    let ty = record(rt.alloc(), Sigil::W)?;
    for (file, fault) in RECORD {
        match read_heap(rt.alloc(), file.as_bytes(), &ty) {
            Ok(_) => panic!(rt; "no fault"),
            Err(found) => assert!(rt; found == fault),
        }
    }
    Ok(())
}

#[test]
fn a_cell_is_written_once(rt: HostRuntime) -> Result<(), Fail> {
    let file = "@5 = {val = 1, tag = 2}\narg = (@5,\n@5)";
    let ty = pair(rt.alloc())?;
    match read_heap(rt.alloc(), file.as_bytes(), &ty) {
        Ok(_) => panic!(rt; "no fault"),
        Err(found) => assert!(rt; found == HeapFault::H6(3)),
    }
    Ok(())
}

#[test]
fn cells_are_put_into_a_store(rt: HostRuntime) -> Result<(), Fail> {
    let file = "@7 = [3, 4]\n@5 = <1>\narg = 1";
    let start = match read_heap(rt.alloc(), file.as_bytes(), &Ty::Word(Word::U32)) {
        Ok(start) => start,
        Err(_) => panic!(rt; "a fault"),
    };
    let mut store = MapStore::new(rt.alloc());
    fill(start, &mut store)?;
    assert!(rt; store.len(7) == Some(2) && store.len(9).is_none());
    assert!(rt; store.answer(5, 0) == Some(true) && store.top() == 7);
    Ok(())
}
