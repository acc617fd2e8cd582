// What stands in one cell.
use cg_base::{Items, Place};
use cg_heap::Scalar;
use cg_heaptext_cells::{CellForm, answers, elements, form, loose_slots};
use cg_heaptext_contents::{Placed, place_cells};
use cg_heaptext_entries::read_entries;
use std::test::Fail;

const FILE: &str = "@1 = {a = A (B (), C), b = #{c = (True, _)}, d = @ 1, e = 18446744073709551616}
@2 = [1, 007, 256, 3]
@3 = <1, 0>
arg = ()
";

/// The address of a cell.
fn address(placed: &Placed) -> u64 {
    placed.at
}

/// A scalar as text.
fn text(scalar: &Scalar) -> (u8, u64) {
    match scalar {
        Scalar::Unset => (b'u', 0),
        Scalar::Word(number) => (b'w', *number),
        Scalar::Address(address) => (b'a', *address),
    }
}

#[test]
fn forms_are_told(rt: HostRuntime) -> Result<(), Fail> {
    let index = match read_entries(rt.alloc(), FILE.as_bytes()) {
        Ok(index) => index,
        Err(_) => panic!(rt; "no heap file"),
    };
    match index.entries.as_slice() {
        [record, array, allocator] => {
            assert!(rt; matches!(form(&record.cell), CellForm::Slots));
            assert!(rt; matches!(form(&array.cell), CellForm::Elements));
            assert!(rt; matches!(form(&allocator.cell), CellForm::Answers));
            Ok(())
        }
        _ => panic!(rt; "other entries"),
    }
}

#[test]
fn loose_slots_are_read(rt: HostRuntime) -> Result<(), Fail> {
    let index = match read_entries(rt.alloc(), FILE.as_bytes()) {
        Ok(index) => index,
        Err(_) => panic!(rt; "no heap file"),
    };
    match index.entries.as_slice() {
        [record, ..] => {
            let loose = loose_slots(rt.alloc(), &record.cell)?;
            let slots = [
                (b'w', 0),
                (b'w', 0),
                (b'w', 1),
                (b'u', 0),
                (b'a', 1),
                (b'w', u64::MAX),
            ];
            assert!(rt; loose.slots.as_slice().iter().map(text).eq(slots));
            assert!(rt;
                loose.over
                    == Some(Place {
                        line: 1,
                        column: 59
                    })
            );
            Ok(())
        }
        _ => panic!(rt; "other entries"),
    }
}

#[test]
fn elements_are_read(rt: HostRuntime) -> Result<(), Fail> {
    let index = match read_entries(rt.alloc(), FILE.as_bytes()) {
        Ok(index) => index,
        Err(_) => panic!(rt; "no heap file"),
    };
    match index.entries.as_slice() {
        [_, array, _] => {
            let numbers = elements(rt.alloc(), &array.cell, 255)?;
            assert!(rt; numbers.numbers.as_slice() == [1, 7, 256, 3].as_slice());
            assert!(rt;
                numbers.over
                    == Some(Place {
                        line: 2,
                        column: 15
                    })
            );
            Ok(())
        }
        _ => panic!(rt; "other entries"),
    }
}

#[test]
fn answers_are_read(rt: HostRuntime) -> Result<(), Fail> {
    let index = match read_entries(rt.alloc(), FILE.as_bytes()) {
        Ok(index) => index,
        Err(_) => panic!(rt; "no heap file"),
    };
    match index.entries.as_slice() {
        [.., allocator] => {
            assert!(rt;
                answers(rt.alloc(), &allocator.cell)?.as_slice() == [true, false].as_slice()
            );
            Ok(())
        }
        _ => panic!(rt; "other entries"),
    }
}

#[test]
fn cells_are_placed(rt: HostRuntime) -> Result<(), Fail> {
    let index = match read_entries(rt.alloc(), FILE.as_bytes()) {
        Ok(index) => index,
        Err(_) => panic!(rt; "no heap file"),
    };
    let placing = place_cells(rt.alloc(), &index.entries, &Items::new(rt.alloc()))?;
    assert!(rt; placing.cells.as_slice().iter().map(address).eq([1, 2, 3]));
    assert!(rt;
        placing.over
            == Some(Place {
                line: 1,
                column: 59
            })
    );
    assert!(rt; placing.large.is_none());
    Ok(())
}
