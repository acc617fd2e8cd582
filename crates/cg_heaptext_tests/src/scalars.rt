// Scalars of values at types, and what is noted of cells that are read.
use cg_base::{Items, Memory, Name, Part, Place, Sigil, Ty, Word};
use cg_heap::Scalar;
use cg_heaptext_entries::read_entries;
use cg_heaptext_judge_notes::{JudgeFault, Judged};
use cg_heaptext_scalars::{scalars_at, slots_at};
use cg_heaptext_values::ValueAt;
use std::alloc::Global;
use std::test::Fail;

const FILE: &str = "@1 = {a = 7, b = True}
arg = (B)
";

/// A part that isn't taken.
fn part(alloc: Global, name: &[u8], ty: Ty) -> Result<Part, Memory> {
    let name = Name::new(alloc, name)?;
    Ok(Part {
        name,
        ty,
        taken: false,
    })
}

/// Two parts of these names: a word of 32 bits, and another one.
fn parts(alloc: Global, names: (&[u8], &[u8]), second: Ty) -> Result<Items<Part>, Memory> {
    let mut parts = Items::new(alloc);
    parts.push(part(alloc, names.0, Ty::Word(Word::U32))?)?;
    parts.push(part(alloc, names.1, second)?)?;
    Ok(parts)
}

/// A word as its number, and what is unset as 9.
fn number(scalar: &Scalar) -> u64 {
    match scalar {
        Scalar::Word(number) => *number,
        _ => 9,
    }
}

#[test]
fn slots_are_read(rt: HostRuntime) -> Result<(), Fail> {
    let index = match read_entries(rt.alloc(), FILE.as_bytes()) {
        Ok(index) => index,
        Err(_) => panic!(rt; "no heap file"),
    };
    match index.entries.as_slice() {
        [entry] => {
            let fields = parts(rt.alloc(), (b"a", b"b"), Ty::Bool)?;
            let slots = slots_at(rt.alloc(), &fields, &entry.cell)?;
            assert!(rt; slots.as_slice().iter().map(number).eq([7, 1]));
        }
        _ => panic!(rt; "other entries"),
    }
    Ok(())
}

#[test]
fn an_alternative_is_read(rt: HostRuntime) -> Result<(), Fail> {
    let index = match read_entries(rt.alloc(), FILE.as_bytes()) {
        Ok(index) => index,
        Err(_) => panic!(rt; "no heap file"),
    };
    let alternatives = Ty::Variant(parts(rt.alloc(), (b"A", b"B"), Ty::Unit)?);
    let scalars = scalars_at(rt.alloc(), &alternatives, &ValueAt::argument(&index))?;
    assert!(rt; scalars.as_slice().iter().map(number).eq([1, 9, 0]));
    Ok(())
}

#[test]
fn aliases_are_noted(rt: HostRuntime) -> Result<(), Fail> {
    let record = Ty::Fields(parts(rt.alloc(), (b"a", b"b"), Ty::Bool)?, Sigil::W);
    let first = Place { line: 1, column: 1 };
    let second = Place { line: 2, column: 1 };
    let mut judged = Judged::new(rt.alloc());
    assert!(rt; judged.mention(rt.alloc(), first, 3, &record).is_ok());
    assert!(rt; judged.aliased.is_none());
    assert!(rt; judged.mention(rt.alloc(), second, 3, &record).is_ok());
    assert!(rt; judged.aliased == Some(second));
    assert!(rt; judged.mentions.len() == 2);
    Ok(())
}

#[test]
fn other_shapes_misfit(rt: HostRuntime) -> Result<(), Fail> {
    let record = Ty::Fields(parts(rt.alloc(), (b"a", b"b"), Ty::Bool)?, Sigil::W);
    let other = Ty::Fields(parts(rt.alloc(), (b"a", b"b"), Ty::Unit)?, Sigil::R);
    let place = Place { line: 1, column: 1 };
    let mut judged = Judged::new(rt.alloc());
    assert!(rt; judged.mention(rt.alloc(), place, 3, &record).is_ok());
    assert!(rt; judged.mention(rt.alloc(), place, 3, &other) == Err(JudgeFault::Misfit(place)));
    Ok(())
}
