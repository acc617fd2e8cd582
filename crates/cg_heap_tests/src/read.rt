// Values, read out of a store.
use cg_base::{Items, Memory, Name, Part, Sigil, Ty, Word};
use cg_heap::{Fresh, MapStore, Scalar, Store, read_out};
use cg_value::Value;
use std::alloc::Global;
use std::test::Fail;

/// An array of bytes.
fn array_type(alloc: Global) -> Result<Ty, Memory> {
    let mut args = Items::new(alloc);
    args.push(Ty::Word(Word::U8))?;
    Ok(Ty::Abs(Name::new(alloc, b"WordArray")?, args, Sigil::W))
}

/// A part of this name.
fn part(alloc: Global, name: &[u8], ty: Ty) -> Result<Part, Memory> {
    let name = Name::new(alloc, name)?;
    Ok(Part {
        name,
        ty,
        taken: false,
    })
}

/// A boxed record of a byte and an array of bytes.
pub(crate) fn record_type(alloc: Global) -> Result<Ty, Memory> {
    let mut parts = Items::new(alloc);
    parts.push(part(alloc, b"x", Ty::Word(Word::U8))?)?;
    parts.push(part(alloc, b"y", array_type(alloc)?)?)?;
    Ok(Ty::Fields(parts, Sigil::W))
}

/// Writes 5 and an array of 0 and 7 into a record.
fn fill(store: &mut MapStore, record: u64, array: u64) -> bool {
    store.set_element(array, 1, 7)
        && store.set_field(record, 0, Scalar::Word(5))
        && store.set_field(record, 1, Scalar::Address(array))
}

/// Whether a value is the record of 5 and the array of 0 and 7.
fn is_right(value: &Value) -> bool {
    match value {
        Value::Fields(fields) => match fields.as_slice() {
            [x, y] => x.number() == 5 && y.elements() == [0, 7].as_slice(),
            _ => false,
        },
        _ => false,
    }
}

/// Whether the record at an address is read as that.
fn is_read(alloc: Global, store: &MapStore, record: u64) -> Result<bool, Memory> {
    let mut scalars = Items::new(alloc);
    scalars.push(Scalar::Address(record))?;
    let ty = record_type(alloc)?;
    let value = read_out(alloc, store, &ty, &scalars)?;
    Ok(is_right(&value))
}

#[test]
fn a_record_is_read(rt: HostRuntime) -> Result<(), Fail> {
    let mut store = MapStore::new(rt.alloc());
    let record = store.add(Fresh::Slots(2))?;
    let array = store.add(Fresh::Words(2))?;
    assert!(rt; fill(&mut store, record, array));
    assert!(rt; is_read(rt.alloc(), &store, record)?);
    Ok(())
}
