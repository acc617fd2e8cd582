// Values that are written and read, in a frame and in the cells of a store.
ghost use Rattle.std.specs.Prelude.{◌≡◌, Some, length};
ghost use Rattle.cg_base.specs.declared.kind.Word.TheVariants.{U8};
ghost use Rattle.cg_cmachine_layout.specs.declared.kind.Kind.TheVariants.{Word as IsWord};
ghost use Rattle.cg_cmachine_values.specs.declared.place.Place.TheVariants.{Behind};
ghost use Rattle.cg_cmachine_values.specs.Values.{IsWithin};

use cg_base::Word;
use cg_cmachine_layout::{Kind, Part};
use cg_cmachine_values::{CValue, Operand, Place, RunFault, judge, judge_all, push_scalars, write};
use cg_heap::{Fresh, MapStore, Scalar, Store};
use std::alloc::Global;
use std::test::Fail;

/// A byte at a slot of the cell whose address is in the first slot of a frame.
fn byte_behind<'a>(start: u32) -> Place<'a>
    ensures { result ≡ Behind 0 (Some (record { start = start; kind = IsWord U8 })) }
{
    Place::Behind(
        0,
        Some(Part {
            start,
            kind: Kind::Word(Word::U8),
        }),
    )
}

#[test]
fn bytes_are_written_behind_addresses(rt: HostRuntime) -> Result<(), Fail> {
    let alloc = rt.alloc();
    let mut store = MapStore::new(alloc);
    let at = store.add(Fresh::Slots(2))?;
    let mut slots = [Scalar::Address(at), Scalar::Unset];
    let written = write(&mut store, &mut slots, byte_behind(1), CValue::Literal(7));
    assert!(rt; written.is_ok() && matches!(store.get(at, 1), Some(Scalar::Word(7))));
    let read = judge(alloc, &store, &slots, &Operand::Place(byte_behind(1)))?;
    assert!(rt; matches!(&read, CValue::Word(Word::U8, 7)));
    Ok(())
}

#[test]
fn what_is_written_is_in_range(rt: HostRuntime) -> Result<(), Fail> {
    let alloc = rt.alloc();
    let mut store = MapStore::new(alloc);
    let at = store.add(Fresh::Slots(2))?;
    let mut slots = [Scalar::Address(at), Scalar::Unset];
    let high = write(&mut store, &mut slots, byte_behind(1), CValue::Literal(256));
    let beyond = write(&mut store, &mut slots, byte_behind(2), CValue::Literal(7));
    let nowhere = write(&mut store, &mut slots, Place::Nowhere, CValue::Literal(7));
    assert!(rt; high.is_err() && beyond.is_err() && nowhere.is_err());
    assert!(rt; matches!(store.get(at, 1), Some(Scalar::Unset)));
    Ok(())
}

/// The scalars of a number and of what stands at a place of a frame, in order.
fn both(
    alloc: Global,
    store: &MapStore,
    slots: &[Scalar],
    place: Place<'_>,
) -> Result<Vec<Scalar>, RunFault>
    requires { IsWithin (length slots.now) place }
{
    let values = judge_all(
        alloc,
        store,
        slots,
        &[Operand::Number(3), Operand::Place(place)],
    )?;
    let mut scalars = Vec::new(alloc);
    for value in &values {
        push_scalars(&mut scalars, value)?;
    }
    Ok(scalars)
}

#[test]
fn operands_are_read_in_order(rt: HostRuntime) -> Result<(), Fail> {
    let mut store = MapStore::new(rt.alloc());
    let mut slots = [Scalar::Unset, Scalar::Unset];
    let word = Place::Local(1, Kind::Word(Word::U32));
    let seventy = CValue::Word(Word::U32, 70_000);
    assert!(rt; write(&mut store, &mut slots, word, seventy).is_ok());
    let scalars = both(rt.alloc(), &store, &slots, word)?;
    assert!(rt; matches!(scalars.as_slice(), [Scalar::Word(3), Scalar::Word(70_000)]));
    Ok(())
}
