// The addresses that values reach.
use crate::read::record_type;
use cg_base::{Items, Sigil};
use cg_heap::{Fresh, MapStore, Scalar, Store, reached};
use std::test::Fail;

#[test]
fn a_record_reaches_its_array(rt: HostRuntime) -> Result<(), Fail> {
    let mut store = MapStore::new(rt.alloc());
    let record = store.add(Fresh::Slots(2))?;
    let array = store.add(Fresh::Words(2))?;
    assert!(rt; store.set_field(record, 1, Scalar::Address(array)));
    let ty = record_type(rt.alloc())?;
    let mut scalars = Items::new(rt.alloc());
    scalars.push(Scalar::Address(record))?;
    let writes = reached(rt.alloc(), &store, &ty, &scalars, Sigil::W)?;
    assert!(rt; writes.as_slice() == [record, array].as_slice());
    let reads = reached(rt.alloc(), &store, &ty, &scalars, Sigil::R)?;
    assert!(rt; reads.as_slice().is_empty());
    Ok(())
}
