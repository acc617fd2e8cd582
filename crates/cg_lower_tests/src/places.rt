// Places of instances and of arrow types.
#![tactic(auto)]

use cg_base::{Fun, Items, Memory, Place, Ty, Word};
use cg_core::TyArg;
use cg_inst::Instance;
use cg_lower_tables::Places;
use std::alloc::Global;
use std::test::Fail;

/// The instance of a function of the user at a word.
fn one(alloc: Global, at: u32, word: Word) -> Result<Instance, Memory> {
    let mut args = Items::new(alloc);
    args.push(Ty::Word(word))?;
    Ok(Instance {
        fun: Fun::User(at),
        args,
    })
}

/// A type argument that is a word.
fn argument(alloc: Global, word: Word) -> Result<Items<TyArg>, Memory> {
    let mut args = Items::new(alloc);
    args.push(TyArg {
        place: Place { line: 1, column: 1 },
        ty: Ty::Word(word),
    })?;
    Ok(args)
}

/// Adds an instance, which is let go.
fn add(alloc: Global, places: &mut Places, instance: Instance) -> Result<(), Memory> {
    let added = places.push(alloc, &instance);
    drop(instance);
    added
}

/// Where an instance stands.
fn found(alloc: Global, places: &mut Places, at: u32, word: Word) -> Result<usize, Memory> {
    let args = argument(alloc, word)?;
    let place = places.place(alloc, Fun::User(at), &args);
    drop(args);
    place
}

#[test]
fn instances_and_arrows_stand_where_they_came(rt: HostRuntime) -> Result<(), Fail> {
    let alloc = rt.alloc();
    let mut places = Places::new(alloc);
    add(alloc, &mut places, one(alloc, 0, Word::U8)?)?;
    add(alloc, &mut places, one(alloc, 0, Word::U32)?)?;
    places.add_arrow(alloc, &Ty::Unit)?;
    places.add_arrow(alloc, &Ty::Bool)?;
    places.add_arrow(alloc, &Ty::Unit)?;
    assert_eq!(rt; places.len(), 2);
    assert_eq!(rt; found(alloc, &mut places, 0, Word::U32)?, 1);
    assert_eq!(rt; places.arrow_types().len(), 2);
    assert_eq!(rt; places.arrow(alloc, &Ty::Bool)?, 1);
    Ok(())
}
