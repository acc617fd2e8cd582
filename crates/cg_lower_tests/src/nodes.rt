// Nodes of words, alternatives, records and choices.
#![tactic(auto)]

use cg_base::{Items, Memory, Name, Part, Sigil, Ty, Word};
use cg_cgen_lines::numbered;
use cg_core::Op;
use cg_lower_nodes::{
    Lowering, Place, called, cast, choose, filled, injected, operated_both, operated_once, put,
    read_at, tagged,
};
use cg_lower_tables::{Places, Structs};
use std::alloc::Global;
use std::test::Fail;

/// A body that holds nothing.
pub(crate) fn start(alloc: Global) -> Lowering {
    Lowering {
        places: Places::new(alloc),
        structs: Structs::new(alloc),
        locals: Items::new(alloc),
        stmts: Items::new(alloc),
        scope: Vec::new(alloc),
    }
}

/// A sum, its complement, and this as another word.
fn words(alloc: Global, state: &mut Lowering) -> Result<Place, Memory> {
    let ty = Ty::Word(Word::U32);
    let sum = operated_both(
        alloc,
        state,
        &ty,
        Op::Add,
        Word::U32,
        &Place::Number(1),
        &Place::Number(2),
    )?;
    let flipped = operated_once(alloc, state, &ty, Op::Complement, Word::U32, &sum)?;
    cast(alloc, state, Word::U64, flipped)
}

/// What a function gives on whether an alternative is that of a place.
fn alternatives(alloc: Global, state: &mut Lowering) -> Result<Place, Memory> {
    let value = injected(alloc, state, &Ty::Bool, 1, &Place::Number(3))?;
    let flag = tagged(alloc, state, 1, &value)?;
    let mut values = Items::new(alloc);
    values.push(flag)?;
    let name = numbered(alloc, b'f', 0)?;
    called(alloc, state, &Ty::Unit, name, &values)
}

/// A record of a word, in a cell.
fn cell(alloc: Global) -> Result<Ty, Memory> {
    let mut parts = Items::new(alloc);
    let name = Name::new(alloc, b"x")?;
    parts.push(Part {
        name,
        ty: Ty::Word(Word::U32),
        taken: false,
    })?;
    Ok(Ty::Fields(parts, Sigil::W))
}

/// The field of a record, which is made and then set.
fn fields(alloc: Global, state: &mut Lowering, ty: &Ty) -> Result<Place, Memory> {
    let from = state.locals.len();
    let values = Items::new(alloc);
    let whole = filled(alloc, state, ty, &values)?;
    let whole = put(alloc, state, from, ty, 0, whole, &Place::Number(5))?;
    let (left, part) = read_at(alloc, state, ty, 0, whole)?;
    drop(left);
    Ok(part)
}

/// A choice between two numbers.
fn chosen(alloc: Global, state: &mut Lowering) -> Result<(), Memory> {
    let to = state.fresh(alloc, &Ty::Bool)?;
    let outer = state.begin(alloc);
    let yes = state.end(alloc, outer, to, Place::Number(1))?;
    let outer = state.begin(alloc);
    let no = state.end(alloc, outer, to, Place::Number(2))?;
    choose(alloc, state, &Place::Number(1), yes, no)
}

#[test]
fn nodes_set_locals_of_their_own(rt: HostRuntime) -> Result<(), Fail> {
    let alloc = rt.alloc();
    let mut state = start(alloc);
    let value = words(alloc, &mut state)?;
    state.bind(value)?;
    state.unbind(0);
    assert_eq!(rt; state.locals.len(), 3);
    drop(alternatives(alloc, &mut state)?);
    assert_eq!(rt; state.locals.len(), 6);
    Ok(())
}

#[test]
fn fields_and_choices_add_what_they_set(rt: HostRuntime) -> Result<(), Fail> {
    let alloc = rt.alloc();
    let mut state = start(alloc);
    let ty = cell(alloc)?;
    drop(fields(alloc, &mut state, &ty)?);
    assert_eq!(rt; state.locals.len(), 2);
    chosen(alloc, &mut state)?;
    assert_eq!(rt; state.stmts.len(), 3);
    Ok(())
}
