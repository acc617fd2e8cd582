// Nodes, of their lowered parts.
#![tactic(auto, using(crate::proofs::Statements::statement_steps))]

ghost use Rattle.std.specs.Prelude.{◌≡◌, ◌++◌, [], ◌∷◌, not, IfOk, OnOk, map};
ghost use Rattle.cg_base.specs.declared.kind.Sigil.TheVariants.{R, U};
ghost use Rattle.cg_base.specs.declared.kind.Word.TheVariants.{U8};
ghost use Rattle.cg_base.specs.Types.{type_of};
ghost use Rattle.cg_cgen_def.specs.Code.{takes_two as is_binary};
ghost use Rattle.cg_ctree.specs.declared.tree.CTy.TheVariants.{Word as word_type};
ghost use Rattle.cg_ctree.specs.Trees.{block_of, branch, stmt_of};
ghost use Rattle.cg_update.specs.Turns.{field_type};
ghost use Rattle.cg_update.specs.Updates.{sigil_of};
ghost use Rattle.cg_lower_def.specs.Lowered as lowered;
ghost use Rattle.cg_cgen_def.specs.Places as places;
ghost use Rattle.cg_lower_nodes.specs.Grown.{Adds, Bares, Casts, Operates, Owns, Puts, Reads, Sets};
ghost use Rattle.cg_lower_nodes.specs.Kept.{c_type_in};
ghost use Rattle.cg_cgen_lines.specs.Views.{base_of};
ghost use Rattle.cg_lower_nodes.specs.Views.{place_of};

use crate::parts::{field_at, sigil};
use crate::place::Place;
use crate::state::{Lowering, append, assign};
use cg_base::{Items, Memory, Name, Sigil, Ty, Word};
use cg_cgen::op_stmts;
use cg_cgen_lines::{Base, Step, arrow_path, path};
use cg_core::Op;
use cg_ctree::{COp, COpnd, CRhs, CStmt, CTy};
use std::alloc::Global;

/// The value in a local of its own.
pub(crate) fn copied(
    alloc: Global,
    state: &mut Lowering,
    ty: &Ty,
    value: &Place,
) -> Result<Place, Memory>
    ensures { IfOk result (λ place. Sets state.old state.new (c_type_in state.old (type_of ty.now)) (lowered.copy (place_of value.now)) place) }
{
    let value = value.operand(alloc)?;
    state.set(alloc, ty, CRhs::Opnd(value))
}

/// The value converted to a word.
pub(crate) fn converted(
    alloc: Global,
    state: &mut Lowering,
    word: Word,
    value: &Place,
) -> Result<Place, Memory>
    ensures { IfOk result (λ place. Sets state.old state.new (word_type word) (lowered.converting word (place_of value.now)) place) }
{
    let value = value.operand(alloc)?;
    state.set_c(alloc, CTy::Word(word), CRhs::Conv(word, value))
}

/// A field of the cell that a variable points to.
pub(crate) fn fetched(
    alloc: Global,
    state: &mut Lowering,
    ty: &Ty,
    base: Base,
    at: usize,
) -> Result<Place, Memory>
    ensures { IfOk result (λ place. Sets state.old state.new (c_type_in state.old (type_of ty.now)) (lowered.fetching (base_of base) at) place) }
{
    let from = arrow_path(alloc, base, &[Step::Field(at)])?;
    state.set(alloc, ty, CRhs::Opnd(COpnd::Path(from)))
}

/// An alternative.
pub fn injected(
    alloc: Global,
    state: &mut Lowering,
    ty: &Ty,
    at: usize,
    value: &Place,
) -> Result<Place, Memory>
    ensures { IfOk result (λ place. Sets state.old state.new (c_type_in state.old (type_of ty.now)) (lowered.injecting at (place_of value.now)) place) }
{
    let value = value.operand(alloc)?;
    let to = state.fresh(alloc, ty)?;
    let tag = CRhs::Opnd(COpnd::Number(at as u64));
    assign(alloc, &mut state.stmts, to, &[Step::Tag], tag)?;
    assign(
        alloc,
        &mut state.stmts,
        to,
        &[Step::Payload(at)],
        CRhs::Opnd(value),
    )?;
    Ok(Place::Held(Base::Local(to), Items::new(alloc)))
}

// Fills the fields of a local.
fn fill(
    alloc: Global,
    stmts: &mut Items<CStmt>,
    to: usize,
    values: &Items<Place>,
) -> Result<(), Memory>
    ensures { OnOk result (map stmt_of stmts.new ≡ map stmt_of stmts.old ++ lowered.filling 0 (map place_of values.now) to) }
{
    let mut at = 0;
    for value in values.as_slice() {
        let value = value.operand(alloc)?;
        assign(alloc, stmts, to, &[Step::Field(at)], CRhs::Opnd(value))?;
        at += 1;
    }
    Ok(())
}

/// A record.
pub fn filled(
    alloc: Global,
    state: &mut Lowering,
    ty: &Ty,
    values: &Items<Place>,
) -> Result<Place, Memory>
    ensures { IfOk result (λ place. Sets state.old state.new (c_type_in state.old (type_of ty.now)) (lowered.filling 0 (map place_of values.now)) place) }
{
    let to = state.fresh(alloc, ty)?;
    fill(alloc, &mut state.stmts, to, values)?;
    Ok(Place::Held(Base::Local(to), Items::new(alloc)))
}

/// What an operator gives.
pub(crate) fn operated(
    alloc: Global,
    state: &mut Lowering,
    ty: &Ty,
    op: Op,
    word: Word,
    left: &Place,
    right: &Place,
) -> Result<Place, Memory>
    ensures { IfOk result (λ place. Sets state.old state.new (c_type_in state.old (type_of ty.now)) (lowered.operating op word (place_of left.now) (place_of right.now)) place) }
{
    let left = left.operand(alloc)?;
    let right = right.operand(alloc)?;
    let at = state.fresh(alloc, ty)?;
    let to = path(alloc, Base::Local(at), &[])?;
    let stmts = op_stmts(alloc, op, word, to, left, right)?;
    append(&mut state.stmts, stmts)?;
    Ok(Place::Held(Base::Local(at), Items::new(alloc)))
}

// The operands that read places.
fn operands(alloc: Global, values: &Items<Place>) -> Result<Items<COpnd>, Memory>
    ensures { IfOk result (λ os. os ≡ map places.operand (map place_of values.now)) }
{
    let mut operands = Items::new(alloc);
    for value in values.as_slice() {
        operands.push(value.operand(alloc)?)?;
    }
    Ok(operands)
}

/// What a function gives.
pub fn called(
    alloc: Global,
    state: &mut Lowering,
    ty: &Ty,
    name: Name,
    values: &Items<Place>,
) -> Result<Place, Memory>
    ensures { IfOk result (λ place. Sets state.old state.new (c_type_in state.old (type_of ty.now)) (lowered.calling name (map place_of values.now)) place) }
{
    let operands = operands(alloc, values)?;
    state.set(alloc, ty, CRhs::Call(name, operands))
}

/// The value in a variable of its own, where it isn't in one already.
pub(crate) fn bare(
    alloc: Global,
    state: &mut Lowering,
    ty: &Ty,
    value: Place,
) -> Result<Place, Memory>
    ensures { IfOk result (λ place. Bares state.old state.new (c_type_in state.old (type_of ty.now)) value place) }
{
    if value.is_bare() {
        Ok(value)
    } else {
        copied(alloc, state, ty, &value)
    }
}

/// The value in a local that nothing else is kept in: one from a number on.
fn owned(
    alloc: Global,
    state: &mut Lowering,
    from: usize,
    ty: &Ty,
    value: Place,
) -> Result<Place, Memory>
    ensures { IfOk result (λ place. Owns state.old state.new from (c_type_in state.old (type_of ty.now)) value place) }
{
    if value.is_own(from) {
        Ok(value)
    } else {
        copied(alloc, state, ty, &value)
    }
}

// A field that is read from a cell.
fn read_cell(
    alloc: Global,
    state: &mut Lowering,
    whole: &Ty,
    field: &Ty,
    at: usize,
    value: Place,
) -> Result<(Place, Place), Memory>
    ensures { IfOk result (λ two. Reads state.old state.new R (c_type_in state.old (type_of whole.now)) (c_type_in state.old (type_of field.now)) at value two.0 two.1) }
{
    let value = bare(alloc, state, whole, value)?;
    let part = fetched(alloc, state, field, value.base(), at)?;
    Ok((value, part))
}

// A field that is a part of a record.
fn read_row(alloc: Global, at: usize, value: Place) -> Result<(Place, Place), Memory>
    ensures { IfOk result (λ two. (two.0 ≡ value) × (place_of two.1 ≡ places.at (places.field at) (place_of value))) }
{
    let part = value.copy(alloc)?.at(Step::Field(at))?;
    Ok((value, part))
}

/// A field, of a type, of a record of a type: the record that is left behind, and the field.
pub fn read(
    alloc: Global,
    state: &mut Lowering,
    whole: &Ty,
    field: &Ty,
    at: usize,
    value: Place,
) -> Result<(Place, Place), Memory>
    ensures { IfOk result (λ two. Reads state.old state.new (sigil_of (type_of whole.now)) (c_type_in state.old (type_of whole.now)) (c_type_in state.old (type_of field.now)) at value two.0 two.1) }
{
    match sigil(whole) {
        Sigil::U => read_row(alloc, at, value),
        Sigil::R => read_cell(alloc, state, whole, field, at, value),
        Sigil::W => read_cell(alloc, state, whole, field, at, value),
    }
}

/// The same of the field at a place of the record's type.
pub fn read_at(
    alloc: Global,
    state: &mut Lowering,
    whole: &Ty,
    at: usize,
    value: Place,
) -> Result<(Place, Place), Memory>
    ensures { IfOk result (λ two. Reads state.old state.new (sigil_of (type_of whole.now)) (c_type_in state.old (type_of whole.now)) (c_type_in state.old (field_type (type_of whole.now) at)) at value two.0 two.1) }
{
    match field_at(whole, at) {
        Some(field) => read(alloc, state, whole, field, at, value),
        None => read(alloc, state, whole, &Ty::Unit, at, value),
    }
}

// A field of a record is set in its own row.
fn put_row(
    alloc: Global,
    state: &mut Lowering,
    from: usize,
    ty: &Ty,
    at: usize,
    whole: Place,
    value: &Place,
) -> Result<Place, Memory>
    ensures { IfOk result (λ place. Puts state.old state.new from U (c_type_in state.old (type_of ty.now)) at (place_of value.now) whole place) }
{
    let place = owned(alloc, state, from, ty, whole)?;
    let to = path(alloc, place.base(), &[Step::Field(at)])?;
    state.store(alloc, to, value)?;
    Ok(place)
}

// A field of a record is set in its cell.
fn put_cell(
    alloc: Global,
    state: &mut Lowering,
    from: usize,
    ty: &Ty,
    at: usize,
    whole: Place,
    value: &Place,
) -> Result<Place, Memory>
    ensures { IfOk result (λ place. Puts state.old state.new from R (c_type_in state.old (type_of ty.now)) at (place_of value.now) whole place) }
{
    let place = bare(alloc, state, ty, whole)?;
    let to = arrow_path(alloc, place.base(), &[Step::Field(at)])?;
    state.store(alloc, to, value)?;
    Ok(place)
}

/// A field of a record, which was lowered from a number of locals on, is set to a value.
pub fn put(
    alloc: Global,
    state: &mut Lowering,
    from: usize,
    ty: &Ty,
    at: usize,
    whole: Place,
    value: &Place,
) -> Result<Place, Memory>
    ensures { IfOk result (λ place. Puts state.old state.new from (sigil_of (type_of ty.now)) (c_type_in state.old (type_of ty.now)) at (place_of value.now) whole place) }
{
    match sigil(ty) {
        Sigil::U => put_row(alloc, state, from, ty, at, whole, value),
        Sigil::R => put_cell(alloc, state, from, ty, at, whole, value),
        Sigil::W => put_cell(alloc, state, from, ty, at, whole, value),
    }
}

// Whether an operator takes two operands.
fn takes_two(op: Op) -> bool
    ensures { result ≡ is_binary op }
{
    match op {
        Op::Complement | Op::Not => false,
        _ => true,
    }
}

// What an operator gives, where that holds; else 0.
fn operated_where(
    alloc: Global,
    state: &mut Lowering,
    holds: bool,
    ty: &Ty,
    op: Op,
    word: Word,
    left: &Place,
    right: &Place,
) -> Result<Place, Memory>
    ensures { IfOk result (λ place. Operates state.old state.new holds (c_type_in state.old (type_of ty.now)) (lowered.operating op word (place_of left.now) (place_of right.now)) place) }
{
    if holds {
        operated(alloc, state, ty, op, word, left, right)
    } else {
        Ok(Place::Number(0))
    }
}

/// What an operator gives on one operand.
pub fn operated_once(
    alloc: Global,
    state: &mut Lowering,
    ty: &Ty,
    op: Op,
    word: Word,
    value: &Place,
) -> Result<Place, Memory>
    ensures { IfOk result (λ place. Operates state.old state.new (not (is_binary op)) (c_type_in state.old (type_of ty.now)) (lowered.operating op word (place_of value.now) (place_of value.now)) place) }
{
    operated_where(alloc, state, !takes_two(op), ty, op, word, value, value)
}

/// What an operator gives on two operands.
pub fn operated_both(
    alloc: Global,
    state: &mut Lowering,
    ty: &Ty,
    op: Op,
    word: Word,
    left: &Place,
    right: &Place,
) -> Result<Place, Memory>
    ensures { IfOk result (λ place. Operates state.old state.new (is_binary op) (c_type_in state.old (type_of ty.now)) (lowered.operating op word (place_of left.now) (place_of right.now)) place) }
{
    operated_where(alloc, state, takes_two(op), ty, op, word, left, right)
}

/// The value as a word.
pub fn cast(alloc: Global, state: &mut Lowering, word: Word, value: Place) -> Result<Place, Memory>
    ensures { IfOk result (λ place. Casts state.old state.new word value place) }
{
    if value.is_number() {
        Ok(value)
    } else {
        converted(alloc, state, word, &value)
    }
}

/// Whether a variant is of the alternative at a place.
pub fn tagged(
    alloc: Global,
    state: &mut Lowering,
    at: usize,
    value: &Place,
) -> Result<Place, Memory>
    ensures { IfOk result (λ place. Sets state.old state.new (word_type U8) (λ j. lowered.is_tagged (place_of value.now) at j ∷ []) place) }
{
    let tag = value.copy(alloc)?.at(Step::Tag)?.operand(alloc)?;
    let right = CRhs::Binary(Word::U8, Word::U32, COp::Eq, tag, COpnd::Number(at as u64));
    state.set_c(alloc, CTy::Word(Word::U8), right)
}

/// A choice by a number that is kept at a place.
pub fn choose(
    alloc: Global,
    state: &mut Lowering,
    flag: &Place,
    yes: Items<CStmt>,
    no: Items<CStmt>,
) -> Result<(), Memory>
    ensures { OnOk result (Adds state.old state.new (branch (places.operand (place_of flag.now)) (block_of yes) (block_of no) ∷ [])) }
{
    let flag = flag.operand(alloc)?;
    state.stmts.push(CStmt::If(flag, yes, no))
}
