// Functions of the library that make a cell.
#![tactic(auto, using(crate::proofs::CodeSteps::code_steps))]

ghost use Rattle.std.specs.Prelude.{◌≡◌, ◌++◌, [], ◌∷◌, IfOk, OnOk, map};
ghost use Rattle.cg_base.specs.declared.kind.Word.TheVariants.{U8 as word_8};
ghost use Rattle.cg_ctree.specs.declared.tree.CRhs.TheVariants.{IsNull};
ghost use Rattle.cg_ctree.specs.declared.tree.CTy.TheVariants.{Word as word_type};
ghost use Rattle.cg_ctree.specs.Trees.{assign as assign_of, block_of, branch, stmt_of, to_block};
ghost use Rattle.cg_cgen_def.specs.Bodies.{locals_from, setting};
ghost use Rattle.cg_lower_def.specs.LibraryCode.{asking};
ghost use Rattle.cg_cgen_def.specs.Places.{field, held, local, number, operand, path as path_of, payload, tag};
ghost use Rattle.cg_lower_nodes.specs.Views.{place_of};
ghost use Rattle.cg_lower_library.specs.Codes.{IsLow};

use crate::code::{Code, push_local, set};
use cg_base::{Items, Memory, Word};
use cg_cgen_lines::{Base, Step};
use cg_ctree::{CDecl, CRhs, CStmt, CTy};
use cg_lower_nodes::{Place, assign};
use std::alloc::Global;

// The second field of the result is the alternative at a place, with what is kept at another.
fn chosen(alloc: Global, at: usize, value: &Place) -> Result<Items<CStmt>, Memory>
    ensures { IfOk result (λ stmts. map stmt_of stmts ≡ setting 2 (field 1 ∷ tag ∷ []) (number at) ∷ setting 2 (field 1 ∷ payload at ∷ []) (place_of value.now) ∷ []) }
{
    let mut stmts = Items::new(alloc);
    let tag = Place::Number(at as u64);
    set(alloc, &mut stmts, 2, &[Step::Field(1), Step::Tag], &tag)?;
    set(
        alloc,
        &mut stmts,
        2,
        &[Step::Field(1), Step::Payload(at)],
        value,
    )?;
    Ok(stmts)
}

// The second field of the result is Some with the cell, or None where there is none.
fn answer(alloc: Global, stmts: &mut Items<CStmt>) -> Result<(), Memory>
    ensures { OnOk result (map stmt_of stmts.new ≡ map stmt_of stmts.old ++ branch (operand (held (local 1) [])) (to_block (setting 2 (field 1 ∷ tag ∷ []) (number 0) ∷ setting 2 (field 1 ∷ payload 0 ∷ []) (number 0) ∷ [])) (to_block (setting 2 (field 1 ∷ tag ∷ []) (number 1) ∷ setting 2 (field 1 ∷ payload 1 ∷ []) (held (local 0) []) ∷ [])) ∷ []) }
{
    let flag = Place::Held(Base::Local(1), Items::new(alloc)).operand(alloc)?;
    let none = chosen(alloc, 0, &Place::Number(0))?;
    let some = chosen(alloc, 1, &Place::Held(Base::Local(0), Items::new(alloc)))?;
    stmts.push(CStmt::If(flag, none, some))
}

// Whether there is no cell.
fn test(alloc: Global, stmts: &mut Items<CStmt>) -> Result<(), Memory>
    ensures { OnOk result (map stmt_of stmts.new ≡ map stmt_of stmts.old ++ assign_of (path_of (local 1) []) (IsNull (operand (held (local 0) []))) ∷ []) }
{
    let cell = Place::Held(Base::Local(0), Items::new(alloc)).operand(alloc)?;
    assign(alloc, stmts, 1, &[], CRhs::IsNull(cell))
}

// The statements that ask for a cell, with the allocator at a place.
fn ask(alloc: Global, make: CRhs, allocator: &Place) -> Result<Items<CStmt>, Memory>
    ensures { IfOk result (λ stmts. map stmt_of stmts ≡ asking make (place_of allocator.now)) }
{
    let mut stmts = Items::new(alloc);
    assign(alloc, &mut stmts, 0, &[], make)?;
    set(alloc, &mut stmts, 2, &[Step::Field(0)], allocator)?;
    test(alloc, &mut stmts)?;
    answer(alloc, &mut stmts)?;
    Ok(stmts)
}

// The locals of these types.
fn three_locals(alloc: Global, cell: CTy, pair: CTy) -> Result<Items<CDecl>, Memory>
    ensures { IfOk result (λ locals. locals ≡ locals_from 0 (cell ∷ word_type word_8 ∷ pair ∷ [])) }
{
    let mut locals = Items::new(alloc);
    push_local(alloc, &mut locals, cell)?;
    push_local(alloc, &mut locals, CTy::Word(Word::U8))?;
    push_local(alloc, &mut locals, pair)?;
    Ok(locals)
}

// A cell, and the result of which it is a part, as C has them, with what makes it.
pub(crate) fn fresh(
    alloc: Global,
    cell: CTy,
    pair: CTy,
    make: CRhs,
    allocator: &Place,
) -> Result<Code, Memory>
    ensures { IfOk result (λ code. IsLow code (record { value = held (local 2) []; locals = cell ∷ word_type word_8 ∷ pair ∷ []; code = asking make (place_of allocator.now) })) }
{
    Ok(Code {
        locals: three_locals(alloc, cell, pair)?,
        stmts: ask(alloc, make, allocator)?,
        value: Place::Held(Base::Local(2), Items::new(alloc)),
    })
}
