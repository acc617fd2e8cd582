// The C of an iterator.
#![tactic(auto, using(crate::proofs::Declaring::type_steps))]

ghost use Rattle.std.specs.Prelude.{◌≡◌, ◌++◌, [], ◌∷◌, IfOk, map};
ghost use Rattle.cg_cgen_def.specs.Bodies.{body_of, leaf, locals_from};
ghost use Rattle.cg_cgen_def.specs.Loops.{break_low, fold_low, iterator_function, iterator_low, loop_low, map_low};
ghost use Rattle.cg_cgen_def.specs.Names.{declared};
ghost use Rattle.cg_cgen_def.specs.Places.{argument_name, number as number_place};
ghost use Rattle.cg_cgen_lines.specs.Lines.{operand_at};
ghost use Rattle.cg_ctree.specs.Trees as trees;
ghost use Rattle.cg_ctree.specs.Trees.{return', stmt_of, to_block};
ghost use Rattle.cg_cgen.specs.Iterators.{kind_type, types_of};

use crate::arrays::{fold_code, map_code};
use crate::breaks::break_code;
use crate::copies::copy_type;
use crate::locals::{Kind, declarations};
use crate::loops::loop_code;
use cg_base::{Items, Lib, Memory, Name, Word};
use cg_cgen_lines::{Spot, numbered, operand};
use cg_ctree::{CBody, CDecl, CFun, CStmt, CTy};
use std::alloc::Global;

/// Of an iterator the types in C of its argument and of its result, of what its function takes and gives, and the word of its elements or of
/// its counter (docs/LANGUAGE.md, "The C of instances", library).
#[derive(Drop)]
pub struct IterTypes {
    pub arg: CTy,
    pub result: CTy,
    pub item: CTy,
    pub answer: CTy,
    pub word: Word,
}

// A body, which returns the value.
fn body(
    alloc: Global,
    locals: Items<CDecl>,
    mut stmts: Items<CStmt>,
    value: Spot,
) -> Result<CBody, Memory>
    ensures { IfOk result (λ b. trees.body_of b ≡ record { locals = locals; block = to_block (map stmt_of stmts ++ return' (operand_at value) ∷ []) }) }
{
    let value = operand(alloc, value)?;
    stmts.push(CStmt::Return(value))?;
    Ok(CBody { locals, stmts })
}

// The body of a function of the library that is no iterator, which is none of its C.
fn no_body(alloc: Global) -> Result<CBody, Memory>
    ensures { IfOk result (λ b. trees.body_of b ≡ body_of (leaf (number_place 0))) }
{
    body(alloc, Items::new(alloc), Items::new(alloc), Spot::Number(0))
}

// A body with locals of these kinds.
fn body_with(
    alloc: Global,
    types: &IterTypes,
    kinds: &[Kind],
    stmts: Items<CStmt>,
    value: Spot,
) -> Result<CBody, Memory>
    ensures { IfOk result (λ b. trees.body_of b ≡ record { locals = locals_from 0 (map (kind_type (types_of types.now)) kinds.now); block = to_block (map stmt_of stmts ++ return' (operand_at value) ∷ []) }) }
{
    let locals = declarations(alloc, types, kinds)?;
    body(alloc, locals, stmts, value)
}

// The body of `fold`.
fn fold_body(alloc: Global, types: &IterTypes, callee: &Name) -> Result<CBody, Memory>
    ensures { IfOk result (λ b. trees.body_of b ≡ body_of (fold_low (types_of types.now) callee.now)) }
{
    let stmts = fold_code(alloc, callee, types.word)?;
    let index = Kind::Word(Word::U32);
    let kinds = [index, index, Kind::Word(Word::U8), Kind::Item];
    body_with(alloc, types, &kinds, stmts, Spot::Field(3, 1))
}

// The body of `map`.
fn map_body(alloc: Global, types: &IterTypes, callee: &Name) -> Result<CBody, Memory>
    ensures { IfOk result (λ b. trees.body_of b ≡ body_of (map_low (types_of types.now) callee.now)) }
{
    let stmts = map_code(alloc, callee, types.word)?;
    let index = Kind::Word(Word::U32);
    let kinds = [
        index,
        index,
        Kind::Word(Word::U8),
        Kind::Item,
        Kind::Answer,
        Kind::Result,
    ];
    body_with(alloc, types, &kinds, stmts, Spot::Local(5))
}

// The body of a loop over numbers of a word.
fn loop_body(alloc: Global, types: &IterTypes, word: Word, callee: &Name) -> Result<CBody, Memory>
    ensures { IfOk result (λ b. trees.body_of b ≡ body_of (loop_low word (types_of types.now) callee.now)) }
{
    let stmts = loop_code(alloc, callee, word)?;
    let index = Kind::Word(word);
    let flag = Kind::Word(Word::U8);
    let kinds = [index, index, flag, flag, Kind::Item];
    body_with(alloc, types, &kinds, stmts, Spot::Field(4, 0))
}

// The body of a loop that a turn may end.
fn break_body(alloc: Global, types: &IterTypes, callee: &Name) -> Result<CBody, Memory>
    ensures { IfOk result (λ b. trees.body_of b ≡ body_of (break_low (types_of types.now) callee.now)) }
{
    let stmts = break_code(alloc, callee)?;
    let index = Kind::Word(Word::U32);
    let flag = Kind::Word(Word::U8);
    let kinds = [
        index,
        index,
        flag,
        flag,
        Kind::Item,
        Kind::Result,
        Kind::Result,
    ];
    body_with(alloc, types, &kinds, stmts, Spot::Local(6))
}

// The body of an iterator.
fn body_by(alloc: Global, lib: Lib, types: &IterTypes, callee: &Name) -> Result<CBody, Memory>
    ensures { IfOk result (λ b. trees.body_of b ≡ body_of (iterator_low lib (types_of types.now) callee.now)) }
{
    match lib {
        Lib::Map => map_body(alloc, types, callee),
        Lib::Fold => fold_body(alloc, types, callee),
        Lib::Seq32 => loop_body(alloc, types, Word::U32, callee),
        Lib::Seq64 => loop_body(alloc, types, Word::U64, callee),
        Lib::Seq32Break => break_body(alloc, types, callee),
        _ => no_body(alloc),
    }
}

// The one parameter.
fn parameters(alloc: Global, arg: &CTy) -> Result<Items<CDecl>, Memory>
    ensures { IfOk result (λ ds. ds ≡ declared arg.now argument_name ∷ []) }
{
    let name = numbered(alloc, b'a', 0)?;
    let ty = copy_type(alloc, arg)?;
    let mut params = Items::new(alloc);
    params.push(CDecl { ty, name })?;
    Ok(params)
}

// The function of a name.
fn function(
    alloc: Global,
    lib: Lib,
    name: Name,
    types: &IterTypes,
    callee: &Name,
) -> Result<CFun, Memory>
    ensures { IfOk result (λ f. trees.function_of f ≡ iterator_function lib name (types_of types.now) callee.now) }
{
    let ty = copy_type(alloc, &types.result)?;
    let params = parameters(alloc, &types.arg)?;
    let body = body_by(alloc, lib, types, callee)?;
    Ok(CFun {
        ty,
        name,
        params,
        body: Some(body),
    })
}

/// The C function of a name that is an iterator, a loop that calls the function of the name `call` with the tag in the iterator's argument and
/// an item, once a turn and in the order of the indices (docs/LANGUAGE.md, "The C of instances", library); of another function of the library
/// one that gives 0. What it does is the law `iterators_run` of cg_lower_laws. The one error is want of memory.
pub fn iterator(
    alloc: Global,
    lib: Lib,
    name: Name,
    types: IterTypes,
    call: Name,
) -> Result<CFun, Memory>
    ensures { IfOk result (λ f. trees.function_of f ≡ iterator_function lib name (types_of types) call) }
{
    let function = function(alloc, lib, name, &types, &call);
    drop(types);
    drop(call);
    function
}
