// Statements of iterators, as data and written; `callee` is the name of the function that is called in each turn.
#![tactic(auto, using(crate::proofs::Writing::written_steps))]

ghost use Rattle.std.specs.Prelude.{◌≡◌, ◌++◌, [], ◌∷◌, IfOk, OnOk, map};
ghost use Rattle.cg_cgen_def.specs.Code.{inner as inner_of};
ghost use Rattle.cg_cmachine_def.specs.BuiltIns.{array_call};
ghost use Rattle.cg_ctree.specs.declared.tree.CRhs.TheVariants.{Binary, Opnd};
ghost use Rattle.cg_ctree.specs.Trees.{assign, block_of, branch, stmt_of, while};
ghost use Rattle.cg_cgen_lines.specs.declared.lines.Line.TheVariants.{Where};
ghost use Rattle.cg_cgen_lines.specs.declared.spots.Spot.TheVariants.{Given, Local};
ghost use Rattle.cg_cgen_lines.specs.Lines.{calling, line_of, operand_at, putting, right_of, target_at};

use crate::names::{array_name, inner};
use crate::spots::{Spot, operand, operands, target};
use cg_base::{Items, Memory, Name, Word};
use cg_ctree::{COp, COpnd, CRhs, CStmt};
use std::alloc::Global;

/// What is assigned: what is at a spot, an operation in a word (the first is that of its result), the length of the array, an element of it,
/// or what the function that is called in each turn gives of an item.
#[derive(Clone, Copy)]
pub enum Right {
    At(Spot),
    Binary(COp, Word, Word, Spot, Spot),
    Length(Word),
    Get(Word, Spot),
    Turn(Spot),
}

/// A statement: it assigns, puts an element at an index, or assigns where a flag says so.
#[derive(Clone, Copy)]
pub enum Line {
    Set(Spot, Right),
    Put(Word, Spot, Spot),
    Where(Spot, Spot, Right),
}

// What is at a spot.
fn read(alloc: Global, from: Spot) -> Result<CRhs, Memory>
    ensures { IfOk result (λ r. r ≡ Opnd (operand_at from)) }
{
    Ok(CRhs::Opnd(operand(alloc, from)?))
}

// What an operation gives.
fn computed(
    alloc: Global,
    op: COp,
    outer: Word,
    word: Word,
    left: Spot,
    right: Spot,
) -> Result<CRhs, Memory>
    ensures { IfOk result (λ r. r ≡ Binary outer (inner_of word) op (operand_at left) (operand_at right)) }
{
    let left = operand(alloc, left)?;
    let right = operand(alloc, right)?;
    Ok(CRhs::Binary(outer, inner(word), op, left, right))
}

// What a function gives.
fn called(alloc: Global, name: Name, spots: &[Spot]) -> Result<CRhs, Memory>
    ensures { IfOk result (λ r. r ≡ calling name spots.now) }
{
    let operands = operands(alloc, spots)?;
    Ok(CRhs::Call(name, operands))
}

// What a built-in on arrays gives.
fn called_on_array(alloc: Global, word: Word, action: &[u8], spots: &[Spot]) -> Result<CRhs, Memory>
    ensures { IfOk result (λ r. r ≡ calling (array_call word action.now) spots.now) }
{
    let name = array_name(alloc, word, action)?;
    called(alloc, name, spots)
}

// What the function that is called in each turn gives.
fn turned(alloc: Global, callee: &Name, item: Spot) -> Result<CRhs, Memory>
    ensures { IfOk result (λ r. r ≡ calling callee.now (Given 3 ∷ item ∷ [])) }
{
    let name = callee.copy(alloc)?;
    called(alloc, name, &[Spot::Given(3), item])
}

// What is assigned, by its kind.
fn right_side(alloc: Global, callee: &Name, right: Right) -> Result<CRhs, Memory>
    ensures { IfOk result (λ r. r ≡ right_of callee.now right) }
{
    match right {
        Right::At(from) => read(alloc, from),
        Right::Binary(op, outer, word, left, right) => {
            computed(alloc, op, outer, word, left, right)
        }
        Right::Length(word) => called_on_array(alloc, word, b"length", &[Spot::Given(0)]),
        Right::Get(word, at) => called_on_array(alloc, word, b"get", &[Spot::Given(0), at]),
        Right::Turn(item) => turned(alloc, callee, item),
    }
}

// The statement that assigns.
fn assigned(alloc: Global, callee: &Name, to: Spot, right: Right) -> Result<CStmt, Memory>
    ensures { IfOk result (λ s. stmt_of s ≡ assign (target_at to) (right_of callee.now right)) }
{
    let to = target(alloc, to)?;
    let right = right_side(alloc, callee, right)?;
    Ok(CStmt::Assign(to, right))
}

// The statement that puts an element.
fn put(alloc: Global, word: Word, at: Spot, from: Spot) -> Result<CStmt, Memory>
    ensures { IfOk result (λ s. stmt_of s ≡ putting word at from) }
{
    let name = array_name(alloc, word, b"put")?;
    let operands = operands(alloc, &[Spot::Given(0), at, from])?;
    Ok(CStmt::Call(name, operands))
}

// The statement that assigns where a flag says so.
fn assigned_where(
    alloc: Global,
    callee: &Name,
    flag: Spot,
    to: Spot,
    right: Right,
) -> Result<CStmt, Memory>
    ensures { IfOk result (λ s. stmt_of s ≡ line_of callee.now (Where flag to right)) }
{
    let flag = operand(alloc, flag)?;
    let mut yes = Items::new(alloc);
    yes.push(assigned(alloc, callee, to, right)?)?;
    Ok(CStmt::If(flag, yes, Items::new(alloc)))
}

// The statement of a line.
fn statement(alloc: Global, callee: &Name, line: Line) -> Result<CStmt, Memory>
    ensures { IfOk result (λ s. stmt_of s ≡ line_of callee.now line) }
{
    match line {
        Line::Set(to, right) => assigned(alloc, callee, to, right),
        Line::Put(word, at, from) => put(alloc, word, at, from),
        Line::Where(flag, to, right) => assigned_where(alloc, callee, flag, to, right),
    }
}

// Writes the statements of lines behind others.
fn write(
    alloc: Global,
    callee: &Name,
    stmts: &mut Items<CStmt>,
    lines: &[Line],
) -> Result<(), Memory>
    ensures { OnOk result (map stmt_of stmts.new ≡ map stmt_of stmts.old ++ map (line_of callee.now) lines.now) }
{
    for line in lines {
        stmts.push(statement(alloc, callee, *line)?)?;
    }
    Ok(())
}

/// The statements of lines, and of those that come behind them. The one error is want of memory, here and in what stands below.
pub fn written(
    alloc: Global,
    callee: &Name,
    lines: &[Line],
    more: &[Line],
) -> Result<Items<CStmt>, Memory>
    ensures { IfOk result (λ ss. map stmt_of ss ≡ map (line_of callee.now) lines.now ++ map (line_of callee.now) more.now) }
{
    let mut stmts = Items::new(alloc);
    write(alloc, callee, &mut stmts, lines)?;
    write(alloc, callee, &mut stmts, more)?;
    Ok(stmts)
}

/// The statements of lines, with a loop behind them that goes on as long as x2 says so.
pub fn repeated(
    alloc: Global,
    callee: &Name,
    lines: &[Line],
    more: &[Line],
    turn: Items<CStmt>,
) -> Result<Items<CStmt>, Memory>
    ensures { IfOk result (λ ss. map stmt_of ss ≡ (map (line_of callee.now) lines.now ++ map (line_of callee.now) more.now) ++ while (operand_at (Local 2)) (block_of turn) ∷ []) }
{
    let flag = operand(alloc, Spot::Local(2))?;
    let mut stmts = written(alloc, callee, lines, more)?;
    stmts.push(CStmt::While(flag, turn))?;
    Ok(stmts)
}

/// The same, with lines behind the loop.
pub fn repeated_before(
    alloc: Global,
    callee: &Name,
    lines: &[Line],
    more: &[Line],
    turn: Items<CStmt>,
    ends: &[Line],
) -> Result<Items<CStmt>, Memory>
    ensures { IfOk result (λ ss. map stmt_of ss ≡ ((map (line_of callee.now) lines.now ++ map (line_of callee.now) more.now) ++ while (operand_at (Local 2)) (block_of turn) ∷ []) ++ map (line_of callee.now) ends.now) }
{
    let mut stmts = repeated(alloc, callee, lines, more, turn)?;
    write(alloc, callee, &mut stmts, ends)?;
    Ok(stmts)
}

/// The statements of lines, with a choice behind them.
pub fn chosen(
    alloc: Global,
    callee: &Name,
    lines: &[Line],
    flag: Spot,
    yes: Items<CStmt>,
    no: Items<CStmt>,
) -> Result<Items<CStmt>, Memory>
    ensures { IfOk result (λ ss. map stmt_of ss ≡ map (line_of callee.now) lines.now ++ branch (operand_at flag) (block_of yes) (block_of no) ∷ []) }
{
    let flag = operand(alloc, flag)?;
    let mut stmts = written(alloc, callee, lines, &[])?;
    stmts.push(CStmt::If(flag, yes, no))?;
    Ok(stmts)
}
