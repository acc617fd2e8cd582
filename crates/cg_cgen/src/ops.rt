// The C of operators.
#![tactic(auto, using(crate::proofs::Statements::code_steps))]

ghost use Rattle.std.specs.Prelude.{◌≡◌, [], ◌∷◌, map, IfOk};
ghost use Rattle.cg_base.specs.declared.kind.Word.TheVariants.{U8};
ghost use Rattle.cg_base.specs.Words.{bits as bits_of};
ghost use Rattle.cg_ctree.specs.declared.tree.COp.TheVariants as op;
ghost use Rattle.cg_ctree.specs.declared.tree.COpnd.TheVariants.{Number};
ghost use Rattle.cg_ctree.specs.declared.tree.CRhs.TheVariants.{Opnd, Binary};
ghost use Rattle.cg_ctree.specs.Trees.{assign as assign_of, block_of, branch, stmt_of};
ghost use Rattle.cg_cgen_def.specs.Code.{inner as inner_of, computed_by, divided_by, dividing, shifted_by, shifting, zero_set, op_code};
ghost use Rattle.cg_cgen.specs.Meanings.{Computes};

use crate::copies::{copy_operand, copy_path};
use cg_base::{Items, Memory, Word};
use cg_cgen_lines::inner;
use cg_core::Op;
use cg_ctree::{COp, COpnd, CPath, CRhs, CStmt};
use std::alloc::Global;

// How many bits a word has.
fn bits(word: Word) -> u64
    ensures { result ≡ bits_of word }
{
    match word {
        Word::U8 => 8,
        Word::U16 => 16,
        Word::U32 => 32,
        Word::U64 => 64,
    }
}

// The operation `(w)((v)left op (v)right)` on a word w with its inner word v.
fn binary(word: Word, op: COp, left: COpnd, right: COpnd) -> CRhs
    ensures { result ≡ Binary word (inner_of word) op left right }
{
    CRhs::Binary(word, inner(word), op, left, right)
}

// The same, where it gives a truth value: `(uint8_t)((v)left op (v)right)`.
fn test(word: Word, op: COp, left: COpnd, right: COpnd) -> CRhs
    ensures { result ≡ Binary U8 (inner_of word) op left right }
{
    CRhs::Binary(Word::U8, inner(word), op, left, right)
}

// The one statement that assigns to a path.
fn assign(alloc: Global, to: CPath, right: CRhs) -> Result<Items<CStmt>, Memory>
    ensures { IfOk result (λ stmts. map stmt_of stmts ≡ assign_of to right ∷ []) }
{
    let mut stmts = Items::new(alloc);
    stmts.push(CStmt::Assign(to, right))?;
    Ok(stmts)
}

// The one statement that chooses between two blocks.
fn choice(
    alloc: Global,
    test: COpnd,
    yes: Items<CStmt>,
    no: Items<CStmt>,
) -> Result<Items<CStmt>, Memory>
    ensures { IfOk result (λ stmts. map stmt_of stmts ≡ branch test (block_of yes) (block_of no) ∷ []) }
{
    let mut stmts = Items::new(alloc);
    stmts.push(CStmt::If(test, yes, no))?;
    Ok(stmts)
}

// The statement that sets a path to 0.
fn zero(alloc: Global, to: &CPath) -> Result<Items<CStmt>, Memory>
    ensures { IfOk result (λ stmts. map stmt_of stmts ≡ zero_set to.now) }
{
    assign(alloc, copy_path(alloc, to)?, CRhs::Opnd(COpnd::Number(0)))
}

// A division or its remainder, which is 0 where the divisor is.
fn divided(
    alloc: Global,
    op: COp,
    word: Word,
    to: CPath,
    left: COpnd,
    right: COpnd,
) -> Result<Items<CStmt>, Memory>
    ensures { IfOk result (λ stmts. map stmt_of stmts ≡ divided_by op word to left right) }
{
    let no = zero(alloc, &to)?;
    let divisor = copy_operand(alloc, &right)?;
    let yes = assign(alloc, to, binary(word, op, left, right))?;
    choice(alloc, divisor, yes, no)
}

// The same by any operand: a literal isn't tested.
fn dividing(
    alloc: Global,
    op: COp,
    word: Word,
    to: CPath,
    left: COpnd,
    right: COpnd,
) -> Result<Items<CStmt>, Memory>
    ensures { IfOk result (λ stmts. map stmt_of stmts ≡ dividing op word to left right) }
{
    match &right {
        COpnd::Number(0) => zero(alloc, &to),
        COpnd::Number(_) => assign(alloc, to, binary(word, op, left, right)),
        COpnd::Path(_) => divided(alloc, op, word, to, left, right),
    }
}

// The statement that sets a path to whether a shift is by fewer bits than the word has.
fn within(alloc: Global, word: Word, to: &CPath, right: &COpnd) -> Result<Items<CStmt>, Memory>
    ensures { IfOk result (λ stmts. map stmt_of stmts ≡ computed_by op.Lt word word to.now right.now (Number (bits_of word)) ∷ []) }
{
    let shift = copy_operand(alloc, right)?;
    let to = copy_path(alloc, to)?;
    assign(
        alloc,
        to,
        binary(word, COp::Lt, shift, COpnd::Number(bits(word))),
    )
}

// A shift, which gives 0 where it is by as many bits as the word has or more.
fn shifted(
    alloc: Global,
    op: COp,
    word: Word,
    to: CPath,
    left: COpnd,
    right: COpnd,
) -> Result<Items<CStmt>, Memory>
    ensures { IfOk result (λ stmts. map stmt_of stmts ≡ shifted_by op word to left right) }
{
    let mut stmts = within(alloc, word, &to, &right)?;
    let test = copy_path(alloc, &to)?;
    let yes = assign(alloc, to, binary(word, op, left, right))?;
    stmts.push(CStmt::If(COpnd::Path(test), yes, Items::new(alloc)))?;
    Ok(stmts)
}

// The same by any operand: a literal isn't tested.
fn shifting(
    alloc: Global,
    op: COp,
    word: Word,
    to: CPath,
    left: COpnd,
    right: COpnd,
) -> Result<Items<CStmt>, Memory>
    ensures { IfOk result (λ stmts. map stmt_of stmts ≡ shifting op word to left right) }
{
    match &right {
        COpnd::Number(shift) if *shift < bits(word) => {
            assign(alloc, to, binary(word, op, left, right))
        }
        COpnd::Number(_) => zero(alloc, &to),
        COpnd::Path(_) => shifted(alloc, op, word, to, left, right),
    }
}

// The statements, by the operator.
fn stmts(
    alloc: Global,
    op: Op,
    word: Word,
    to: CPath,
    left: COpnd,
    right: COpnd,
) -> Result<Items<CStmt>, Memory>
    ensures { IfOk result (λ stmts. map stmt_of stmts ≡ op_code op word to left right) }
{
    match op {
        Op::Add => assign(alloc, to, binary(word, COp::Add, left, right)),
        Op::Sub => assign(alloc, to, binary(word, COp::Sub, left, right)),
        Op::Mul => assign(alloc, to, binary(word, COp::Mul, left, right)),
        Op::Div => dividing(alloc, COp::Div, word, to, left, right),
        Op::Rem => dividing(alloc, COp::Rem, word, to, left, right),
        Op::And => assign(alloc, to, binary(word, COp::And, left, right)),
        Op::Or => assign(alloc, to, binary(word, COp::Or, left, right)),
        Op::Xor => assign(alloc, to, binary(word, COp::Xor, left, right)),
        Op::Shl => shifting(alloc, COp::Shl, word, to, left, right),
        Op::Shr => shifting(alloc, COp::Shr, word, to, left, right),
        Op::Eq => assign(alloc, to, test(word, COp::Eq, left, right)),
        Op::Ne => assign(alloc, to, test(word, COp::Ne, left, right)),
        Op::Lt => assign(alloc, to, test(word, COp::Lt, left, right)),
        Op::Gt => assign(alloc, to, test(word, COp::Gt, left, right)),
        Op::Le => assign(alloc, to, test(word, COp::Le, left, right)),
        Op::Ge => assign(alloc, to, test(word, COp::Ge, left, right)),
        Op::Both => assign(alloc, to, test(word, COp::And, left, right)),
        Op::Either => assign(alloc, to, test(word, COp::Or, left, right)),
        Op::Complement => assign(alloc, to, CRhs::Flip(word, inner(word), left)),
        Op::Not => assign(alloc, to, test(word, COp::Eq, left, COpnd::Number(0))),
    }
}

/// The statements that set a path to what an operator gives of two operands of a word, or of the first alone (docs/LANGUAGE.md,
/// "Operators in C"). Where the operands can be read and are of other variables than the path, they take at most 6 steps and
/// change nothing else. The one error is want of memory.
pub fn op_stmts(
    alloc: Global,
    op: Op,
    word: Word,
    to: CPath,
    left: COpnd,
    right: COpnd,
) -> Result<Items<CStmt>, Memory>
    ensures made { IfOk result (λ stmts. map stmt_of stmts ≡ op_code op word to left right) }
    ensures computes { IfOk result (λ stmts. Computes op word to left right (map stmt_of stmts)) }
{
    stmts(alloc, op, word, to, left, right)
}
