// The statements of a shift and of a division, by their shapes.
#![tactic(auto)]

use cg_base::{Items, Memory, Name, Word};
use cg_cgen::op_stmts;
use cg_core::Op;
use cg_ctree::{COp, COpnd, CPath, CRhs, CStmt};
use std::alloc::Global;
use std::test::Fail;

/// A variable.
fn variable(alloc: Global, name: &[u8]) -> Result<CPath, Memory> {
    Ok(CPath {
        base: Name::new(alloc, name)?,
        arrow: false,
        members: Items::new(alloc),
    })
}

/// The statements of an operator on words of 16 bits.
fn stmts_of(alloc: Global, op: Op) -> Result<Items<CStmt>, Memory> {
    let to = variable(alloc, b"z")?;
    let left = COpnd::Path(variable(alloc, b"x")?);
    let right = COpnd::Path(variable(alloc, b"y")?);
    op_stmts(alloc, op, Word::U16, to, left, right)
}

/// Whether a statement is one operation on words of 16 bits.
fn computes(stmt: &CStmt, operation: COp) -> bool {
    match stmt {
        CStmt::Assign(_, CRhs::Binary(Word::U16, Word::U32, found, _, _)) => *found == operation,
        _ => false,
    }
}

/// Whether a statement sets its path to 0.
fn is_zero(stmt: &CStmt) -> bool {
    match stmt {
        CStmt::Assign(_, CRhs::Opnd(operand)) => matches!(operand, COpnd::Number(0)),
        _ => false,
    }
}

/// The second block of a choice whose first is one operation.
fn chooses(stmt: &CStmt, operation: COp) -> Option<&[CStmt]> {
    match stmt {
        CStmt::If(COpnd::Path(_), yes, no) => match yes.as_slice() {
            [only] if computes(only, operation) => Some(no.as_slice()),
            _ => None,
        },
        _ => None,
    }
}

/// Whether statements are a shift behind the test whether it is by fewer bits than there are.
fn is_shift(stmts: &[CStmt]) -> bool {
    match stmts {
        [first, second] => {
            computes(first, COp::Lt) && matches!(chooses(second, COp::Shl), Some([]))
        }
        _ => false,
    }
}

/// Whether statements are a division, or 0 where it is by 0.
fn is_division(stmts: &[CStmt]) -> bool {
    match stmts {
        [only] => match chooses(only, COp::Div) {
            Some([otherwise]) => is_zero(otherwise),
            _ => false,
        },
        _ => false,
    }
}

#[test]
fn shifts_are_tested_first(rt: HostRuntime) -> Result<(), Fail> {
    let stmts = stmts_of(rt.alloc(), Op::Shl)?;
    assert!(rt; is_shift(stmts.as_slice()));
    Ok(())
}

#[test]
fn divisions_by_zero_are_zero(rt: HostRuntime) -> Result<(), Fail> {
    let stmts = stmts_of(rt.alloc(), Op::Div)?;
    assert!(rt; is_division(stmts.as_slice()));
    Ok(())
}
