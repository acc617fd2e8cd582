// A run of a program of one function, which adds its argument to itself.
#![tactic(auto)]

ghost use Rattle.std.specs.Prelude.{◌≤◌, ◌^◌};

use cg_base::{Items, Memory, Name, Word};
use cg_cmachine::{Ran, RunFault, run_c};
use cg_ctree::{CBody, CDecl, CFun, COp, COpnd, CPath, CProgram, CRhs, CStmt, CTy};
use cg_heap::{MapStore, Scalar};
use std::alloc::Global;
use std::test::Fail;

/// A list of one item.
fn one<T: Drop>(alloc: Global, item: T) -> Result<Items<T>, Memory> {
    let mut items = Items::new(alloc);
    items.push(item)?;
    Ok(items)
}

/// A number of 32 bits.
fn declared(alloc: Global, name: &[u8]) -> Result<CDecl, Memory> {
    Ok(CDecl {
        ty: CTy::Word(Word::U32),
        name: Name::new(alloc, name)?,
    })
}

/// A variable.
fn path(alloc: Global, name: &[u8]) -> Result<CPath, Memory> {
    Ok(CPath {
        base: Name::new(alloc, name)?,
        arrow: false,
        members: Items::new(alloc),
    })
}

/// `x + x`
fn doubled(alloc: Global) -> Result<CRhs, Memory> {
    let left = COpnd::Path(path(alloc, b"x")?);
    let right = COpnd::Path(path(alloc, b"x")?);
    Ok(CRhs::Binary(Word::U32, Word::U32, COp::Add, left, right))
}

/// `y = x + x; return y;`
fn statements(alloc: Global) -> Result<Items<CStmt>, Memory> {
    let mut statements = one(alloc, CStmt::Assign(path(alloc, b"y")?, doubled(alloc)?))?;
    statements.push(CStmt::Return(COpnd::Path(path(alloc, b"y")?)))?;
    Ok(statements)
}

/// The function `f`, of `x`, with a local `y`.
fn function(alloc: Global) -> Result<CFun, Memory> {
    let params = one(alloc, declared(alloc, b"x")?)?;
    let body = CBody {
        locals: one(alloc, declared(alloc, b"y")?)?,
        stmts: statements(alloc)?,
    };
    Ok(CFun {
        ty: CTy::Word(Word::U32),
        name: Name::new(alloc, b"f")?,
        params,
        body: Some(body),
    })
}

/// The program of this function.
fn program(alloc: Global) -> Result<CProgram, Memory> {
    Ok(CProgram {
        structs: Items::new(alloc),
        funs: one(alloc, function(alloc)?)?,
    })
}

/// A run of `f` on 21, on a store without a cell.
fn ran(alloc: Global, budget: u64) -> Result<Ran, RunFault>
    requires { budget ≤ 2 ^ 46 }
{
    let program = program(alloc)?;
    let name = Name::new(alloc, b"f")?;
    let arg = one(alloc, Scalar::Word(21))?;
    let mut store = MapStore::new(alloc);
    run_c(alloc, &program, &name, &arg, &mut store, budget)
}

#[test]
fn an_argument_is_doubled(rt: HostRuntime) -> Result<(), Fail> {
    let ran = ran(rt.alloc(), 2)?;
    assert!(rt; matches!(ran.value.as_slice().first(), Some(Scalar::Word(42))));
    assert!(rt; ran.value.len() == 1 && ran.steps == 2);
    assert!(rt; ran.made.len() == 0 && ran.freed.len() == 0);
    Ok(())
}

#[test]
fn one_step_too_few_is_too_few(rt: HostRuntime) -> Result<(), Fail> {
    let ran = ran(rt.alloc(), 1);
    assert!(rt; matches!(ran, Err(RunFault::Budget)));
    Ok(())
}
