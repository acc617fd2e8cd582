// A program of a function with a choice, and of one that a link names.
use cg_base::{Items, Memory, Name, Word};
use cg_cmachine_resolve::{Action, Position, Resolved, Right};
use cg_cmachine_values::{Operand, Place};
use cg_ctree::{CBody, CDecl, CFun, COpnd, CPath, CProgram, CRhs, CStmt, CTy};
use cg_heap::Link;
use std::alloc::Global;
use std::test::Fail;

/// A byte of a name.
fn byte(alloc: Global, name: &[u8]) -> Result<CDecl, Memory> {
    let name = Name::new(alloc, name)?;
    Ok(CDecl {
        ty: CTy::Word(Word::U8),
        name,
    })
}

/// Bytes of one name.
fn bytes(alloc: Global, name: &[u8]) -> Result<Items<CDecl>, Memory> {
    let mut decls = Items::new(alloc);
    decls.push(byte(alloc, name)?)?;
    Ok(decls)
}

/// A variable.
fn variable(alloc: Global, name: &[u8]) -> Result<CPath, Memory> {
    let base = Name::new(alloc, name)?;
    Ok(CPath {
        base,
        arrow: false,
        members: Items::new(alloc),
    })
}

/// `y = x;`
fn copies(alloc: Global) -> Result<CStmt, Memory> {
    let to = variable(alloc, b"y")?;
    let from = variable(alloc, b"x")?;
    Ok(CStmt::Assign(to, CRhs::Opnd(COpnd::Path(from))))
}

/// `return n;`
fn gives(alloc: Global, number: u64) -> Result<Items<CStmt>, Memory> {
    let mut block = Items::new(alloc);
    block.push(CStmt::Return(COpnd::Number(number)))?;
    Ok(block)
}

/// `if (y) { return 1; } else { return 0; }`
fn choice(alloc: Global) -> Result<CStmt, Memory> {
    let test = variable(alloc, b"y")?;
    let yes = gives(alloc, 1)?;
    let no = gives(alloc, 0)?;
    Ok(CStmt::If(COpnd::Path(test), yes, no))
}

/// `{ uint8_t y; y = x; if (y) { return 1; } else { return 0; } }`
fn body(alloc: Global) -> Result<CBody, Memory> {
    let mut stmts = Items::new(alloc);
    stmts.push(copies(alloc)?)?;
    stmts.push(choice(alloc)?)?;
    let locals = bytes(alloc, b"y")?;
    Ok(CBody { locals, stmts })
}

/// `uint8_t NAME(uint8_t x)`
fn function(alloc: Global, name: &[u8], body: Option<CBody>) -> Result<CFun, Memory> {
    let params = bytes(alloc, b"x")?;
    let name = Name::new(alloc, name)?;
    Ok(CFun {
        ty: CTy::Word(Word::U8),
        name,
        params,
        body,
    })
}

/// The functions `f`, with the body, and `g`, without one.
fn program(alloc: Global) -> Result<CProgram, Memory> {
    let body = body(alloc)?;
    let mut funs = Items::new(alloc);
    funs.push(function(alloc, b"f", Some(body))?)?;
    funs.push(function(alloc, b"g", None)?)?;
    Ok(CProgram {
        structs: Items::new(alloc),
        funs,
    })
}

/// `g` is the abstract function `twice`.
fn links(alloc: Global) -> Result<Items<Link>, Memory> {
    let c = Name::new(alloc, b"g")?;
    let name = Name::new(alloc, b"twice")?;
    let mut links = Items::new(alloc);
    links.push(Link { c, name })?;
    Ok(links)
}

/// A place among the statements of `f`.
fn at(block: usize, index: usize) -> Position {
    Position {
        function: 0,
        block,
        index,
    }
}

/// The slots to which and from which a statement copies.
fn copied(resolved: &Resolved<'_>, at: Position) -> Option<(usize, usize)> {
    let Action::Assign(Place::Local(to, _), right) = &resolved.line(at)?.action else {
        return None;
    };
    match right {
        Right::Operand(Operand::Place(Place::Local(from, _))) => Some((*to, *from)),
        _ => None,
    }
}

/// The slot that a choice tests, and its blocks.
fn chosen(resolved: &Resolved<'_>, at: Position) -> Option<(usize, usize, usize)> {
    match &resolved.line(at)?.action {
        Action::If(Operand::Place(Place::Local(slot, _)), yes, no) => Some((*slot, *yes, *no)),
        _ => None,
    }
}

/// The number that a statement gives back.
fn given(resolved: &Resolved<'_>, at: Position) -> Option<u64> {
    match &resolved.line(at)?.action {
        Action::Return(Operand::Number(number)) => Some(*number),
        _ => None,
    }
}

/// How many parameters and slots a function has, and whether it has a body.
fn head(resolved: &Resolved<'_>, function: usize) -> Option<(usize, usize, bool)> {
    let head = resolved.head(function)?;
    Some((head.params.len(), head.slots, head.has_body))
}

#[test]
fn statements_are_resolved(rt: HostRuntime) -> Result<(), Fail> {
    let alloc = rt.alloc();
    let program = program(alloc)?;
    let resolved = Resolved::new(alloc, &program, &[])?;
    assert!(rt; copied(&resolved, at(0, 0)) == Some((1, 0)));
    assert!(rt; chosen(&resolved, at(0, 1)) == Some((1, 1, 2)));
    assert!(rt; given(&resolved, at(1, 0)) == Some(1));
    assert!(rt; given(&resolved, at(2, 0)) == Some(0));
    assert!(rt; resolved.line(at(0, 2)).is_none());
    assert!(rt; resolved.line(at(3, 0)).is_none());
    Ok(())
}

#[test]
fn functions_are_found(rt: HostRuntime) -> Result<(), Fail> {
    let alloc = rt.alloc();
    let program = program(alloc)?;
    let links = links(alloc)?;
    let name = Name::new(alloc, b"g")?;
    let resolved = Resolved::new(alloc, &program, links.as_slice())?;
    assert!(rt; resolved.find(&name) == Some(1));
    assert!(rt; head(&resolved, 0) == Some((1, 2, true)));
    assert!(rt; head(&resolved, 1) == Some((1, 1, false)));
    assert!(rt; head(&resolved, 2).is_none());
    assert!(rt; resolved.abstract_name(0).is_none());
    assert!(rt;
        resolved
            .abstract_name(1)
            .is_some_and(|name| name.bytes() == b"twice".as_slice())
    );
    Ok(())
}
