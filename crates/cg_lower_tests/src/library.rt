// The bodies of the five iterators, and of a function that is none.
#![tactic(auto)]

use crate::nodes::start;
use cg_base::{Items, Lib, Memory, Ty, Word};
use cg_lower_library::iterator_body;
use std::alloc::Global;
use std::test::Fail;

/// Type arguments.
fn arguments(alloc: Global) -> Result<Items<Ty>, Memory> {
    let mut args = Items::new(alloc);
    args.push(Ty::Word(Word::U16))?;
    args.push(Ty::Bool)?;
    args.push(Ty::Unit)?;
    Ok(args)
}

/// How many locals and statements a body has.
fn sizes(alloc: Global, lib: Lib) -> Result<(usize, usize), Memory> {
    let args = arguments(alloc)?;
    let mut state = start(alloc);
    match iterator_body(alloc, &mut state, 0, lib, &args)? {
        Some(body) => Ok((body.locals.len(), body.stmts.len())),
        None => Ok((0, 0)),
    }
}

#[test]
fn bodies_have_their_locals_and_statements(rt: HostRuntime) -> Result<(), Fail> {
    let alloc = rt.alloc();
    assert_eq!(rt; sizes(alloc, Lib::Map)?, (6, 11));
    assert_eq!(rt; sizes(alloc, Lib::Fold)?, (4, 9));
    assert_eq!(rt; sizes(alloc, Lib::Seq32)?, (5, 8));
    assert_eq!(rt; sizes(alloc, Lib::Seq64)?, (5, 8));
    assert_eq!(rt; sizes(alloc, Lib::Seq32Break)?, (7, 11));
    assert_eq!(rt; sizes(alloc, Lib::Free)?, (0, 1));
    Ok(())
}
