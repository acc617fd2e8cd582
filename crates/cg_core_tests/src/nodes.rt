// The nodes of a binding of a sum.
#![tactic(auto)]

use cg_base::{Items, Memory, Place, Ty, Word};
use cg_core::{Form, Op, Term, Typed};
use cg_typing::nodes_in;
use std::alloc::Global;
use std::test::Fail;

/// A node of a word.
fn node(column: u32, form: Form<Typed>) -> Term<Typed> {
    Term {
        note: Typed {
            place: Place { line: 1, column },
            ty: Ty::Word(Word::U8),
        },
        form,
    }
}

/// A variable and a number, added.
fn sum(alloc: Global) -> Result<Term<Typed>, Memory> {
    let mut operands = Items::new(alloc);
    operands.push(node(3, Form::Var(0)))?;
    operands.push(node(4, Form::Lit(Some(1))))?;
    Ok(node(2, Form::Op(Op::Add, operands)))
}

#[test]
fn parts_stand_behind_a_node(rt: HostRuntime) -> Result<(), Fail> {
    let alloc = rt.alloc();
    let value = Box::new(alloc, sum(alloc)?)?;
    let body = Box::new(alloc, node(5, Form::Var(1)))?;
    let core = node(1, Form::Let(Place { line: 1, column: 9 }, value, body));
    let nodes = nodes_in(alloc, &core)?;
    let mut column = 0_u32;
    for node in nodes.as_slice() {
        column = column.wrapping_add(1);
        assert_eq!(rt; node.note.place.column, column);
    }
    assert_eq!(rt; column, 5);
    Ok(())
}
