// Each call that takes memory, once, where there is plenty.
use cg_base::{Items, Kinds, Name, Part, Place, Sigil, Ty, Word};
use cg_cgen::op_stmts;
use cg_core::{At, Form, Fun, Op, Term, TyArg, Typed, erase};
use cg_cread::read_c;
use cg_ctree::{COpnd, CPath, CStmt};
use cg_kinds::subst;
use cg_outside::{
    Failures, FileFault, Files, HonestFiles, HonestSink, MemoryFiles, MemorySink, Sink,
};
use std::alloc::Global;
use std::test::Fail;

const HERE: Place = Place { line: 1, column: 1 };

/// A record with an observed array and a function, boxed to write.
fn a_type(alloc: Global) -> Result<Ty, Fail> {
    let mut args = Items::new(alloc);
    args.push(Ty::Word(Word::U8))?;
    let array = Ty::Abs(Name::new(alloc, b"WordArray")?, args, Sigil::R);
    let arrow = Ty::Arrow(Box::new(alloc, Ty::Unit)?, Box::new(alloc, Ty::Seen(0))?);
    let mut parts = Items::new(alloc);
    parts.push(Part {
        name: Name::new(alloc, b"bytes")?,
        ty: array,
        taken: false,
    })?;
    parts.push(Part {
        name: Name::new(alloc, b"next")?,
        ty: arrow,
        taken: true,
    })?;
    Ok(Ty::Fields(parts, Sigil::W))
}

#[test]
fn base_calls_succeed(rt: HostRuntime) -> Result<(), Fail> {
    let alloc = rt.alloc();
    let name = Name::new(alloc, b"one")?;
    assert!(rt; name.copy(alloc)?.same(&name));
    let ty = a_type(alloc)?;
    let copy = ty.copy(alloc)?;
    assert!(rt; matches!(copy, Ty::Fields(_, Sigil::W)));
    let mut items = Items::new(alloc);
    items.push(Kinds {
        drop: true,
        share: false,
        escape: true,
    })?;
    items.as_mut_slice()[0].share = true;
    assert_eq!(rt; items.get(0).map(|kinds| kinds.share), Some(true));
    assert_eq!(rt; items.get(1).map(|kinds| kinds.share), None);
    Ok(())
}

#[test]
#[tactic(auto, unfolding(cg_kinds::specs::Kinds::width))]
fn kinds_calls_succeed(rt: HostRuntime) -> Result<(), Fail> {
    let alloc = rt.alloc();
    let mut args = Items::new(alloc);
    args.push(Ty::Bool)?;
    let ty = subst(alloc, &Ty::Unit, &args)?;
    assert!(rt; matches!(ty, Ty::Unit));
    Ok(())
}

#[test]
fn core_calls_succeed(rt: HostRuntime) -> Result<(), Fail> {
    let alloc = rt.alloc();
    let at = At {
        place: HERE,
        name: Name::new(alloc, b"x")?,
    };
    assert!(rt; at.copy(alloc)?.name.same(&at.name));
    let arg = TyArg {
        place: HERE,
        ty: a_type(alloc)?,
    };
    let copy = arg.copy(alloc)?;
    assert_eq!(rt; copy.place, HERE);
    let one = Term {
        note: Typed {
            place: HERE,
            ty: Ty::Word(Word::U32),
        },
        form: Form::Lit(Some(1)),
    };
    let mut operands = Items::new(alloc);
    operands.push(one)?;
    let sum = Term {
        note: Typed {
            place: HERE,
            ty: Ty::Word(Word::U32),
        },
        form: Form::Op(Op::Complement, operands),
    };
    let kernel = erase(alloc, &sum)?;
    assert!(rt; matches!(kernel.form, Form::Op(Op::Complement, _)));
    let function = Form::<Place>::Fun(Fun::User(0), Items::new(alloc));
    assert!(rt; matches!(function, Form::Fun(Fun::User(0), _)));
    Ok(())
}

#[test]
fn outside_calls_succeed(rt: HostRuntime) -> Result<(), Fail> {
    let alloc = rt.alloc();
    let mut failures = Failures::new(alloc);
    failures.note(alloc, "a")?;
    failures.take_back();
    let mut files = MemoryFiles::new(alloc, Vec::new(alloc), vec![in alloc; 3]?);
    files.write("a", b"12345")?;
    assert_eq!(rt; files.read(alloc, "a", 3)?.as_slice(), b"1234".as_slice());
    assert_eq!(rt; files.write("a", b"6"), Err(FileFault::Failed));
    assert_eq!(rt; files.contents("a"), Some(b"".as_slice()));
    assert_eq!(rt; files.contents("b"), None);
    let mut honest = HonestFiles::new(alloc, Vec::new(alloc));
    honest.write("a", b"1")?;
    assert_eq!(rt; honest.read(alloc, "a", 3)?.as_slice(), b"1".as_slice());
    assert_eq!(rt; honest.contents("a"), Some(b"1".as_slice()));
    let mut sink = MemorySink::new(alloc, vec![in alloc; 1]?);
    assert_eq!(rt; sink.write(b"1"), Err(FileFault::Failed));
    sink.write(b"2")?;
    assert_eq!(rt; sink.bytes(), b"2".as_slice());
    let mut honest_sink = HonestSink::new(alloc);
    honest_sink.write(b"3")?;
    assert_eq!(rt; honest_sink.bytes(), b"3".as_slice());
    Ok(())
}

#[test]
fn c_calls_succeed(rt: HostRuntime) -> Result<(), Fail> {
    let alloc = rt.alloc();
    let to = CPath {
        base: Name::new(alloc, b"x")?,
        arrow: false,
        members: Items::new(alloc),
    };
    let (left, right) = (COpnd::Number(1), COpnd::Number(2));
    let stmts = op_stmts(alloc, Op::Add, Word::U64, to, left, right)?;
    assert!(rt; matches!(stmts.as_slice(), [CStmt::Assign(..)]));
    let text = b"#include <stdint.h>\n#include \"cogent.h\"\n";
    let Ok(program) = read_c(alloc, text) else {
        panic!(rt; "no program")
    };
    assert_eq!(rt; program.funs.len(), 0);
    Ok(())
}
