// The library on values: what each function gives, printed at the type that a source's first function gives.
use cg_base::{Items, Lib, Ty};
use cg_check_tests::kernel_in;
use cg_core::Kernel;
use cg_lib_value::{lib_cost, lib_value};
use cg_value::{Value, print_value};
use std::alloc::Global;
use std::process::Abort;
use std::test::Fail;

const NEW: &str =
    "f : () -> (SysState, <None | Some ({a : U8, b : U8} take (a, b))>)\nr : {a : U8, b : U8} -> ()\n";

const CREATE: &str = "f : () -> (SysState, <None | Some (WordArray U8)>)\n";

/// What the first function of a kernel gives.
fn result<'a>(rt: &impl Abort, kernel: &'a Kernel) -> &'a Ty {
    match kernel.funs.get(0).map(|fun| &fun.ty.ty) {
        Some(Ty::Arrow(_, to)) => to,
        _ => panic!(rt; "no function"),
    }
}

/// What the last function of a kernel takes, as a list of one type.
fn type_arguments(rt: &impl Abort, alloc: Global, kernel: &Kernel) -> Result<Items<Ty>, Fail> {
    let mut types = Items::new(alloc);
    match kernel.funs.as_slice().last().map(|fun| &fun.ty.ty) {
        Some(Ty::Arrow(from, _)) => types.push(from.copy(alloc)?)?,
        _ => panic!(rt; "no function"),
    }
    Ok(types)
}

/// Calls a function of the library on a value, and compares its cost and the text of what it gives.
fn expect(
    rt: &impl Abort,
    alloc: Global,
    source: &str,
    lib: Lib,
    arg: Value,
    cost: u64,
    expected: &[u8],
) -> Result<(), Fail> {
    let kernel = kernel_in(alloc, source)?;
    let types = type_arguments(rt, alloc, &kernel)?;
    assert_eq!(rt; lib_cost(lib, &arg), cost);
    let value = lib_value(alloc, lib, &types, arg)?;
    let text = print_value(alloc, &value, result(rt, &kernel))?;
    assert_eq!(rt; text.as_slice(), expected);
    Ok(())
}

fn answers(alloc: Global, given: &[bool]) -> Result<Value, Fail> {
    let mut answers = Items::new(alloc);
    for answer in given {
        answers.push(*answer)?;
    }
    Ok(Value::Answers(answers))
}

/// The array of 1, 2 and 3, an index, and a number.
fn array_at(alloc: Global, index: u64) -> Result<Value, Fail> {
    let mut elements = Items::new(alloc);
    for element in 1..4u64 {
        elements.push(element)?;
    }
    let mut fields = Items::new(alloc);
    fields.push(Value::Array(elements))?;
    fields.push(Value::Num(index))?;
    fields.push(Value::Num(9))?;
    Ok(Value::Fields(fields))
}

fn asked(alloc: Global, given: &[bool], count: u64) -> Result<Value, Fail> {
    let mut fields = Items::new(alloc);
    fields.push(answers(alloc, given)?)?;
    fields.push(Value::Num(count))?;
    Ok(Value::Fields(fields))
}

#[test]
fn records_are_made_and_freed(rt: HostRuntime) -> Result<(), Fail> {
    let alloc = rt.alloc();
    let yes = answers(alloc, &[true, false])?;
    expect(
        &rt,
        alloc,
        NEW,
        Lib::New,
        yes,
        0,
        b"(<0>, Some {a = _, b = _})",
    )?;
    let no = answers(alloc, &[false, true])?;
    expect(&rt, alloc, NEW, Lib::New, no, 0, b"(<1>, None)")?;
    let none = answers(alloc, &[])?;
    expect(&rt, alloc, NEW, Lib::New, none, 0, b"(<>, None)")?;
    let state = "f : () -> SysState\n";
    let held = asked(alloc, &[true], 0)?;
    expect(&rt, alloc, state, Lib::Free, held, 0, b"<1>")
}

#[test]
fn arrays_are_made_within_the_limit(rt: HostRuntime) -> Result<(), Fail> {
    let alloc = rt.alloc();
    let yes = asked(alloc, &[true], 2)?;
    expect(
        &rt,
        alloc,
        CREATE,
        Lib::Create,
        yes,
        2,
        b"(<>, Some [0, 0])",
    )?;
    let no = asked(alloc, &[false], 2)?;
    expect(&rt, alloc, CREATE, Lib::Create, no, 0, b"(<>, None)")?;
    let many = asked(alloc, &[true, true], 1_048_577)?;
    expect(&rt, alloc, CREATE, Lib::Create, many, 0, b"(<1>, None)")
}

#[test]
fn elements_are_read_and_put(rt: HostRuntime) -> Result<(), Fail> {
    let alloc = rt.alloc();
    let word = "f : () -> U8\n";
    expect(&rt, alloc, word, Lib::Get, array_at(alloc, 2)?, 0, b"3")?;
    expect(&rt, alloc, word, Lib::Get, array_at(alloc, 3)?, 0, b"0")?;
    let array = "f : () -> WordArray U8\n";
    expect(
        &rt,
        alloc,
        array,
        Lib::Put,
        array_at(alloc, 2)?,
        0,
        b"[1, 2, 9]",
    )?;
    expect(
        &rt,
        alloc,
        array,
        Lib::Put,
        array_at(alloc, 3)?,
        0,
        b"[1, 2, 3]",
    )?;
    let elements = array_at(alloc, 0)?.into_field(0);
    expect(&rt, alloc, word, Lib::Length, elements, 0, b"3")
}
