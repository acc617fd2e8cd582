// The text of values, each at the type that a source's first function takes.
use cg_base::{Items, Name, Ty};
use cg_check_tests::kernel_in;
use cg_core::Kernel;
use cg_value::{Value, print_value};
use std::alloc::Global;
use std::process::Abort;
use std::test::Fail;

/// What the first function of a kernel takes.
fn argument<'a>(rt: &impl Abort, kernel: &'a Kernel) -> &'a Ty {
    match kernel.funs.get(0).map(|fun| &fun.ty.ty) {
        Some(Ty::Arrow(from, _)) => from,
        _ => panic!(rt; "no function"),
    }
}

/// Prints a value at what the first function of a source takes, and compares the text.
fn expect(
    rt: &impl Abort,
    alloc: Global,
    source: &str,
    value: &Value,
    expected: &[u8],
) -> Result<(), Fail> {
    let kernel = kernel_in(alloc, source)?;
    let text = print_value(alloc, value, argument(rt, &kernel))?;
    assert_eq!(rt; text.as_slice(), expected);
    Ok(())
}

fn pair(alloc: Global, first: Value, second: Value) -> Result<Value, Fail> {
    let mut fields = Items::new(alloc);
    fields.push(first)?;
    fields.push(second)?;
    Ok(Value::Fields(fields))
}

fn alternative(alloc: Global, name: &[u8], payload: Value) -> Result<Value, Fail> {
    let name = Name::new(alloc, name)?;
    Ok(Value::Variant(name, Box::new(alloc, payload)?))
}

#[test]
fn records_are_printed(rt: HostRuntime) -> Result<(), Fail> {
    let alloc = rt.alloc();
    let value = pair(alloc, Value::Num(7), Value::Num(1))?;
    expect(&rt, alloc, "f : (U8, Bool) -> ()\n", &value, b"(7, True)")?;
    expect(
        &rt,
        alloc,
        "f : {a : U8, b : Bool} -> ()\n",
        &value,
        b"{a = 7, b = True}",
    )?;
    expect(
        &rt,
        alloc,
        "f : #{p2 : U8, p1 : U8} -> ()\n",
        &value,
        b"#{p2 = 7, p1 = 1}",
    )?;
    let value = pair(alloc, Value::Gone, Value::Num(0))?;
    expect(
        &rt,
        alloc,
        "f : {a : U8, b : Bool} take (a) -> ()\n",
        &value,
        b"{a = _, b = False}",
    )
}

#[test]
fn variants_are_printed(rt: HostRuntime) -> Result<(), Fail> {
    let alloc = rt.alloc();
    let source = "f : <Error <BadMagic U32 | Full> | Fine> -> ()\n";
    let magic = alternative(alloc, b"BadMagic", Value::Num(7))?;
    let value = alternative(alloc, b"Error", magic)?;
    expect(&rt, alloc, source, &value, b"Error (BadMagic 7)")?;
    let full = alternative(alloc, b"Full", Value::Unit)?;
    let value = alternative(alloc, b"Error", full)?;
    expect(&rt, alloc, source, &value, b"Error Full")?;
    let value = alternative(alloc, b"Fine", Value::Unit)?;
    expect(&rt, alloc, source, &value, b"Fine")
}

#[test]
fn arrays_and_answers_are_printed(rt: HostRuntime) -> Result<(), Fail> {
    let alloc = rt.alloc();
    let mut numbers = Items::new(alloc);
    numbers.push(1)?;
    numbers.push(255)?;
    expect(
        &rt,
        alloc,
        "f : WordArray U8 -> ()\n",
        &Value::Array(numbers),
        b"[1, 255]",
    )?;
    let mut answers = Items::new(alloc);
    answers.push(true)?;
    answers.push(false)?;
    expect(
        &rt,
        alloc,
        "f : SysState -> ()\n",
        &Value::Answers(answers),
        b"<1, 0>",
    )
}
