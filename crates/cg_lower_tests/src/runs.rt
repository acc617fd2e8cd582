// Runs on words and records of words.
use crate::sources::lowered;
use cg_base::{Items, Name};
use cg_cmachine::{Ran, run_c};
use cg_heap::{MapStore, Scalar};
use cg_lower::function_name;
use std::alloc::Global;
use std::process::Abort;
use std::test::Fail;

/// Words as scalars.
fn scalars_of(alloc: Global, words: &[u64]) -> Result<Items<Scalar>, Fail> {
    let mut scalars = Items::new(alloc);
    for word in words {
        scalars.push(Scalar::Word(*word))?;
    }
    Ok(scalars)
}

/// Whether a run gave these words and no cell.
fn gave(ran: &Ran, words: &[u64]) -> bool {
    let mut same = ran.value.len() == words.len() && ran.made.len() == 0 && ran.freed.len() == 0;
    for i in 0..words.len() {
        let wanted = words[i];
        same = same && matches!(ran.value.get(i), Some(Scalar::Word(given)) if *given == wanted);
    }
    same
}

/// Runs a C function of a source on words, on a store without cells, within 1,024 steps, and compares what it gives.
fn expect(
    rt: &impl Abort,
    alloc: Global,
    source: &str,
    function: &[u8],
    words: &[u64],
    expected: &[u64],
) -> Result<(), Fail> {
    let program = lowered(rt, alloc, source)?;
    let name = Name::new(alloc, function)?;
    let scalars = scalars_of(alloc, words)?;
    let mut store = MapStore::new(alloc);
    let ran = run_c(alloc, &program, &name, &scalars, &mut store, 1024);
    assert!(rt; matches!(&ran, Ok(ran) if gave(ran, expected)));
    Ok(())
}

#[test]
fn a_narrow_product_wraps(rt: HostRuntime) -> Result<(), Fail> {
    let source = "f : U16 -> U16\nf x = x * x\n";
    expect(&rt, rt.alloc(), source, b"f0", &[65535], &[1])
}

#[test]
fn division_by_zero_and_long_shifts_are_zero(rt: HostRuntime) -> Result<(), Fail> {
    let source = "f : (U32, U32, U8) -> (U32, U32, U8)\nf (x, y, z) = (x / y, x % y, z << 8)\n";
    expect(&rt, rt.alloc(), source, b"f0", &[9, 0, 255], &[0, 0, 0])
}

#[test]
fn a_loop_ends_before_its_index_wraps(rt: HostRuntime) -> Result<(), Fail> {
    let source = "step : #{acc : U32, obsv : ()!, idx : U32} -> U32
step r = r.acc + 1
f : (U32, U32, U32) -> U32
f (a, b, s) = seq32[U32, ()] #{frm = a, to = b, step = s, f = step, acc = 0, obsv = ()}
";
    let late = [4_294_967_290, 4_294_967_295, 4];
    expect(&rt, rt.alloc(), source, b"f1", &late, &[2])?;
    expect(&rt, rt.alloc(), source, b"f1", &[0, 5, 0], &[0])
}

#[test]
fn a_function_value_is_called_by_its_place(rt: HostRuntime) -> Result<(), Fail> {
    let source = "inc : U32 -> U32
inc x = x + 1
two : #{f : U32 -> U32, x : U32} -> U32
two r = r.f (r.f r.x)
g : U32 -> U32
g x = two #{f = inc, x = x}
";
    expect(&rt, rt.alloc(), source, b"f2", &[5], &[7])
}

#[test]
fn a_function_is_named_by_its_place(rt: HostRuntime) -> Result<(), Fail> {
    let name = function_name(rt.alloc(), 4_294_967_295)?;
    assert_eq!(rt; name.bytes(), b"f4294967295".as_slice());
    Ok(())
}
