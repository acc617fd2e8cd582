// Evaluation over a table of one abstract function.
ghost use Rattle.std.specs.Prelude.{◌≡◌, ◌||◌, [], IsTrue, MatchOption, Some, slice_get, true};
ghost use Rattle.std.specs.Option.{is_some};
ghost use Rattle.cg_core.specs.Kernels.{function_of, kernel_of};
ghost use Rattle.cg_eval_def.specs.Foreigns.{IsClosed, is_known as known};
ghost use Rattle.cg_eval_tests.specs.Halving.{halving, is_word_to_word as arrow_of};

use crate::halving::{Halving, is_word_to_word};
use cg_check_tests::checked_source;
use cg_core::{KFun, Kernel};
use cg_eval::{EvalFault, eval_with};
use cg_eval_laws::{calls_are_sound, functions_fit};
use cg_typing::Checked;
use cg_value::{Extern, Value};
use std::alloc::Global;
use std::process::Abort;
use std::test::Fail;

// Whether a function has a body, or is known to the table.
fn has_meaning(function: &KFun) -> bool
    ensures { result ≡ is_some (function_of function.now).body || known halving (function_of function.now) }
{
    function.body.is_some()
        || (function.vars.len() == 0 && Halving.knows(&function.at.name, &function.ty.ty))
}

// Whether every function has a body, or is known to the table.
fn is_closed(kernel: &Kernel) -> bool
    ensures { IsTrue result → IsClosed halving (kernel_of kernel.now) (λ i. true) }
{
    let functions = kernel.funs.as_slice();
    for function in functions {
        if !has_meaning(function) {
            return false;
        }
    }
    true
}

// The function at a position, where it has no type variables and is one from U32 to U32.
fn word_function(kernel: &Kernel, fun: u32) -> Option<&KFun>
    ensures there { MatchOption result (Unit {0}) (λ f. slice_get (kernel_of kernel.now) fun ≡ Some (function_of f.now)) }
    ensures without { MatchOption result (Unit {0}) (λ f. (function_of f.now).vars ≡ []) }
    ensures is { MatchOption result (Unit {0}) (λ f. IsTrue (arrow_of (function_of f.now).ty.ty)) }
{
    match kernel.funs.get(fun as usize) {
        Some(function) if function.vars.len() == 0 && is_word_to_word(&function.ty.ty) => {
            Some(function)
        }
        _ => None,
    }
}

/// Evaluates a function of a source that has no other abstract function than `half`, from U32 to U32, and compares the value and its cost,
/// or that there is none within these steps.
fn expect(
    rt: &impl Abort,
    alloc: Global,
    checked: &Checked,
    fun: u32,
    arg: u32,
    steps: u64,
    expected: Option<(u64, u64)>,
) -> Result<(), Fail> {
    let kernel = checked.kernel();
    let Some(_function) = word_function(kernel, fun) else {
        panic!(rt; "no function from U32 to U32");
    };
    if !is_closed(kernel) {
        panic!(rt; "another abstract function");
    }
    calls_are_sound();
    functions_fit();
    let arg = Value::Num(u64::from(arg));
    match &eval_with(alloc, &Halving, checked, fun, arg, steps) {
        Ok((Value::Num(value), cost)) => assert_eq!(rt; Some((*value, *cost)), expected),
        Ok(_) => panic!(rt; "not a word"),
        Err(EvalFault::StepLimit) => assert_eq!(rt; None, expected),
        Err(EvalFault::Memory) => panic!(rt; "no memory"),
    }
    Ok(())
}

#[test]
fn a_table_gives_an_abstract_function(rt: HostRuntime) -> Result<(), Fail> {
    let alloc = rt.alloc();
    let source = "half : U32 -> U32\nf : U32 -> U32\nf x = half (half x) + 1\n";
    let checked = checked_source(alloc, source)?;
    // Seven nodes, and two calls at 5 each.
    expect(&rt, alloc, &checked, 1, 10, 17, Some((3, 17)))?;
    expect(&rt, alloc, &checked, 1, 10, 16, None)?;
    // A call of the abstract function itself is no node.
    expect(&rt, alloc, &checked, 0, 9, 5, Some((4, 5)))?;
    expect(&rt, alloc, &checked, 0, 9, 4, None)
}
