// Evaluations: what a function of a source gives on a value, and what that costs.
ghost use Rattle.std.specs.Prelude.{◌≡◌, [], IsTrue, MatchOption, Some, slice_get};
ghost use Rattle.cg_base.specs.Types.{arrow, type_of};
ghost use Rattle.cg_core.specs.Kernels.{function_of, kernel_of};
ghost use Rattle.cg_driver_cases.specs.Whole.{HasBodies};

use crate::accepted::checked;
use crate::value::read_value;
use cg_base::{Ty, literal};
use cg_core::{KFun, Kernel};
use cg_eval::{EvalFault, eval};
use cg_typing::Checked;
use cg_value::{Value, fits, print_value};
use std::alloc::{AllocError, Global};

// The function of a name, and where it stands.
fn named<'a>(kernel: &'a Kernel, name: &[u8]) -> Option<(u32, &'a KFun)>
    ensures { MatchOption result (Unit {0}) (λ r. slice_get (kernel_of kernel.now) r.0 ≡ Some (function_of r.1.now)) }
{
    let mut at: u32 = 0;
    for function in kernel.funs.as_slice() {
        if function.at.name.bytes() == name {
            return Some((at, function));
        }
        at = at.checked_add(1)?;
    }
    None
}

// What a function takes and gives, where it has no type variables.
fn ends_of(function: &KFun) -> Option<(&Ty, &Ty)>
    ensures without { MatchOption result (Unit {0}) (λ r. (function_of function.now).vars ≡ []) }
    ensures ends { MatchOption result (Unit {0}) (λ r. (function_of function.now).ty.ty ≡ arrow (type_of r.0.now) (type_of r.1.now)) }
{
    match &function.ty.ty {
        Ty::Arrow(from, to) if function.vars.len() == 0 => Some((from, to)),
        _ => None,
    }
}

// Whether every function has a body.
fn is_whole(kernel: &Kernel) -> bool
    ensures { IsTrue result → HasBodies (kernel_of kernel.now) }
{
    let functions = kernel.funs.as_slice();
    for function in functions {
        if function.body.is_none() {
            return false;
        }
    }
    true
}

// A value with its cost.
fn value_text(alloc: Global, value: &Value, ty: &Ty, cost: u64) -> Result<String, AllocError> {
    let Ok(text) = print_value(alloc, value, ty) else {
        return Err(AllocError);
    };
    match String::from_utf8(text) {
        Ok(text) => Ok(format!(in alloc; "{text}\ncost: {cost}\n")?),
        Err(_) => String::from_str(alloc, "no text\n"),
    }
}

// What a function of an accepted source gives on a value.
fn evaluated(
    alloc: Global,
    checked: &Checked,
    name: &[u8],
    arg: Value,
    steps: u64,
) -> Result<String, AllocError> {
    let kernel = checked.kernel();
    let Some((at, function)) = named(kernel, name) else {
        return String::from_str(alloc, "no such function\n");
    };
    let Some((from, to)) = ends_of(function) else {
        return String::from_str(alloc, "type variables\n");
    };
    if !is_whole(kernel) || !fits(&arg, from) {
        return String::from_str(alloc, "no argument of it\n");
    }
    match eval(alloc, checked, at, arg, steps) {
        Ok((value, cost)) => value_text(alloc, &value, to, cost),
        Err(EvalFault::StepLimit) => String::from_str(alloc, "step limit\n"),
        Err(EvalFault::Memory) => Err(AllocError),
    }
}

// What a function of an accepted source gives on the value that a word spells.
fn eval_word(
    alloc: Global,
    checked: &Checked,
    name: &String,
    arg: &String,
    steps: &String,
) -> Result<String, AllocError> {
    match (read_value(alloc, arg.as_bytes()), literal(steps.as_bytes())) {
        (Ok(arg), Some(steps)) => evaluated(alloc, checked, name.as_bytes(), arg, steps),
        _ => String::from_str(alloc, "no such call\n"),
    }
}

/// What evaluations answer, by the words NAME ARGUMENT STEPS of each: the value and its cost, or that the steps are too few.
pub fn eval_text(alloc: Global, words: &[String], source: &[u8]) -> Result<String, AllocError> {
    let Some(checked) = checked(alloc, source) else {
        return String::from_str(alloc, "not accepted\n");
    };
    let mut told = String::new(alloc);
    let mut rest = words;
    while let [name, arg, steps, others @ ..] = rest {
        told.push_str(&eval_word(alloc, &checked, name, arg, steps)?)?;
        rest = others;
    }
    Ok(told)
}
