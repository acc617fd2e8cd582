// Evaluation of a function.
#![tactic(auto, using(cg_eval_machine::proofs::Steps::machine_steps))]

ghost use Rattle.std.specs.Prelude.{◌≢◌, []};
ghost use Rattle.cg_base.specs.declared.fun.Fun.TheVariants.{User};
ghost use Rattle.cg_eval_def.specs.Evaluation.{outcome, stuck};
ghost use Rattle.cg_eval_def.specs.Foreigns.{table_of};
ghost use Rattle.cg_eval_machine.specs.Machine.{Gave, said};
ghost use Rattle.cg_eval.specs.Answers.{Answers, Exact};
ghost use Rattle.cg_value.specs.NoForeign.{no_foreign};
ghost use Rattle.cg_value.specs.Values.{value_of, function};

use crate::EvalFault;
use crate::asking::ask;
use crate::nodes::want;
use cg_base::Items;
use cg_core::Fun;
use cg_eval_machine::{Focus, Halt, Machine, apply};
use cg_typing::Checked;
use cg_value::{Extern, NoExtern, Value};
use std::alloc::Global;

// Runs to the end: the value, and the budget that is left.
fn run<'a, X: Extern>(
    alloc: Global,
    externs: &X,
    checked: &'a Checked,
    start: Machine<'a>,
    first: Focus<'a>,
) -> Result<(Value, u64), Halt>
    requires { said (table_of (X.foreign externs.now) checked.now) start first ≢ stuck }
    ensures { Gave (said (table_of (X.foreign externs.now) checked.now) start.entry first.entry) result }
{
    let mut m = start;
    let mut focus = first;
    loop {
        match focus {
            Focus::Want(term) => {
                focus = want(alloc, &mut m, term)?;
            }
            Focus::Ask(fun, arg) => {
                focus = ask(alloc, externs, checked, &mut m, fun, arg)?;
            }
            Focus::Have(value) => match m.frames.pop() {
                None => return Ok((value, m.left)),
                Some(frame) => {
                    focus = frame.resume(alloc, checked, &mut m, value)?;
                }
            },
        }
    }
}

// The value of a call and its cost, or why there is none.
fn call<X: Extern>(
    alloc: Global,
    externs: &X,
    checked: &Checked,
    fun: Value,
    arg: Value,
    steps: u64,
) -> Result<(Value, u64), Halt>
    requires { outcome (table_of (X.foreign externs.now) checked.now) steps (value_of fun) (value_of arg) ≢ stuck }
    ensures { Exact (table_of (X.foreign externs.now) checked.now) steps (value_of fun) (value_of arg) result }
{
    let mut m = Machine {
        frames: Vec::new(alloc),
        values: Vec::new(alloc),
        types: Items::new(alloc),
        left: steps,
    };
    let focus = apply(alloc, checked, &mut m, fun, arg)?;
    let (value, left) = run(alloc, externs, checked, m, focus)?;
    Ok((value, steps - left))
}

/// The value that a function of a checked source without type arguments gives on an argument, over a table of abstract functions, and
/// the cost of that, in evaluated nodes, which is at most `steps` (the paper's value semantics, section 3; docs/LANGUAGE.md,
/// "Evaluation"). Whoever calls it knows that evaluation isn't stuck. `StepLimit` exactly where the steps are spent before there is
/// a value; `Memory` for want of memory. It keeps a stack of its own.
pub fn eval_with<X: Extern>(
    alloc: Global,
    externs: &X,
    checked: &Checked,
    fun: u32,
    arg: Value,
    steps: u64,
) -> Result<(Value, u64), EvalFault>
    requires never_stuck { outcome (table_of (X.foreign externs.now) checked.now) steps (function (User fun) []) (value_of arg) ≢ stuck }
    ensures { Answers (table_of (X.foreign externs.now) checked.now) steps (function (User fun) []) (value_of arg) result }
{
    let fun = Value::Fun(Fun::User(fun), Items::new(alloc));
    match call(alloc, externs, checked, fun, arg, steps) {
        Ok(answer) => Ok(answer),
        Err(Halt::StepLimit) => Err(EvalFault::StepLimit),
        Err(Halt::Memory) => Err(EvalFault::Memory),
        Err(Halt::Stuck) => unreachable!(),
    }
}

/// The same over no abstract functions.
pub fn eval(
    alloc: Global,
    checked: &Checked,
    fun: u32,
    arg: Value,
    steps: u64,
) -> Result<(Value, u64), EvalFault>
    requires never_stuck { outcome (table_of no_foreign checked.now) steps (function (User fun) []) (value_of arg) ≢ stuck }
    ensures { Answers (table_of no_foreign checked.now) steps (function (User fun) []) (value_of arg) result }
{
    eval_with(alloc, &NoExtern, checked, fun, arg, steps)
}
