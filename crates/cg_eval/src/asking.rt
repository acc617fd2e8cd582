// Calls of abstract functions.
#![tactic(auto, using(cg_eval_machine::proofs::Steps::machine_steps))]

ghost use Rattle.std.specs.Prelude.{◌≡◌, ◌≢◌, [], ◌∷◌, ◌++◌, ◌+◌, ◌-◌, ◌*◌, ◌≤◌, ◌<◌, IfOk, IsTrue, MatchOption, None, Some, length, slice_get};
ghost use Rattle.cg_core.specs.Kernels.{function_of, kernel_of};
ghost use Rattle.cg_eval_def.specs.Evaluation.{Table, bind, gives, pay_for, stuck};
ghost use Rattle.cg_eval_def.specs.Foreigns.{cost_at, is_known as known, is_taken, table_of, value_at};
ghost use Rattle.cg_eval_machine.specs.Machine.{rest, context_of, said, Went, weight};
ghost use Rattle.cg_eval_machine.specs.declared.machine.Focus.TheVariants as focus;
ghost use Rattle.cg_typing.specs.Holds.{kernel_in};
ghost use Rattle.cg_value.specs.Values.{value_of};

use cg_core::KFun;
use cg_eval_machine::{Focus, Halt, Machine};
use cg_typing::Checked;
use cg_value::{Extern, Value};
use std::alloc::Global;

// The function at a position, if there is one.
fn declared<'a>(checked: &'a Checked, fun: u32) -> Option<&'a KFun>
    ensures { MatchOption result (slice_get (kernel_of (kernel_in checked.now)) fun ≡ None) (λ f. slice_get (kernel_of (kernel_in checked.now)) fun ≡ Some (function_of f.now)) }
{
    checked.kernel().funs.get(fun as usize)
}

// Whether a table knows an abstract function, which then has no type variables.
fn is_known<X: Extern>(externs: &X, function: &KFun) -> bool
    ensures { result ≡ known (X.foreign externs.now) (function_of function.now) }
{
    function.vars.len() == 0 && externs.knows(&function.at.name, &function.ty.ty)
}

// What a function that a table knows gives on an argument that fits, at its cost.
fn ask_known<'a, X: Extern>(
    alloc: Global,
    externs: &X,
    m: &mut Machine<'a>,
    function: &KFun,
    arg: Value,
) -> Result<Focus<'a>, Halt>
    requires { IsTrue (is_taken (X.foreign externs.now) (Some (function_of function.now)) (value_of arg)) }
    ensures gives { let f = Some (function_of function.now) in (table : Table) → Went table m.new
        (bind (pay_for (cost_at (X.foreign externs.now) f (value_of arg)) m.old.left (λ left. gives (value_at (X.foreign externs.now) f (value_of arg)) left))
        (rest table m.old.frames.items (context_of m.old))) result }
    ensures falls { IfOk result (λ f. weight m.new f ≤ 3 * m.old.left + 2 * length m.old.frames.items + 1) }
{
    let cost = externs.cost(&function.at.name, &arg);
    if m.left < cost {
        drop(arg);
        return Err(Halt::StepLimit);
    }
    m.left -= cost;
    Ok(Focus::Have(externs.value(alloc, &function.at.name, arg)?))
}

/// A call of a function without a body: its cost is paid before its value is there. Where the table doesn't know the function there
/// is none; where it does, the argument fits.
pub(crate) fn ask<'a, X: Extern>(
    alloc: Global,
    externs: &X,
    checked: &'a Checked,
    m: &mut Machine<'a>,
    fun: u32,
    arg: Value,
) -> Result<Focus<'a>, Halt>
    requires { said (table_of (X.foreign externs.now) checked.now) m.old (focus.Ask fun arg) ≢ stuck }
    ensures gives { let table = table_of (X.foreign externs.now) checked.now in Went table m.new (said table m.old (focus.Ask fun arg)) result }
    ensures falls { IfOk result (λ f. weight m.new f ≤ 3 * m.old.left + 2 * length m.old.frames.items + 1) }
{
    match declared(checked, fun) {
        Some(function) => {
            if is_known(externs, function) {
                ask_known(alloc, externs, m, function, arg)
            } else {
                drop(arg);
                Err(Halt::Stuck)
            }
        }
        None => {
            drop(arg);
            Err(Halt::Stuck)
        }
    }
}
