// The check of a kernel: its functions in turn.
#![tactic(auto, using(crate::proofs::BodySteps::body_steps))]

ghost use Rattle.std.specs.Prelude.{◌≡◌, IfOk, Ok, Some, [], ◌∷◌, false, map};
ghost use Rattle.cg_base.specs.Types.{type_of};
ghost use Rattle.cg_core.specs.Derivations.{derivation_of};
ghost use Rattle.cg_core.specs.Kernels.{body_of, function_of, kernel_of, the_term};
ghost use Rattle.cg_core_def.specs.Lawful.{IsLawfulKernel};
ghost use Rattle.cg_check_def.specs.Pass as pass;
ghost use Rattle.cg_check.specs.Bodies.{a_body, both_in, refusal_of};
ghost use Rattle.cg_check_pieces.specs.Bodies.{as_lists, lists_of, maybe_both};
ghost use Rattle.cg_check_context.specs.Ended.{ended};
ghost use Rattle.cg_check.specs.Judged.{Judges};
ghost use Rattle.cg_check_context.specs.View.{Agrees, entries_of, fresh};
ghost use Rattle.cg_check_pieces.specs.View.{bounds_of};
ghost use Rattle.cg_check_nodes.specs.Gots.{got_of};
ghost use Rattle.cg_check_uses.specs.Marks as splits;
ghost use Rattle.cg_check_uses.specs.Uses as tables;

use crate::Refusal;
use crate::pass::check_term;
use cg_base::{Items, Limit, Memory, Place, Ty};
use cg_check_context::{Known, Source, Stop, end_scope};
use cg_check_nodes::Got;
use cg_check_pieces::{KeptBodies, KeptBody};
use cg_check_uses::{Use, keep_new, leave, settle};
use cg_core::{Deriv, KBody, KFun, Kernel, Term};
use cg_faults::Rule;
use cg_kinds::kinds_of;
use cg_typing::Checked;
use cg_typing_parts::has_word_arrays;
use std::alloc::Global;

/// Judges a lawful kernel (docs/LANGUAGE.md, "Typing"). Ok exactly where the typing rules derive it and no type passes the limit: the
/// kernel with the core of each body and its derivation, which has the occurrence marks. Else `Rule`, with the one rule and place that
/// the definition of a fault names, or `Limit` where that is the limit on types; and `Memory` for want of memory.
#[tactic(auto, using(crate::proofs::JudgeSteps::judge_steps))]
pub fn check(alloc: Global, kernel: Kernel) -> Result<Checked, Refusal>
    requires lawful { IsLawfulKernel (kernel_of kernel) }
    ensures { Judges kernel result }
{
    match check_functions(alloc, &kernel.funs) {
        Ok(KeptBodies { cores, trees }) => Ok(Checked::new(kernel, cores, trees)),
        Err(stop) => Err(refused(stop)),
    }
}

// Why a kernel is refused where the pass stops.
fn refused(stop: Stop) -> Refusal
    ensures { result ≡ refusal_of stop }
{
    match stop {
        Stop::Rule(rule, place) => Refusal::Rule(rule, place),
        Stop::Size(_) => Refusal::Limit(Limit::Ty),
        Stop::Memory => Refusal::Memory,
    }
}

// What is kept of each function.
fn check_functions(alloc: Global, functions: &Items<KFun>) -> Result<KeptBodies, Stop>
    ensures { Agrees lists_of result (as_lists (pass.check_kernel (map function_of functions.now))) }
{
    let mut kept = KeptBodies::new(alloc);
    for fun in functions.as_slice() {
        kept.push(check_function(alloc, functions, fun)?)?;
    }
    Ok(kept)
}

// A function: its signature's type, and then its body.
fn check_function(
    alloc: Global,
    functions: &Items<KFun>,
    fun: &KFun,
) -> Result<Option<KeptBody>, Stop>
    ensures { Agrees maybe_both result (pass.check_function (map function_of functions.now) (function_of fun.now)) }
{
    let Ty::Arrow(argument, gives) = &fun.ty.ty else {
        return Err(Stop::Rule(Rule::T4, fun.ty.place));
    };
    if !has_word_arrays(&fun.ty.ty) {
        return Err(Stop::Rule(Rule::T14, fun.ty.place));
    }
    let Some(body) = &fun.body else {
        return Ok(None);
    };
    let source = Source {
        alloc,
        functions,
        vars: &fun.vars,
    };
    Ok(Some(check_body(&source, argument, gives, body)?))
}

// A body in the context of its argument alone, checked against the result.
fn check_body(source: &Source, argument: &Ty, gives: &Ty, body: &KBody) -> Result<KeptBody, Stop>
    ensures { Agrees a_body result (pass.check_body (map function_of source.now.functions.now) (bounds_of source.now.vars.now) (type_of argument.now) (type_of gives.now) (Some (body_of body.now))) }
{
    let got = check_alone(source, argument, gives, &body.term)?;
    let droppable = kinds_of(argument, source.vars).drop;
    end_body(source.alloc, droppable, body.param, got)
}

// A term in the context of an argument alone.
fn check_alone(source: &Source, argument: &Ty, gives: &Ty, term: &Term<Place>) -> Result<Got, Stop>
    ensures { Agrees got_of result (pass.check (map function_of source.now.functions.now) (bounds_of source.now.vars.now) (type_of argument.now ∷ []) (false ∷ []) (Some (type_of gives.now)) (the_term term.now)) }
{
    let mut context = alone(source.alloc, argument)?;
    let before = untouched(source.alloc)?;
    check_term(source, &mut context, &before, Some(gives), term)
}

// The context of an argument alone. Want of memory is its one refusal.
fn alone(alloc: Global, argument: &Ty) -> Result<Vec<Known>, Memory>
    ensures { IfOk result (λ context. entries_of context.items ≡ fresh (type_of argument.now) ∷ []) }
{
    let mut context = Vec::new(alloc);
    context.push(Known {
        ty: argument.copy(alloc)?,
        observed: false,
    })?;
    Ok(context)
}

// One variable that isn't touched. Want of memory is its one refusal.
fn untouched(alloc: Global) -> Result<Vec<bool>, Memory>
    ensures { IfOk result (λ flags. flags.items ≡ false ∷ []) }
{
    Ok(vec![in alloc; false; 1]?)
}

// Where a body ends: K3, and what is kept of it.
fn end_body(alloc: Global, droppable: bool, binder: Place, got: Got) -> Result<KeptBody, Stop>
    ensures { Agrees a_body result (ended droppable binder (tables.last (got_of got).uses) (Ok (Some (both_in (got_of got))))) }
{
    let (core, tree, mut uses) = got.apart();
    let given = leave(&mut uses);
    end_scope(droppable, binder, given)?;
    let tree = settled(alloc, given, tree)?;
    Ok(KeptBody {
        core: Box::into_inner(core),
        tree,
    })
}

// The derivation of a body where its argument is present, of which this becomes. Want of memory is its one refusal.
fn settled(alloc: Global, given: Use, mut tree: Deriv) -> Result<Deriv, Memory>
    ensures { IfOk result (λ t. derivation_of t ≡ splits.settled (splits.kept_new 0 given) (derivation_of tree)) }
{
    let mut kept = Vec::new(alloc);
    keep_new(&mut kept, 0, given)?;
    settle(&mut tree, &kept);
    Ok(tree)
}
