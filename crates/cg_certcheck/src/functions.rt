// The check of a certificate: its functions in turn beside those of the kernel.
#![tactic(auto, using(crate::proofs::BodySteps::body_steps))]

ghost use Rattle.std.specs.Prelude.{◌≡◌, ◌+◌, IfOk, Some, drop, map};
ghost use Rattle.cg_base.specs.Types.{type_of};
ghost use Rattle.cg_certcheck.specs.Bodies as bodies;
ghost use Rattle.cg_certcheck.specs.Bodies.{next_in};
ghost use Rattle.cg_check_pieces.specs.Bodies.{as_lists, lists_of, maybe_both};
ghost use Rattle.cg_certcheck_gots.specs.Gots.{got_in};
ghost use Rattle.cg_certcheck_context.specs.View.{Agrees};
ghost use Rattle.cg_check_pieces.specs.View.{bounds_of};
ghost use Rattle.cg_core.specs.Derivations.{derivation_of};
ghost use Rattle.cg_core.specs.Kernels.{function_of, kernel_of, the_core, the_term};
ghost use Rattle.cg_core_def.specs.Lawful.{IsLawfulKernel};
ghost use Rattle.cg_certcheck.specs.Judged.{Rechecks};
ghost use Rattle.cg_certcheck_def.specs.Pass.{check_cert};

use crate::pass::check_term;
use cg_base::{Items, Memory, Name, Place, Ty};
use cg_cert::{Cert, CertFault, CertFun, CertNode};
use cg_certcheck_context::{Cursor, Source, present};
use cg_certcheck_gots::Got;
use cg_check_pieces::{KeptBodies, KeptBody};
use cg_core::{KFun, Kernel, Term};
use cg_typing::Checked;
use cg_typing_parts::has_word_arrays;
use std::alloc::Global;

/// Judges a certificate against a lawful kernel (docs/LANGUAGE.md, "Certificates"). Ok exactly where it spells a derivation of the kernel,
/// with any splits, and no type of a node passes the limit: the kernel with the core of each body and the derivation that is listed. Else
/// the first test that fails in the order of nodes: C2 with the number of a node whose row breaks, C3 with that of one that is missing or
/// surplus, or of the next node where a function's name isn't the next one, or the limit `type`; and `Memory` for want of memory.
#[tactic(auto, using(crate::proofs::JudgeSteps::judge_steps))]
pub fn recheck(alloc: Global, kernel: Kernel, cert: &Cert) -> Result<Checked, CertFault>
    requires lawful { IsLawfulKernel (kernel_of kernel) }
    ensures { Rechecks kernel cert.now result }
{
    match recheck_functions(alloc, &kernel.funs, cert) {
        Ok(KeptBodies { cores, trees }) => Ok(Checked::new(kernel, cores, trees)),
        Err(fault) => Err(fault),
    }
}

// What the check of a function comes to: what is kept of its body, if it has one; and which function of the certificate is next, by its
// index and the number of its first node.
struct Judged {
    kept: Option<KeptBody>,
    at: Cursor,
}

// What is kept of each function of a kernel where a certificate spells a derivation of it (docs/LANGUAGE.md, "Certificates"). Else C2
// with the first node whose row breaks, C3 with the first that is missing or surplus, or stands for a name that is, or the limit where
// the type of a node passes it; and `Memory` for want of memory.
fn recheck_functions(
    alloc: Global,
    functions: &Items<KFun>,
    cert: &Cert,
) -> Result<KeptBodies, CertFault>
    ensures { Agrees lists_of result (as_lists (check_cert (map function_of functions.now) cert.now)) }
{
    let funs = cert.funs.as_slice();
    let mut kept = KeptBodies::new(alloc);
    let mut at = Cursor { index: 0, next: 1 };
    for fun in functions.as_slice() {
        let judged = check_function(alloc, functions, funs, at, fun)?;
        let Judged {
            kept: body,
            at: behind,
        } = judged;
        kept.push(body)?;
        at = behind;
    }
    if at.index < funs.len() {
        return Err(CertFault::C3(at.next));
    }
    Ok(kept)
}

// A function: its signature's type, and then its body, if it has one.
fn check_function(
    alloc: Global,
    functions: &Items<KFun>,
    funs: &[CertFun],
    at: Cursor,
    fun: &KFun,
) -> Result<Judged, CertFault>
    ensures { Agrees (next_in funs.now) result (bodies.function_by (map function_of functions.now) (function_of fun.now) (drop at.index funs.now) at.next) }
{
    let Ty::Arrow(argument, gives) = &fun.ty.ty else {
        return Err(CertFault::C2(at.next));
    };
    if !has_word_arrays(&fun.ty.ty) {
        return Err(CertFault::C2(at.next));
    }
    let Some(body) = &fun.body else {
        return Ok(Judged { kept: None, at });
    };
    check_named(alloc, functions, funs, at, fun, argument, gives, &body.term)
}

// A function with a body, which the next function of the certificate is for.
fn check_named(
    alloc: Global,
    functions: &Items<KFun>,
    funs: &[CertFun],
    at: Cursor,
    fun: &KFun,
    argument: &Ty,
    gives: &Ty,
    term: &Term<Place>,
) -> Result<Judged, CertFault>
    ensures { Agrees (next_in funs.now) result (bodies.named_by (map function_of functions.now) (bounds_of fun.now.vars) fun.now.at.name (type_of argument.now) (type_of gives.now) (the_term term.now) (drop at.index funs.now) at.next) }
{
    let nodes = nodes_of(funs, at, &fun.at.name)?;
    let source = Source {
        alloc,
        functions,
        vars: &fun.vars,
        nodes,
    };
    let got = check_body(&source, argument, gives, at.next, term)?;
    Ok(behind(at.index, got)?)
}

// The nodes of the next function of the certificate, which has this name: C3 where it hasn't.
#[tactic(auto, using(crate::proofs::BodySteps::name_steps), unfolding(crate::specs::Bodies::nodes_by))]
fn nodes_of<'a>(funs: &'a [CertFun], at: Cursor, name: &Name) -> Result<&'a [CertNode], CertFault>
    ensures { Agrees (λ nodes. nodes.now) result (bodies.nodes_by (drop at.index funs.now) at.next name.now) }
{
    if at.index >= funs.len() {
        return Err(CertFault::C3(at.next));
    }
    let listed = &funs[at.index];
    if !listed.name.same(name) {
        return Err(CertFault::C3(at.next));
    }
    Ok(listed.nodes.as_slice())
}

// A body in the context of its argument alone, checked against the result: C3 where a node is left behind it.
#[tactic(auto, using(crate::proofs::BodySteps::over_steps), unfolding(crate::specs::Bodies::body_by))]
fn check_body(
    source: &Source,
    argument: &Ty,
    gives: &Ty,
    next: u64,
    term: &Term<Place>,
) -> Result<Got, CertFault>
    ensures { Agrees (got_in source.now.nodes.now) result (bodies.body_by (map function_of source.now.functions.now) (bounds_of source.now.vars.now) (type_of argument.now) (type_of gives.now) (record { nodes = source.now.nodes.now; next = next }) (the_term term.now)) }
{
    let context = [present(source, argument)];
    let at = Cursor { index: 0, next };
    let got = check_term(source, &context, Some(gives), at, term)?;
    if got.at.index < source.nodes.len() {
        return Err(CertFault::C3(got.at.next));
    }
    Ok(got)
}

// What is kept of a body, behind the function at this index. Want of memory is its one refusal.
fn behind(index: usize, got: Got) -> Result<Judged, Memory>
    ensures kept { IfOk result (λ judged. maybe_both judged.kept ≡ Some (the_core got.core.value, derivation_of got.tree)) }
    ensures index { IfOk result (λ judged. judged.at.index ≡ index + 1) }
    ensures next { IfOk result (λ judged. judged.at.next ≡ got.at.next) }
{
    let next = got.at.next;
    let index = index.checked_add(1).ok_or(Memory)?;
    let (core, tree) = got.apart();
    let core = Box::into_inner(core);
    let kept = Some(KeptBody { core, tree });
    Ok(Judged {
        kept,
        at: Cursor { index, next },
    })
}
