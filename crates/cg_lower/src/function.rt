// The C function of an instance.
#![tactic(auto, using(crate::proofs::FunctionSteps::function_steps))]

ghost use Rattle.std.specs.Prelude.{◌≡◌, ◌<◌, ◌^◌, Some, length, map, IfOk, OnOk};
ghost use Rattle.std.specs.Option.{option_map};
ghost use Rattle.cg_base.specs.Types.{type_of};
ghost use Rattle.cg_core.specs.Kernels.{the_core};
ghost use Rattle.cg_ctree.specs.Trees as trees;
ghost use Rattle.cg_lower_nodes.specs.Kept.{kept_of, whole_of};
ghost use Rattle.cg_cgen_def.specs.Names.{declared, function_name as function_name_of};
ghost use Rattle.cg_lower_def.specs.CTypes.{c_type};
ghost use Rattle.cg_cgen_def.specs.Bodies.{body_of, locals_from};
ghost use Rattle.cg_lower_def.specs.Functions as pure;
ghost use Rattle.cg_cgen_def.specs.Places.{argument_name};
ghost use Rattle.cg_lower_def.specs.Structs.{numbered_in};
ghost use Rattle.cg_inst.specs.Views.{instance_of};
ghost use Rattle.cg_mono.specs.Copies.{body_by, copy_of};
ghost use Rattle.cg_typing.specs.Kept.{maybe_core};
ghost use Rattle.cg_typing.specs.Parts.{given_by, taken_by};
ghost use Rattle.cg_lower.specs.Lowerings.{Begins, IsHead, library_low};
ghost use Rattle.cg_lower.specs.Promises.{IsFewIn};

use cg_base::{Fun, Items, Lib, Memory, Name, Ty, Word};
use cg_cgen_lines::{Base, numbered};
use cg_core::{Term, Typed};
use cg_ctree::{CBody, CDecl, CFun, CStmt, CTy};
use cg_eval_operations::is_iterator;
use cg_lower_library::{iterator_body, library_body};
use cg_lower_nodes::{Lowering, Place};
use cg_lower_tables::Structs;
use cg_lower_terms::lower_term;
use cg_mono::Copy;
use std::alloc::Global;
use std::mem;

/// The name of the C function of the instance at a place: `f` and the place in decimal digits (docs/LANGUAGE.md, "The C of instances"). The
/// one error is want of memory.
pub fn function_name(alloc: Global, at: u32) -> Result<Name, Memory>
    ensures { IfOk result (λ name. name ≡ function_name_of at) }
{
    numbered(alloc, b'f', at as usize)
}

// The declarations of locals of these types, each by its number.
fn declared_locals(alloc: Global, mut types: Items<CTy>) -> Result<Items<CDecl>, Memory>
    ensures { IfOk result (λ decls. decls ≡ locals_from 0 types) }
{
    let mut decls = Items::new(alloc);
    let mut at: usize = 0;
    for ty in types.as_mut_slice() {
        let name = numbered(alloc, b'x', at)?;
        let ty = mem::replace(ty, CTy::Word(Word::U8));
        decls.push(CDecl { ty, name })?;
        at += 1;
    }
    Ok(decls)
}

// Nothing is lowered, in the scope of the argument alone.
fn begin(alloc: Global, state: &mut Lowering) -> Result<(), Memory>
    ensures { OnOk result (Begins state.old state.new) }
{
    drop(mem::replace(&mut state.locals, Items::new(alloc)));
    drop(mem::replace(&mut state.stmts, Items::new(alloc)));
    state.scope.truncate(0);
    state
        .scope
        .push(Place::Held(Base::Argument, Items::new(alloc)))?;
    Ok(())
}

// The body of a function whose core this is.
fn lower_body(alloc: Global, state: &mut Lowering, core: &Term<Typed>) -> Result<CBody, Memory>
    ensures body { IfOk result (λ b. trees.body_of b ≡ body_of (pure.low_body (whole_of state.old) (the_core core.now))) }
    ensures few { IfOk result (λ b. length (pure.low_body (whole_of state.old) (the_core core.now)).locals < 2 ^ 64) }
    ensures kept { IfOk result (λ b. kept_of state.new ≡ kept_of state.old) }
{
    begin(alloc, state)?;
    let value = lower_term(alloc, state, core)?;
    let operand = value.operand(alloc)?;
    state.stmts.push(CStmt::Return(operand))?;
    let types = mem::replace(&mut state.locals, Items::new(alloc));
    let locals = declared_locals(alloc, types)?;
    let stmts = mem::replace(&mut state.stmts, Items::new(alloc));
    Ok(CBody { locals, stmts })
}

// The body of a function of the library, the instance at a place.
fn lower_library(
    alloc: Global,
    state: &mut Lowering,
    at: usize,
    lib: Lib,
    args: &Items<Ty>,
) -> Result<Option<CBody>, Memory>
    ensures body { IfOk result (λ b. option_map trees.body_of b ≡ Some (body_of (library_low (whole_of state.old) lib (map type_of args.now)))) }
    ensures kept { IfOk result (λ b. kept_of state.new ≡ kept_of state.old) }
{
    if is_iterator(lib) {
        iterator_body(alloc, state, at, lib, args)
    } else {
        Ok(Some(library_body(alloc, state, lib, args)?))
    }
}

// The body of the function of the instance at a place; none, where it has none.
fn body(
    alloc: Global,
    state: &mut Lowering,
    at: usize,
    copy: &Copy,
) -> Result<Option<CBody>, Memory>
    ensures body { IfOk result (λ b. option_map trees.body_of b
        ≡ option_map body_of (pure.low_instance (whole_of state.old) (instance_of copy.now.instance) (maybe_core (body_by copy.now)))) }
    ensures few { IfOk result (λ b. IsFewIn (whole_of state.old) (instance_of copy.now.instance, copy_of copy.now)) }
    ensures kept { IfOk result (λ b. kept_of state.new ≡ kept_of state.old) }
{
    match copy.core() {
        Some(core) => Ok(Some(lower_body(alloc, state, core)?)),
        None => match copy.instance.fun {
            Fun::User(_) => Ok(None),
            Fun::Lib(lib) => lower_library(alloc, state, at, lib, &copy.instance.args),
        },
    }
}

/// What a function of an arrow type takes, as C has it.
pub(crate) fn taken(alloc: Global, structs: &mut Structs, ty: &Ty) -> Result<CTy, Memory>
    ensures ty { IfOk result (λ c. c ≡ c_type (numbered_in structs.old.table) (taken_by (type_of ty.now))) }
    ensures kept { structs.new.table ≡ structs.old.table }
{
    match ty {
        Ty::Arrow(from, _) => structs.c_type(alloc, from),
        _ => structs.c_type(alloc, &Ty::Unit),
    }
}

/// What it gives, as C has it.
pub(crate) fn given(alloc: Global, structs: &mut Structs, ty: &Ty) -> Result<CTy, Memory>
    ensures ty { IfOk result (λ c. c ≡ c_type (numbered_in structs.old.table) (given_by (type_of ty.now))) }
    ensures kept { structs.new.table ≡ structs.old.table }
{
    match ty {
        Ty::Arrow(_, to) => structs.c_type(alloc, to),
        _ => structs.c_type(alloc, &Ty::Unit),
    }
}

// The declaration of an argument.
fn parameter(alloc: Global, structs: &mut Structs, ty: &Ty) -> Result<CDecl, Memory>
    ensures decl { IfOk result (λ d. d ≡ declared (c_type (numbered_in structs.old.table) (taken_by (type_of ty.now))) argument_name) }
    ensures kept { structs.new.table ≡ structs.old.table }
{
    let name = numbered(alloc, b'a', 0)?;
    let ty = taken(alloc, structs, ty)?;
    Ok(CDecl { ty, name })
}

// The function of an instance of an arrow type, without its body.
fn head(alloc: Global, structs: &mut Structs, at: usize, ty: &Ty) -> Result<CFun, Memory>
    ensures head { IfOk result (λ f. IsHead (numbered_in structs.old.table) at (type_of ty.now) f) }
    ensures kept { structs.new.table ≡ structs.old.table }
{
    let name = numbered(alloc, b'f', at)?;
    let mut params = Items::new(alloc);
    params.push(parameter(alloc, structs, ty)?)?;
    Ok(CFun {
        ty: given(alloc, structs, ty)?,
        name,
        params,
        body: None,
    })
}

/// The C function of the instance at a place (docs/LANGUAGE.md, "The C of instances"). The one error is want of memory.
pub(crate) fn lower_function(
    alloc: Global,
    state: &mut Lowering,
    at: usize,
    copy: &Copy,
) -> Result<CFun, Memory>
    ensures function { IfOk result (λ f. trees.function_of f ≡ pure.function_of (whole_of state.old) at (instance_of copy.now.instance) (copy_of copy.now)) }
    ensures few { IfOk result (λ f. IsFewIn (whole_of state.old) (instance_of copy.now.instance, copy_of copy.now)) }
    ensures kept { IfOk result (λ f. kept_of state.new ≡ kept_of state.old) }
{
    let mut function = head(alloc, &mut state.structs, at, &copy.ty)?;
    let body = body(alloc, state, at, copy)?;
    drop(mem::replace(&mut function.body, body));
    Ok(function)
}
