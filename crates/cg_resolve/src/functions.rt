// The functions of a kernel.
#![tactic(auto)]

ghost use Rattle.std.specs.Prelude.{[]};
ghost use Rattle.std.specs.List.{cons_option};
ghost use Rattle.cg_surface.specs.Programs.{entry_of};
ghost use Rattle.cg_surface.specs.Written.{written_of};
ghost use Rattle.cg_resolve_declared.specs.Declarations.{entries_of, IsIndexed};
ghost use Rattle.cg_resolve_declared.specs.Tables.{texts};
ghost use Rattle.cg_resolve_def.specs.Declared.{definition_named};
ghost use Rattle.cg_resolve_def.specs.Desugar.{functions_of, function_of_entry, body_of, function_of as signed};
ghost use Rattle.cg_resolve_expand.specs.Known.{AreBodies};
ghost use Rattle.cg_resolve.specs.Answers.{KernelSays, FunctionsSay, FunctionSays, MaybeBodySays};

use crate::copies::{copy_bounds, names_of};
use cg_base::{Bound, Items, Memory};
use cg_core::{At, KBody, KFun, Kernel, TyArg};
use cg_resolve_declared::Declarations;
use cg_resolve_expand::{Synonyms, written_type};
use cg_resolve_sites::TermFault;
use cg_resolve_terms::body;
use cg_surface::{Item, STy};
use std::alloc::Global;

/// The kernel of a program: the functions of its signatures, in order, each with the body of the first definition of its name
/// (docs/LANGUAGE.md, "Desugaring").
pub fn kernel(
    alloc: Global,
    declared: &Declarations<'_>,
    synonyms: &Synonyms<'_>,
) -> Result<Kernel, TermFault>
    requires indexed { IsIndexed declared.now }
    requires bodies { AreBodies (entries_of declared.now) synonyms.now }
    ensures { KernelSays (functions_of (entries_of declared.now)) result }
{
    let mut funs = Items::new(alloc);
    for item in declared.items {
        push_function(alloc, declared, synonyms, &mut funs, item)?;
    }
    Ok(Kernel { funs })
}

// Adds the function of an item, where the item is a signature.
fn push_function(
    alloc: Global,
    declared: &Declarations<'_>,
    synonyms: &Synonyms<'_>,
    funs: &mut Items<KFun>,
    item: &Item,
) -> Result<(), TermFault>
    requires indexed { IsIndexed declared.now }
    requires bodies { AreBodies (entries_of declared.now) synonyms.now }
    ensures { FunctionsSay (cons_option (function_of_entry (entries_of declared.now) (entry_of item.now)) []) funs.old funs.new result }
{
    match item {
        Item::Signature { at, vars, ty, .. } => {
            let function = function(alloc, declared, synonyms, at, vars.as_slice(), ty)?;
            funs.push(function)?;
            Ok(())
        }
        Item::Synonym { .. } => Ok(()),
        Item::Abstract { .. } => Ok(()),
        Item::Define { .. } => Ok(()),
    }
}

// The function of a signature.
fn function(
    alloc: Global,
    declared: &Declarations<'_>,
    synonyms: &Synonyms<'_>,
    at: &At,
    vars: &[Bound],
    ty: &STy,
) -> Result<KFun, TermFault>
    requires indexed { IsIndexed declared.now }
    requires bodies { AreBodies (entries_of declared.now) synonyms.now }
    ensures { FunctionSays (signed (entries_of declared.now) at.now vars.now (written_of ty.now)) result }
{
    let names = names_of(alloc, vars)?;
    let body = function_body(alloc, declared, synonyms, names.as_slice(), at.name.bytes())?;
    Ok(KFun {
        at: at.copy(alloc)?,
        vars: copy_bounds(alloc, vars)?,
        ty: TyArg {
            place: ty.place,
            ty: written_type(alloc, synonyms, names.as_slice(), ty)?,
        },
        body,
    })
}

// The body of a function, where it has one.
fn function_body(
    alloc: Global,
    declared: &Declarations<'_>,
    synonyms: &Synonyms<'_>,
    vars: &[&[u8]],
    name: &[u8],
) -> Result<Option<KBody>, TermFault>
    requires indexed { IsIndexed declared.now }
    requires bodies { AreBodies (entries_of declared.now) synonyms.now }
    ensures { MaybeBodySays (body_of (entries_of declared.now) (texts vars.now) (definition_named (entries_of declared.now) name.now)) result }
{
    match declared.definition_named(name) {
        None => Ok(None),
        Some(definition) => Ok(Some(body(alloc, declared, synonyms, vars, &definition)?)),
    }
}
