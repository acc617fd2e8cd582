// What names mean that are no variables.
#![tactic(auto, using(std::proofs::lemmas::Grind::common_steps, crate::proofs::NameSteps::name_steps), unfolding(crate::specs::Names::entries_in, crate::specs::Names::vars_in, crate::specs::Names::AreNames))]

ghost use Rattle.std.specs.Prelude.{◌≡◌, map, IfOk};
ghost use Rattle.cg_core.specs.Kernels.{the_term};
ghost use Rattle.cg_core.specs.Terms.{arg_of};
ghost use Rattle.cg_surface.specs.Written.{written_of, to_types};
ghost use Rattle.cg_resolve_nodes.specs.Names.{AreNames, named_function, written_in, function_in};

use crate::nodes::mentioned;
use cg_base::{Fun, Items, Lib, Memory, Place};
use cg_core::{Term, TyArg};
use cg_resolve_declared::{Declarations, library_function};
use cg_resolve_expand::{Synonyms, written_type};
use cg_surface::STy;
use std::alloc::Global;

/// What names mean where an expression stands: the program's declarations, what its synonyms are for, and the names of type
/// variables.
#[derive(Clone, Copy)]
pub struct Names<'a, 'b, 'c, 'd, 's, 'v> {
    pub declared: &'a Declarations<'d>,
    pub synonyms: &'b Synonyms<'s>,
    pub vars: &'c [&'v [u8]],
}

/// A written type, at its place. Want of memory is its one refusal.
#[inline(never)]
pub fn written_arg(alloc: Global, names: &Names, ty: &STy) -> Result<TyArg, Memory>
    requires { AreNames names.now }
    ensures { IfOk result (λ arg. arg_of arg ≡ written_in names.now (written_of ty.now)) }
{
    Ok(TyArg {
        place: ty.place,
        ty: written_type(alloc, names.synonyms, names.vars, ty)?,
    })
}

// The types that a function is applied to.
fn written_args(alloc: Global, names: &Names, types: &Items<STy>) -> Result<Items<TyArg>, Memory>
    requires { AreNames names.now }
    ensures { IfOk result (λ args. map arg_of args ≡ map (written_in names.now) (map written_of types.now)) }
{
    let mut args = Items::new(alloc);
    for ty in types.as_slice() {
        args.push(written_arg(alloc, names, ty)?)?;
    }
    Ok(args)
}

/// The term of a name that is no variable, at its place with the types that it is applied to. Want of memory is its one refusal.
#[inline(never)]
pub fn function_term(
    alloc: Global,
    names: &Names,
    place: Place,
    name: &[u8],
    types: &Items<STy>,
) -> Result<Term<Place>, Memory>
    requires { AreNames names.now }
    ensures { IfOk result (λ t. the_term t ≡ function_in names.now place name.now (to_types (map written_of types.now))) }
{
    let args = written_args(alloc, names, types)?;
    let function = function(names, name);
    Ok(mentioned(place, function, args))
}

// The function of a name: of the library, or of the program.
fn function(names: &Names, name: &[u8]) -> Fun
    requires { AreNames names.now }
    ensures { result ≡ named_function names.now name.now }
{
    match library_function(name) {
        Some(function) => Fun::Lib(function.lib),
        None => match names.declared.function_named(name) {
            Some(function) => Fun::User(function.position),
            None => Fun::Lib(Lib::New),
        },
    }
}
