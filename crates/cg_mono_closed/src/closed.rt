// Cores in which no type variable stands.

ghost use Rattle.std.specs.Prelude.{◌≡◌, map, IfOk};
ghost use Rattle.std.specs.List.{list_all};
ghost use Rattle.cg_base.specs.Types.{part_of, to_parts, to_taus, type_of};
ghost use Rattle.cg_core.specs.Kernels.{the_core};
ghost use Rattle.cg_core.specs.Terms.{arg_of};
ghost use Rattle.cg_mono_closed.specs.Closed.{closed, closed_all, closed_arg, closed_core, closed_node, closed_parts};

use cg_base::{Items, Memory, Part, Ty};
use cg_core::{Form, Term, TyArg, Typed};
use cg_typing::nodes_in;
use std::alloc::Global;

// Whether none stands in a type.
#[cycle(closed)]
fn is_closed_type(ty: &Ty) -> bool
    ensures { result ≡ closed (type_of ty.now) }
{
    match ty {
        Ty::Var(_) | Ty::Seen(_) => false,
        Ty::Unit | Ty::Word(_) | Ty::Bool => true,
        Ty::Arrow(from, to) => is_closed_type(from) && is_closed_type(to),
        Ty::Abs(_, types, _) => are_closed_types(types),
        Ty::Variant(parts) | Ty::Fields(parts, _) => are_closed_parts(parts),
    }
}

#[cycle(closed)]
fn are_closed_types(types: &Items<Ty>) -> bool
    ensures { result ≡ closed_all (to_taus (map type_of types.now)) }
{
    for ty in types.as_slice() {
        if !is_closed_type(ty) {
            return false;
        }
    }
    true
}

#[cycle(closed)]
fn are_closed_parts(parts: &Items<Part>) -> bool
    ensures { result ≡ closed_parts (to_parts (map part_of parts.now)) }
{
    for part in parts.as_slice() {
        if !is_closed_type(&part.ty) {
            return false;
        }
    }
    true
}

// Whether none stands in written types.
fn are_closed(args: &Items<TyArg>) -> bool
    ensures { result ≡ list_all closed_arg (map arg_of args.now) }
{
    for arg in args.as_slice() {
        if !is_closed_type(&arg.ty) {
            return false;
        }
    }
    true
}

// Whether none stands in the types of a node.
fn is_closed_node(node: &Term<Typed>) -> bool
    ensures { result ≡ closed_node (the_core node.now) }
{
    if !is_closed_type(&node.note.ty) {
        return false;
    }
    match &node.form {
        Form::Fun(_, args) => are_closed(args),
        Form::Annot(_, arg) => is_closed_type(&arg.ty),
        Form::Var(_) | Form::Unit | Form::Bool(_) | Form::Lit(_) | Form::Op(_, _) => true,
        Form::App(_, _) | Form::Let(_, _, _) | Form::LetBang(_, _, _, _) => true,
        Form::If(_, _, _) | Form::Con(_, _) | Form::Case(_, _, _, _, _) => true,
        Form::Esac(_, _) | Form::Struct(_) | Form::Member(_, _) => true,
        Form::Take(_, _, _, _, _) | Form::Put(_, _, _) | Form::Cast(_) => true,
    }
}

/// Whether no type variable stands in a core (docs/LANGUAGE.md, "Instances"): in no type of a node, and in none that is written at one. By the
/// law `closed_cores_stay` types for type variables change nothing of such a core. Want of memory is its one refusal.
pub fn is_closed(alloc: Global, core: &Term<Typed>) -> Result<bool, Memory>
    ensures { IfOk result (λ closed. closed ≡ closed_core (the_core core.now)) }
{
    let nodes = nodes_in(alloc, core)?;
    for node in nodes.as_slice() {
        if !is_closed_node(node) {
            return Ok(false);
        }
    }
    Ok(true)
}
