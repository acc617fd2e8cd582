// Leaves of a body: variables, literals, and functions that are mentioned.
#![tactic(auto, using(crate::proofs::LeafSteps::leaf_steps))]

ghost use Rattle.std.specs.Prelude.{◌≡◌, Ok, map};
ghost use Rattle.std.specs.Option.{option_copied};
ghost use Rattle.cg_base.specs.Types.{type_of};
ghost use Rattle.cg_certcheck_ends.specs.Leaves.{bool_by, leaf_by, literal_by, mention_by, unit_by, var_by};
ghost use Rattle.cg_certcheck_def.specs.Pass.{made};
ghost use Rattle.cg_certcheck_context.specs.Contexts.{context_of};
ghost use Rattle.cg_certcheck_gots.specs.Gots.{got_in};
ghost use Rattle.cg_certcheck_gots.specs.Held.{literal_judged};
ghost use Rattle.cg_certcheck_context.specs.View.{Agrees, cursor_of};
ghost use Rattle.cg_check_pieces.specs.View.{bounds_of, way_of};
ghost use Rattle.cg_core.specs.declared.derivation.Node.TheVariants as nodes;
ghost use Rattle.cg_core.specs.Kernels.{function_of, the_core_form};
ghost use Rattle.cg_core.specs.Terms as terms;
ghost use Rattle.cg_core.specs.Terms.{arg_of};
ghost use Rattle.cg_typing.specs.Functions.{are_good_arguments, asked_by};
ghost use Rattle.cg_typing.specs.Trees.{leaf};

use cg_base::{Fun, Items, Limit, Place, Ty};
use cg_cert::CertFault;
use cg_certcheck_context::{
    Cursor, Entry, Source, drops_all, ends_with, reach_leaf, test_leaf, type_at,
};
use cg_certcheck_gots::{Got, leaf_of};
use cg_check_pieces::{boxed, copied, copied_arguments, plain};
use cg_core::{Form, Node, Term, TyArg, Typed};
use cg_typing_parts::{arguments_fault, in_range, is_small_enough, mentioned};

// A leaf of this core, of whose context it is known whether it may end there.
fn end_leaf(
    source: &Source,
    direction: Option<&Ty>,
    core: Term<Typed>,
    node: Node,
    holds: bool,
    at: Cursor,
) -> Result<Got, CertFault>
    ensures { Agrees (got_in source.now.nodes.now) result (leaf_by (way_of (option_copied direction.entry)) core.note.place (type_of core.note.ty) (the_core_form core.form) node holds (cursor_of source.now.nodes.now at)) }
{
    let behind = test_leaf(source, direction, &core.note.ty, node, holds, at)?;
    leaf_of(source, core, node, behind)
}

/// A variable.
#[inline(never)]
pub fn check_var(
    source: &Source,
    context: &[Entry],
    direction: Option<&Ty>,
    at: Cursor,
    place: Place,
    var: u32,
) -> Result<Got, CertFault>
    ensures { Agrees (got_in source.now.nodes.now) result (var_by (bounds_of source.now.vars.now) (context_of (bounds_of source.now.vars.now) context.now) (way_of (option_copied direction.entry)) (cursor_of source.now.nodes.now at) place var) }
{
    let position = var as usize;
    let holds = ends_with(source, context, position);
    let ty = boxed(source.alloc, type_at(source, context, position))?;
    let core = plain(place, Box::into_inner(ty), Form::Var(var));
    end_leaf(source, direction, core, Node::Var, holds, at)
}

/// Unit.
#[inline(never)]
pub fn check_unit(
    source: &Source,
    context: &[Entry],
    direction: Option<&Ty>,
    at: Cursor,
    place: Place,
) -> Result<Got, CertFault>
    ensures { Agrees (got_in source.now.nodes.now) result (unit_by (bounds_of source.now.vars.now) (context_of (bounds_of source.now.vars.now) context.now) (way_of (option_copied direction.entry)) (cursor_of source.now.nodes.now at) place) }
{
    let holds = drops_all(source, context);
    let core = plain(place, Ty::Unit, Form::Unit);
    end_leaf(source, direction, core, Node::Unit, holds, at)
}

/// A truth value.
#[inline(never)]
pub fn check_bool(
    source: &Source,
    context: &[Entry],
    direction: Option<&Ty>,
    at: Cursor,
    place: Place,
    value: bool,
) -> Result<Got, CertFault>
    ensures { Agrees (got_in source.now.nodes.now) result (bool_by (bounds_of source.now.vars.now) (context_of (bounds_of source.now.vars.now) context.now) (way_of (option_copied direction.entry)) (cursor_of source.now.nodes.now at) place value) }
{
    let holds = drops_all(source, context);
    let core = plain(place, Ty::Bool, Form::Bool(value));
    end_leaf(source, direction, core, Node::Bool, holds, at)
}

// A literal of this type, behind its node.
fn literal_of(
    source: &Source,
    place: Place,
    value: Option<u64>,
    ty: &Ty,
    behind: Cursor,
) -> Result<Got, CertFault>
    ensures { Agrees (got_in source.now.nodes.now) result (Ok (made place (type_of ty.now) (terms.lit value) (leaf nodes.Lit) (cursor_of source.now.nodes.now behind))) }
{
    let ty = copied(source.alloc, ty)?;
    let core = plain(place, Box::into_inner(ty), Form::Lit(value));
    leaf_of(source, core, Node::Lit, behind)
}

/// A literal.
#[inline(never)]
pub fn check_literal(
    source: &Source,
    context: &[Entry],
    direction: Option<&Ty>,
    at: Cursor,
    place: Place,
    value: Option<u64>,
) -> Result<Got, CertFault>
    ensures { Agrees (got_in source.now.nodes.now) result (literal_by (bounds_of source.now.vars.now) (context_of (bounds_of source.now.vars.now) context.now) (way_of (option_copied direction.entry)) (cursor_of source.now.nodes.now at) place value) }
{
    let behind = reach_leaf(source, Node::Lit, at)?;
    let Some(ty) = direction else {
        return Err(CertFault::C2(at.next));
    };
    if !drops_all(source, context) {
        return Err(CertFault::C2(at.next));
    }
    if !in_range(value, ty) {
        return Err(CertFault::C2(at.next));
    }
    literal_of(source, place, value, ty, behind)
}

/// A literal that stands left of its guide and was reached before it, of the guide's type: C2 where it isn't in range, and the limit
/// where the type passes it.
#[tactic(auto, using(crate::proofs::LeafSteps::leaf_steps), unfolding(cg_certcheck_gots::specs::Held::literal_judged))]
#[inline(never)]
pub(crate) fn judge_literal(
    source: &Source,
    place: Place,
    value: Option<u64>,
    ty: &Ty,
    number: u64,
    behind: Cursor,
) -> Result<Got, CertFault>
    ensures { Agrees (got_in source.now.nodes.now) result (literal_judged place value (type_of ty.now) number (cursor_of source.now.nodes.now behind)) }
{
    if !in_range(value, ty) {
        return Err(CertFault::C2(number));
    }
    if !is_small_enough(ty) {
        return Err(CertFault::Limit(Limit::Ty));
    }
    literal_of(source, place, value, ty, behind)
}

// Whether each type argument is written with arrays of words alone, and is what the function asks for.
#[tactic(auto, using(crate::proofs::LeafSteps::argument_steps))]
fn are_good(source: &Source, fun: Fun, args: &Items<TyArg>) -> bool
    ensures { result ≡ are_good_arguments (bounds_of source.now.vars.now) (asked_by (map function_of source.now.functions.now) fun) (map arg_of args.now) }
{
    match arguments_fault(source.functions, source.vars, fun, args) {
        Some(_) => false,
        None => true,
    }
}

/// A function that is mentioned.
#[inline(never)]
pub fn check_mention(
    source: &Source,
    context: &[Entry],
    direction: Option<&Ty>,
    at: Cursor,
    place: Place,
    fun: Fun,
    args: &Items<TyArg>,
) -> Result<Got, CertFault>
    ensures { Agrees (got_in source.now.nodes.now) result (mention_by (map function_of source.now.functions.now) (bounds_of source.now.vars.now) (context_of (bounds_of source.now.vars.now) context.now) (way_of (option_copied direction.entry)) (cursor_of source.now.nodes.now at) place fun (map arg_of args.now)) }
{
    let holds = drops_all(source, context) && are_good(source, fun, args);
    let ty = mentioned(source.alloc, source.functions, fun, args);
    let ty = boxed(source.alloc, ty)?;
    let args = copied_arguments(source.alloc, args)?;
    let core = plain(place, Box::into_inner(ty), Form::Fun(fun, args));
    end_leaf(source, direction, core, Node::Fun, holds, at)
}
