// Leaves of a body: variables, literals, functions that are mentioned, and operators without operands.
ghost use Rattle.std.specs.Prelude.{◌≡◌, length, map, None};
ghost use Rattle.std.specs.Option.{option_copied};
ghost use Rattle.cg_base.specs.Types.{type_of, unit as unit_type};
ghost use Rattle.cg_check_def.specs.Pass.{check_shape, leaf as leaf_by};
ghost use Rattle.cg_check_context.specs.View.{Agrees, entries_of, types_in};
ghost use Rattle.cg_core.specs.declared.derivation.Node.TheVariants as nodes;
ghost use Rattle.cg_core.specs.Kernels.{function_of, the_core_form};
ghost use Rattle.cg_core.specs.Terms as terms;
ghost use Rattle.cg_core.specs.Terms.{arg_of};
ghost use Rattle.cg_faults.specs.Plain.{mentioned as mentioned_type};
ghost use Rattle.cg_check_nodes.specs.Gots.{got_of};
ghost use Rattle.cg_check_pieces.specs.View.{bounds_of, way_of};

use cg_base::{Fun, Items, Place, Ty};
use cg_check_context::{Known, Source, Stop, may_touch, meet, need, type_at};
use cg_check_nodes::{Got, leaf_of};
use cg_check_pieces::{boxed, copied, copied_arguments, plain};
use cg_check_uses::{no_uses, one_use};
use cg_core::{Form, Node, Op, Term, TyArg, Typed};
use cg_faults::Rule;
use cg_typing_parts::{arguments_fault, in_range, is_word, mentioned};
use std::alloc::Global;

// A leaf that uses no variable.
#[tactic(auto, using(cg_check_context::proofs::SourceSteps::types_long))]
fn check_leaf(
    source: &Source,
    context: &Vec<Known>,
    direction: Option<&Ty>,
    core: Term<Typed>,
    node: Node,
) -> Result<Got, Stop>
    ensures { Agrees got_of result (leaf_by (length (types_in (entries_of context.now.items))) (way_of (option_copied direction.entry)) core.note.place (type_of core.note.ty) (the_core_form core.form) node) }
{
    meet(direction, core.note.place, &core.note.ty)?;
    let uses = no_uses(source.alloc, context.len())?;
    leaf_of(source.alloc, core, node, uses)
}

/// A variable.
#[inline(never)]
pub fn check_var(
    source: &Source,
    context: &Vec<Known>,
    before: &Vec<bool>,
    direction: Option<&Ty>,
    place: Place,
    at: u32,
) -> Result<Got, Stop>
    ensures { Agrees got_of result (check_shape (map function_of source.now.functions.now) (bounds_of source.now.vars.now) (types_in (entries_of context.now.items)) before.now.items (way_of (option_copied direction.entry)) place (terms.var at)) }
{
    let var = at as usize;
    if !may_touch(source, context, before, var) {
        return Err(Stop::Rule(Rule::K4, place));
    }
    let ty = boxed(source.alloc, type_at(source.alloc, context, var))?;
    let core = plain(place, Box::into_inner(ty), Form::Var(at));
    meet(direction, place, &core.note.ty)?;
    let uses = one_use(source.alloc, context.len(), var)?;
    leaf_of(source.alloc, core, Node::Var, uses)
}

/// A truth value.
#[inline(never)]
pub fn check_bool(
    source: &Source,
    context: &Vec<Known>,
    before: &Vec<bool>,
    direction: Option<&Ty>,
    place: Place,
    value: bool,
) -> Result<Got, Stop>
    ensures { Agrees got_of result (check_shape (map function_of source.now.functions.now) (bounds_of source.now.vars.now) (types_in (entries_of context.now.items)) before.now.items (way_of (option_copied direction.entry)) place (terms.bool value)) }
{
    let core = plain(place, Ty::Bool, Form::Bool(value));
    check_leaf(source, context, direction, core, Node::Bool)
}

/// Unit.
#[inline(never)]
pub fn check_unit(
    source: &Source,
    context: &Vec<Known>,
    before: &Vec<bool>,
    direction: Option<&Ty>,
    place: Place,
) -> Result<Got, Stop>
    ensures { Agrees got_of result (check_shape (map function_of source.now.functions.now) (bounds_of source.now.vars.now) (types_in (entries_of context.now.items)) before.now.items (way_of (option_copied direction.entry)) place (terms.unit)) }
{
    let core = plain(place, Ty::Unit, Form::Unit);
    check_leaf(source, context, direction, core, Node::Unit)
}

/// A literal.
#[inline(never)]
pub fn check_literal(
    source: &Source,
    context: &Vec<Known>,
    before: &Vec<bool>,
    direction: Option<&Ty>,
    place: Place,
    value: Option<u64>,
) -> Result<Got, Stop>
    ensures { Agrees got_of result (check_shape (map function_of source.now.functions.now) (bounds_of source.now.vars.now) (types_in (entries_of context.now.items)) before.now.items (way_of (option_copied direction.entry)) place (terms.lit value)) }
{
    let Some(ty) = direction else {
        return Err(Stop::Rule(Rule::T2, place));
    };
    need(Rule::T1, place, is_word(ty))?;
    need(Rule::T3, place, in_range(value, ty))?;
    let ty = copied(source.alloc, ty)?;
    let core = plain(place, Box::into_inner(ty), Form::Lit(value));
    check_leaf(source, context, None, core, Node::Lit)
}

/// A function that is mentioned.
#[tactic(auto, using(cg_check_context::proofs::ScopeSteps::arguments_go, cg_check_context::proofs::ScopeSteps::arguments_stop))]
#[inline(never)]
pub fn check_mention(
    source: &Source,
    context: &Vec<Known>,
    before: &Vec<bool>,
    direction: Option<&Ty>,
    place: Place,
    fun: Fun,
    args: &Items<TyArg>,
) -> Result<Got, Stop>
    ensures { Agrees got_of result (check_shape (map function_of source.now.functions.now) (bounds_of source.now.vars.now) (types_in (entries_of context.now.items)) before.now.items (way_of (option_copied direction.entry)) place (terms.fun fun (map arg_of args.now))) }
{
    match arguments_fault(source.functions, source.vars, fun, args) {
        Some((rule, at)) => Err(Stop::Rule(rule, at)),
        None => check_instance(source, context, direction, place, fun, args),
    }
}

// A function that is mentioned with type arguments as it asks for them.
fn check_instance(
    source: &Source,
    context: &Vec<Known>,
    direction: Option<&Ty>,
    place: Place,
    fun: Fun,
    args: &Items<TyArg>,
) -> Result<Got, Stop>
    ensures { Agrees got_of result (leaf_by (length (types_in (entries_of context.now.items))) (way_of (option_copied direction.entry)) place
        (mentioned_type (map function_of source.now.functions.now) fun (map arg_of args.now)) (terms.fun fun (map arg_of args.now)) nodes.Fun) }
{
    let ty = boxed(
        source.alloc,
        mentioned(source.alloc, source.functions, fun, args),
    )?;
    let args = copied_arguments(source.alloc, args)?;
    let core = plain(place, Box::into_inner(ty), Form::Fun(fun, args));
    check_leaf(source, context, direction, core, Node::Fun)
}

// The form of an operator without operands.
#[tactic(auto, using(crate::proofs::BareSteps::bare_steps))]
fn bare(alloc: Global, op: Op) -> Form<Typed>
    ensures { the_core_form result ≡ terms.op op terms.none }
{
    Form::Op(op, Items::new(alloc))
}

/// An operator that has neither one operand nor two.
#[inline(never)]
pub fn check_bare(source: &Source, context: &Vec<Known>, place: Place, op: Op) -> Result<Got, Stop>
    ensures { Agrees got_of result (leaf_by (length (types_in (entries_of context.now.items))) None place unit_type (terms.op op terms.none) nodes.Op) }
{
    let core = plain(place, Ty::Unit, bare(source.alloc, op));
    check_leaf(source, context, None, core, Node::Op)
}
