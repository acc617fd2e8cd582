// Functions that a term mentions: their types at their type arguments, and what fails of these.
#![tactic(auto)]

ghost use Rattle.std.specs.Prelude.{◌≡◌, map, IfOk, None, Some, slice_get, slice_index_or as get_or, if◌then◌else◌};
ghost use Rattle.std.specs.Option.{option_map};
ghost use Rattle.cg_base.specs.Types.{type_of};
ghost use Rattle.cg_core.specs.Kernels.{function_of};
ghost use Rattle.cg_core.specs.Terms.{arg_of};
ghost use Rattle.cg_faults.specs.Plain.{mentioned as mentioned_type};
ghost use Rattle.cg_kinds.specs.Kinds.{or_unit, subst as subst_of};
ghost use Rattle.cg_typing_parts.specs.Asked.{the_asked, unmet as unmet_rule, asked_fault as asked_fault_of, arguments_fault as arguments_fault_of};
ghost use Rattle.cg_typing.specs.Functions.{arg_types as arg_types_of, asked_by, asked_by_library, has_kinds as has_kinds_of, nothing, these};

use crate::form::{has_word_arrays, is_word};
use crate::library::{library_type, push_type};
use crate::named::is_cell;
use cg_base::{Bound, Fun, Items, Kinds, Lib, Memory, Place, Ty};
use cg_core::{KFun, TyArg};
use cg_faults::Rule;
use cg_kinds::{kinds_of, subst};
use std::alloc::Global;

// ---- types

// Copies of these type arguments.
fn arg_types(alloc: Global, args: &Items<TyArg>) -> Result<Items<Ty>, Memory>
    ensures { IfOk result (λ ts. map type_of ts ≡ arg_types_of (map arg_of args.now)) }
{
    let mut types = Items::new(alloc);
    for arg in args.as_slice() {
        push_type(&mut types, arg.ty.copy(alloc))?;
    }
    Ok(types)
}

// The type of a function of the source at these type arguments, or unit where there is no such function.
#[tactic(auto, using(crate::proofs::AskedSteps::type_steps))]
fn user_type(
    alloc: Global,
    functions: &Items<KFun>,
    at: u32,
    args: &Items<Ty>,
) -> Result<Ty, Memory>
    ensures { IfOk result (λ t. type_of t ≡ or_unit (option_map (λ g. subst_of (map type_of args.now) g.ty.ty) (slice_get (map function_of functions.now) at))) }
{
    match functions.get(at as usize) {
        Some(function) => subst(alloc, &function.ty.ty, args),
        None => Ok(Ty::Unit),
    }
}

/// The type of a function at its type arguments; unit where a source has no such function (docs/LANGUAGE.md, "Typing"). Want of memory
/// is its one refusal.
pub fn mentioned(
    alloc: Global,
    functions: &Items<KFun>,
    fun: Fun,
    args: &Items<TyArg>,
) -> Result<Ty, Memory>
    ensures { IfOk result (λ t. type_of t ≡ mentioned_type (map function_of functions.now) fun (map arg_of args.now)) }
{
    let types = arg_types(alloc, args)?;
    match fun {
        Fun::User(at) => user_type(alloc, functions, at, &types),
        Fun::Lib(lib) => library_type(alloc, lib, &types),
    }
}

// ---- type arguments

// What is asked of a type argument: these kinds, to be a record to write of which no field is taken, to be a word, or nothing.
#[derive(Clone, Copy)]
enum Demand {
    Permissions(Kinds),
    Cell,
    Element,
    Nothing,
}

// What a function of the library asks of its type argument at a position.
#[tactic(auto, using(crate::proofs::AskedSteps::library_steps))]
fn wanted_by_library(lib: Lib, at: usize) -> Demand
    ensures { the_asked result ≡ get_or (asked_by_library lib) at nothing }
{
    if at > 0 {
        return Demand::Nothing;
    }
    match lib {
        Lib::New | Lib::Free => Demand::Cell,
        Lib::Create | Lib::FreeArray | Lib::Length => Demand::Element,
        Lib::Get | Lib::Put | Lib::Map | Lib::Fold => Demand::Element,
        Lib::Seq32 | Lib::Seq64 | Lib::Seq32Break => Demand::Nothing,
    }
}

// What a function of the source asks of its type argument at a position.
#[tactic(auto, using(crate::proofs::AskedSteps::user_steps))]
fn wanted_by_user(function: &KFun, at: usize) -> Demand
    ensures { the_asked result ≡ get_or (map (λ b. these b.kinds) function.now.vars) at nothing }
{
    match function.vars.get(at) {
        Some(bound) => Demand::Permissions(bound.kinds),
        None => Demand::Nothing,
    }
}

// What a function asks of its type argument at a position.
fn wanted(functions: &Items<KFun>, fun: Fun, at: usize) -> Demand
    ensures { the_asked result ≡ get_or (asked_by (map function_of functions.now) fun) at nothing }
{
    match fun {
        Fun::User(function) => match functions.get(function as usize) {
            Some(function) => wanted_by_user(function, at),
            None => Demand::Nothing,
        },
        Fun::Lib(lib) => wanted_by_library(lib, at),
    }
}

// Whether the first gives each permission of the second.
fn has_kinds(kinds: Kinds, wanted: Kinds) -> bool
    ensures { result ≡ has_kinds_of kinds wanted }
{
    (!wanted.drop || kinds.drop)
        && (!wanted.share || kinds.share)
        && (!wanted.escape || kinds.escape)
}

// The rule where something fails, and None where it doesn't.
fn unless(holds: bool, rule: Rule) -> Option<Rule>
    ensures { result ≡ (if holds then None else Some rule) }
{
    if holds { None } else { Some(rule) }
}

// The rule that a type fails of what is asked.
fn unmet(vars: &Items<Bound>, wanted: Demand, ty: &Ty) -> Option<Rule>
    ensures { result ≡ unmet_rule (map (λ b. b.kinds) vars.now) (the_asked wanted) (type_of ty.now) }
{
    match wanted {
        Demand::Permissions(kinds) => unless(has_kinds(kinds_of(ty, vars), kinds), Rule::K1),
        Demand::Cell => unless(is_cell(ty), Rule::T13),
        Demand::Element => unless(is_word(ty), Rule::T14),
        Demand::Nothing => None,
    }
}

// The rule that a type argument fails.
fn asked_fault(vars: &Items<Bound>, wanted: Demand, ty: &Ty) -> Option<Rule>
    ensures { result ≡ asked_fault_of (map (λ b. b.kinds) vars.now) (the_asked wanted) (type_of ty.now) }
{
    if has_word_arrays(ty) {
        unmet(vars, wanted, ty)
    } else {
        Some(Rule::T14)
    }
}

/// The first type argument of a function that fails, by which rule and at which place; None where none does. Each is judged first by
/// its arrays (T14), and then by what the function asks of it (K1, T13, T14; docs/LANGUAGE.md, "Typing"). It takes no memory.
#[tactic(auto, using(crate::proofs::AskedSteps::fault_steps))]
pub fn arguments_fault(
    functions: &Items<KFun>,
    vars: &Items<Bound>,
    fun: Fun,
    args: &Items<TyArg>,
) -> Option<(Rule, Place)>
    ensures { result ≡ arguments_fault_of (map (λ b. b.kinds) vars.now) (asked_by (map function_of functions.now) fun) (map arg_of args.now) }
{
    let xs = args.as_slice();
    for i in 0..xs.len() {
        if let Some(rule) = asked_fault(vars, wanted(functions, fun, i), &xs[i].ty) {
            return Some((rule, xs[i].place));
        }
    }
    None
}
