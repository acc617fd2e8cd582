// The bodies of iterators, of the functions of cg_cgen that they are.
#![tactic(auto, using(crate::proofs::IteratorSteps::iterator_steps))]

ghost use Rattle.std.specs.Prelude.{◌≡◌, IfOk, map};
ghost use Rattle.std.specs.Option.{option_map};
ghost use Rattle.cg_base.specs.Types.{type_of, unit};
ghost use Rattle.cg_cgen.specs.Iterators.{types_of};
ghost use Rattle.cg_cgen_def.specs.Bodies.{body_of};
ghost use Rattle.cg_cgen_def.specs.Loops.{iterator_function as iterator_by};
ghost use Rattle.cg_cgen_def.specs.Names.{dispatch_name, function_name};
ghost use Rattle.cg_ctree.specs.Trees.{Function, body_of as body_in, function_of};
ghost use Rattle.cg_lib_value.specs.Library.{first_type};
ghost use Rattle.cg_lower_def.specs.IteratorCode.{low_iterator, word_in};
ghost use Rattle.cg_lower_def.specs.Lowered.{arrow_number, word_of as word_of_type};
ghost use Rattle.cg_typing.specs.Parts.{given_by as given_of, taken_by as taken_of};
ghost use Rattle.cg_update.specs.Turns.{field_type};
ghost use Rattle.cg_lower_library.specs.Codes.{arrow_types};
ghost use Rattle.cg_lower_nodes.specs.Kept.{kept_of, whole_of};

use crate::types::typed;
use cg_base::{Items, Lib, Memory, Name, Ty, Word};
use cg_cgen::{IterTypes, iterator};
use cg_cgen_lines::numbered;
use cg_ctree::{CBody, CFun};
use cg_lower_nodes::{Lowering, field_at, word_of};
use cg_typing_parts::library_type;
use std::alloc::Global;
use std::mem;

// What an arrow takes; of another type unit, which is handed in.
fn taken_by<'a>(ty: &'a Ty, none: &'a Ty) -> &'a Ty
    requires { type_of none.now ≡ unit }
    ensures { type_of result.now ≡ taken_of (type_of ty.now) }
{
    match ty {
        Ty::Arrow(from, _) => from,
        _ => none,
    }
}

// What an arrow gives; of another type unit, which is handed in.
fn given_by<'a>(ty: &'a Ty, none: &'a Ty) -> &'a Ty
    requires { type_of none.now ≡ unit }
    ensures { type_of result.now ≡ given_of (type_of ty.now) }
{
    match ty {
        Ty::Arrow(_, to) => to,
        _ => none,
    }
}

// The type of the function that an iterator of a type takes, which is its argument's field 3.
fn function_type<'a>(ty: &'a Ty, none: &'a Ty) -> &'a Ty
    requires { type_of none.now ≡ unit }
    ensures { type_of result.now ≡ field_type (taken_of (type_of ty.now)) 3 }
{
    match field_at(taken_by(ty, none), 3) {
        Some(function) => function,
        None => none,
    }
}

// The word of an iterator's counter, or of its elements.
fn word(lib: Lib, args: &Items<Ty>) -> Word
    ensures { result ≡ word_in lib (map type_of args.now) }
{
    match lib {
        Lib::Seq32 => Word::U32,
        Lib::Seq64 => Word::U64,
        Lib::Seq32Break => Word::U32,
        _ => element(args),
    }
}

// The word of the first type argument.
fn element(args: &Items<Ty>) -> Word
    ensures { result ≡ word_of_type (first_type (map type_of args.now)) }
{
    match args.get(0) {
        Some(ty) => word_of(ty),
        None => Word::U8,
    }
}

// The types in C of an iterator of a type, of elements or a counter of a word; the type of unit is handed in beside it.
fn iterator_types(
    alloc: Global,
    state: &mut Lowering,
    word: Word,
    ty: &Ty,
    none: &Ty,
) -> Result<IterTypes, Memory>
    requires { type_of none.now ≡ unit }
    ensures types { IfOk result (λ t. types_of t ≡ arrow_types (whole_of state.old).numbered word (type_of ty.now)) }
    ensures kept { kept_of state.new ≡ kept_of state.old }
{
    let function = function_type(ty, none);
    let arg = typed(alloc, state, taken_by(ty, none))?;
    let result = typed(alloc, state, given_by(ty, none))?;
    let item = typed(alloc, state, taken_by(function, none))?;
    let answer = typed(alloc, state, given_by(function, none))?;
    Ok(IterTypes {
        arg,
        result,
        item,
        answer,
        word,
    })
}

// The name of the function of the arrow type of an iterator's function.
fn callee(alloc: Global, state: &mut Lowering, ty: &Ty, none: &Ty) -> Result<Name, Memory>
    requires { type_of none.now ≡ unit }
    ensures name { IfOk result (λ x. x ≡ dispatch_name (arrow_number state.old.places.arrows (field_type (taken_of (type_of ty.now)) 3))) }
    ensures kept { kept_of state.new ≡ kept_of state.old }
{
    let number = state.places.arrow(alloc, function_type(ty, none))?;
    numbered(alloc, b'd', number)
}

// The function of an iterator of a type, the instance at a place; the type of unit is handed in beside it.
fn iterator_function(
    alloc: Global,
    state: &mut Lowering,
    at: usize,
    lib: Lib,
    word: Word,
    ty: &Ty,
    none: &Ty,
) -> Result<CFun, Memory>
    requires { type_of none.now ≡ unit }
    ensures function { IfOk result (λ f. function_of f ≡ iterator_by lib (function_name at) (arrow_types (whole_of state.old).numbered word (type_of ty.now)) (dispatch_name (arrow_number state.old.places.arrows (field_type (taken_of (type_of ty.now)) 3)))) }
    ensures kept { kept_of state.new ≡ kept_of state.old }
{
    let call = callee(alloc, state, ty, none)?;
    let name = numbered(alloc, b'f', at)?;
    let types = iterator_types(alloc, state, word, ty, none)?;
    iterator(alloc, lib, name, types, call)
}

// The body of a function that was made.
fn body_of_made(made: Result<CFun, Memory>) -> Result<Option<CBody>, Memory>
    ensures { (f : Function) → IfOk made (λ g. function_of g ≡ f) → IfOk result (λ b. option_map body_in b ≡ f.body) }
{
    let mut function = made?;
    Ok(mem::replace(&mut function.body, None))
}

/// The body of the C function of an iterator at type arguments, the instance at a place (docs/LANGUAGE.md, "The C of instances", library); of another function of the
/// library one that gives 0. The one error is want of memory. What lowering knows of the whole stays as it is.
pub fn iterator_body(
    alloc: Global,
    state: &mut Lowering,
    at: usize,
    lib: Lib,
    args: &Items<Ty>,
) -> Result<Option<CBody>, Memory>
    ensures body { IfOk result (λ b. option_map body_in b ≡ Some (body_of (low_iterator (whole_of state.old) lib (map type_of args.now)))) }
    ensures kept { kept_of state.new ≡ kept_of state.old }
{
    let ty = library_type(alloc, lib, args)?;
    let made = iterator_function(alloc, state, at, lib, word(lib, args), &ty, &Ty::Unit);
    drop(ty);
    body_of_made(made)
}
