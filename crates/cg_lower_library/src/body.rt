// The body of a function of the library.
#![tactic(auto, using(crate::proofs::CodeSteps::code_steps))]

ghost use Rattle.std.specs.Prelude.{◌≡◌, ◌++◌, [], ◌∷◌, IfOk, codes, map};
ghost use Rattle.cg_base.specs.declared.fun.Lib.TheVariants as lib_of;
ghost use Rattle.cg_base.specs.Types.{type_of};
ghost use Rattle.cg_cmachine_def.specs.BuiltIns.{array_call};
ghost use Rattle.cg_ctree.specs.declared.tree.CRhs.TheVariants.{Call as called, New as made};
ghost use Rattle.cg_ctree.specs.Trees.{body_of as body_in};
ghost use Rattle.cg_lib_value.specs.Library.{first_type};
ghost use Rattle.cg_cgen_def.specs.Bodies.{body_of, leaf, Low};
ghost use Rattle.cg_cgen_def.specs.Places.{field_of_argument, whole_argument, number, operand};
ghost use Rattle.cg_lower_def.specs.LibraryCode.{low_library};
ghost use Rattle.cg_lower_def.specs.Lowered.{typed as typed_in, word_of as word_of_type};
ghost use Rattle.cg_typing.specs.Library.{array as array_of, library_type as type_of_library};
ghost use Rattle.cg_typing.specs.Parts.{all_taken as all_taken_of, given_by};
ghost use Rattle.cg_lower_nodes.specs.Kept.{kept_of, whole_of};
ghost use Rattle.cg_lower_library.specs.Codes.{IsLow};

use crate::calls::{free, free_array, get, length_of, put};
use crate::code::{Code, argument_field, two_operands};
use crate::fresh::fresh;
use crate::types::{array, record_name, typed, typed_result};
use cg_base::{Items, Lib, Memory, Name, Ty};
use cg_cgen_lines::{Base, array_name};
use cg_ctree::{CBody, CRhs, CStmt, CTy};
use cg_lower_nodes::{Lowering, Place, word_of};
use cg_typing_parts::{all_taken, library_type};
use std::alloc::Global;

// What a function of the library gives, as C has it.
fn given_type(
    alloc: Global,
    state: &mut Lowering,
    lib: Lib,
    args: &Items<Ty>,
) -> Result<CTy, Memory>
    ensures given { IfOk result (λ c. c ≡ typed_in (whole_of state.old) (given_by (type_of_library lib (map type_of args.now)))) }
    ensures kept { kept_of state.new ≡ kept_of state.old }
{
    let ty = library_type(alloc, lib, args)?;
    let given = typed_result(alloc, state, &ty);
    drop(ty);
    given
}

// The type of a new cell, as C has it.
fn cell_type(alloc: Global, state: &mut Lowering, first: &Ty) -> Result<CTy, Memory>
    ensures cell { IfOk result (λ c. c ≡ typed_in (whole_of state.old) (all_taken_of (type_of first.now))) }
    ensures kept { kept_of state.new ≡ kept_of state.old }
{
    let ty = all_taken(alloc, first)?;
    let cell = typed(alloc, state, &ty);
    drop(ty);
    cell
}

// The type of a new array, as C has it.
fn array_type(alloc: Global, state: &mut Lowering, first: &Ty) -> Result<CTy, Memory>
    ensures cell { IfOk result (λ c. c ≡ typed_in (whole_of state.old) (array_of (type_of first.now))) }
    ensures kept { kept_of state.new ≡ kept_of state.old }
{
    let ty = array(alloc, first)?;
    let cell = typed(alloc, state, &ty);
    drop(ty);
    cell
}

// What makes a cell.
fn making(alloc: Global, name: Name) -> Result<CRhs, Memory>
    ensures { IfOk result (λ make. make ≡ made (operand whole_argument) name) }
{
    let allocator = Place::Held(Base::Argument, Items::new(alloc)).operand(alloc)?;
    Ok(CRhs::New(allocator, name))
}

// What makes an array of elements of a type.
fn creating(alloc: Global, first: &Ty) -> Result<CRhs, Memory>
    ensures { IfOk result (λ make. make ≡ called (array_call (word_of_type (type_of first.now)) (codes "create")) (map operand (field_of_argument 0 ∷ field_of_argument 1 ∷ []))) }
{
    let name = array_name(alloc, word_of(first), b"create")?;
    Ok(CRhs::Call(name, two_operands(alloc)?))
}

// A cell for a record of a type.
fn new(alloc: Global, state: &mut Lowering, args: &Items<Ty>, first: &Ty) -> Result<Code, Memory>
    requires { type_of first.now ≡ first_type (map type_of args.now) }
    ensures code { IfOk result (λ code. IsLow code (low_library (whole_of state.old) lib_of.New (map type_of args.now))) }
    ensures kept { kept_of state.new ≡ kept_of state.old }
{
    let name = record_name(alloc, state, first)?;
    let make = making(alloc, name)?;
    let cell = cell_type(alloc, state, first)?;
    let pair = given_type(alloc, state, Lib::New, args)?;
    let allocator = Place::Held(Base::Argument, Items::new(alloc));
    fresh(alloc, cell, pair, make, &allocator)
}

// An array of elements of a type.
fn create(alloc: Global, state: &mut Lowering, args: &Items<Ty>, first: &Ty) -> Result<Code, Memory>
    requires { type_of first.now ≡ first_type (map type_of args.now) }
    ensures code { IfOk result (λ code. IsLow code (low_library (whole_of state.old) lib_of.Create (map type_of args.now))) }
    ensures kept { kept_of state.new ≡ kept_of state.old }
{
    let allocator = argument_field(alloc, 0)?;
    let make = creating(alloc, first)?;
    let cell = array_type(alloc, state, first)?;
    let pair = given_type(alloc, state, Lib::Create, args)?;
    fresh(alloc, cell, pair, make, &allocator)
}

// What stands for a function of the library that takes a function.
fn nothing(alloc: Global) -> Code
    ensures { IsLow result (leaf (number 0)) }
{
    Code {
        value: Place::Number(0),
        locals: Items::new(alloc),
        stmts: Items::new(alloc),
    }
}

// A function of the library, whose first type argument is this one.
fn code_of(
    alloc: Global,
    state: &mut Lowering,
    lib: Lib,
    args: &Items<Ty>,
    first: &Ty,
) -> Result<Code, Memory>
    requires { type_of first.now ≡ first_type (map type_of args.now) }
    ensures code { IfOk result (λ code. IsLow code (low_library (whole_of state.old) lib (map type_of args.now))) }
    ensures kept { kept_of state.new ≡ kept_of state.old }
{
    match lib {
        Lib::New => new(alloc, state, args, first),
        Lib::Free => free(alloc),
        Lib::Create => create(alloc, state, args, first),
        Lib::FreeArray => free_array(alloc, first),
        Lib::Length => length_of(alloc, first),
        Lib::Get => get(alloc, first),
        Lib::Put => put(alloc, first),
        Lib::Map => Ok(nothing(alloc)),
        Lib::Fold => Ok(nothing(alloc)),
        Lib::Seq32 => Ok(nothing(alloc)),
        Lib::Seq64 => Ok(nothing(alloc)),
        Lib::Seq32Break => Ok(nothing(alloc)),
    }
}

// The same of the type arguments alone.
fn library_code(
    alloc: Global,
    state: &mut Lowering,
    lib: Lib,
    args: &Items<Ty>,
) -> Result<Code, Memory>
    ensures code { IfOk result (λ code. IsLow code (low_library (whole_of state.old) lib (map type_of args.now))) }
    ensures kept { kept_of state.new ≡ kept_of state.old }
{
    match args.get(0) {
        Some(first) => code_of(alloc, state, lib, args, first),
        None => code_of(alloc, state, lib, args, &Ty::Unit),
    }
}

// A body that returns its value.
fn returned(alloc: Global, code: Code) -> Result<CBody, Memory>
    ensures { (low : Low) → IsLow code low → IfOk result (λ b. body_in b ≡ body_of low) }
{
    let Code {
        value,
        locals,
        mut stmts,
    } = code;
    stmts.push(CStmt::Return(value.operand(alloc)?))?;
    Ok(CBody { locals, stmts })
}

/// The body of the C function of a library function at type arguments (docs/LANGUAGE.md, "The C of instances", library); of those that take
/// a function, one that returns 0. The one error is want of memory. What lowering knows of the whole stays as it is.
pub fn library_body(
    alloc: Global,
    state: &mut Lowering,
    lib: Lib,
    args: &Items<Ty>,
) -> Result<CBody, Memory>
    ensures body { IfOk result (λ b. body_in b ≡ body_of (low_library (whole_of state.old) lib (map type_of args.now))) }
    ensures kept { kept_of state.new ≡ kept_of state.old }
{
    let code = library_code(alloc, state, lib, args)?;
    returned(alloc, code)
}
