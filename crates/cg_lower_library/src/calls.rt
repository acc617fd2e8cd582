// Functions of the library that call a built-in.
#![tactic(auto, using(crate::proofs::CodeSteps::code_steps))]

ghost use Rattle.std.specs.Prelude.{◌≡◌, [], ◌∷◌, IfOk, codes, map};
ghost use Rattle.cg_base.specs.declared.kind.Word.TheVariants.{U32 as word_32};
ghost use Rattle.cg_base.specs.Types.{type_of};
ghost use Rattle.cg_cmachine_def.specs.BuiltIns.{array_call};
ghost use Rattle.cg_ctree.specs.declared.tree.CRhs.TheVariants.{Call as call_of};
ghost use Rattle.cg_ctree.specs.declared.tree.CTy.TheVariants.{Word as word_type};
ghost use Rattle.cg_ctree.specs.Trees.{assign as assign_of, call};
ghost use Rattle.cg_cgen_def.specs.Places.{field_of_argument, whole_argument, held, local, path as path_of};
ghost use Rattle.cg_lower_def.specs.LibraryCode.{done_by_call, given_by_call};
ghost use Rattle.cg_lower_def.specs.Lowered.{word_of as word_of_type};
ghost use Rattle.cg_lower_library.specs.Codes.{IsLow};

use crate::code::{Code, argument_field, push_local, three_operands, two_operands, whole_operands};
use cg_base::{Items, Memory, Name, Ty, Word};
use cg_cgen_lines::{Base, array_name};
use cg_ctree::{COpnd, CRhs, CStmt, CTy};
use cg_lower_nodes::{Place, assign, word_of};
use std::alloc::Global;

// A call that gives a word.
fn given(alloc: Global, word: Word, name: Name, operands: Items<COpnd>) -> Result<Code, Memory>
    ensures { IfOk result (λ code. IsLow code (record { value = held (local 0) []; locals = word_type word ∷ []; code = assign_of (path_of (local 0) []) (call_of name operands) ∷ [] })) }
{
    let mut locals = Items::new(alloc);
    let mut stmts = Items::new(alloc);
    assign(alloc, &mut stmts, 0, &[], CRhs::Call(name, operands))?;
    push_local(alloc, &mut locals, CTy::Word(word))?;
    Ok(Code {
        value: Place::Held(Base::Local(0), Items::new(alloc)),
        locals,
        stmts,
    })
}

// A call that gives the first field of the argument back.
fn done(alloc: Global, name: Name, operands: Items<COpnd>) -> Result<Code, Memory>
    ensures { IfOk result (λ code. IsLow code (record { value = field_of_argument 0; locals = []; code = call name operands ∷ [] })) }
{
    let mut stmts = Items::new(alloc);
    stmts.push(CStmt::Call(name, operands))?;
    Ok(Code {
        value: argument_field(alloc, 0)?,
        locals: Items::new(alloc),
        stmts,
    })
}

// A cell is given back.
pub(crate) fn free(alloc: Global) -> Result<Code, Memory>
    ensures { IfOk result (λ code. IsLow code (record { value = field_of_argument 0; locals = []; code = done_by_call (codes "cg_free") (field_of_argument 0 ∷ field_of_argument 1 ∷ []) })) }
{
    let name = Name::new(alloc, b"cg_free")?;
    let operands = two_operands(alloc)?;
    done(alloc, name, operands)
}

// An array of elements of a type is given back.
pub(crate) fn free_array(alloc: Global, element: &Ty) -> Result<Code, Memory>
    ensures { IfOk result (λ code. IsLow code (record { value = field_of_argument 0; locals = []; code = done_by_call (array_call (word_of_type (type_of element.now)) (codes "free")) (field_of_argument 0 ∷ field_of_argument 1 ∷ []) })) }
{
    let name = array_name(alloc, word_of(element), b"free")?;
    let operands = two_operands(alloc)?;
    done(alloc, name, operands)
}

// An element of an array is set.
pub(crate) fn put(alloc: Global, element: &Ty) -> Result<Code, Memory>
    ensures { IfOk result (λ code. IsLow code (record { value = field_of_argument 0; locals = []; code = done_by_call (array_call (word_of_type (type_of element.now)) (codes "put")) (field_of_argument 0 ∷ field_of_argument 1 ∷ field_of_argument 2 ∷ []) })) }
{
    let name = array_name(alloc, word_of(element), b"put")?;
    let operands = three_operands(alloc)?;
    done(alloc, name, operands)
}

// The length of an array.
pub(crate) fn length_of(alloc: Global, element: &Ty) -> Result<Code, Memory>
    ensures { IfOk result (λ code. IsLow code (record { value = held (local 0) []; locals = word_type word_32 ∷ []; code = given_by_call (array_call (word_of_type (type_of element.now)) (codes "length")) (whole_argument ∷ []) })) }
{
    let name = array_name(alloc, word_of(element), b"length")?;
    let operands = whole_operands(alloc)?;
    given(alloc, Word::U32, name, operands)
}

// An element of an array.
pub(crate) fn get(alloc: Global, element: &Ty) -> Result<Code, Memory>
    ensures { IfOk result (λ code. IsLow code (record { value = held (local 0) []; locals = word_type (word_of_type (type_of element.now)) ∷ []; code = given_by_call (array_call (word_of_type (type_of element.now)) (codes "get")) (field_of_argument 0 ∷ field_of_argument 1 ∷ []) })) }
{
    let name = array_name(alloc, word_of(element), b"get")?;
    let operands = two_operands(alloc)?;
    given(alloc, word_of(element), name, operands)
}
