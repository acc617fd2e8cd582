// What is made of a function of the library, and its parts.
#![tactic(auto, using(crate::proofs::CodeSteps::code_steps))]

ghost use Rattle.std.specs.Prelude.{◌≡◌, ◌++◌, [], ◌∷◌, IfOk, OnOk, length, map};
ghost use Rattle.cg_ctree.specs.Trees.{stmt_of};
ghost use Rattle.cg_cgen_def.specs.Places.{field_of_argument, whole_argument, local_name, operand};
ghost use Rattle.cg_cgen_def.specs.Bodies.{setting};
ghost use Rattle.cg_cgen_def.specs.Names.{declared};
ghost use Rattle.cg_cgen_lines.specs.Views.{step_of};
ghost use Rattle.cg_lower_nodes.specs.Views.{place_of};

use cg_base::{Items, Memory};
use cg_cgen_lines::{Base, Step, numbered};
use cg_ctree::{CDecl, COpnd, CRhs, CStmt, CTy};
use cg_lower_nodes::{Place, assign};
use std::alloc::Global;

// Where the value of a body is kept, its locals, and its statements.
#[derive(Drop)]
pub(crate) struct Code {
    pub(crate) value: Place,
    pub(crate) locals: Items<CDecl>,
    pub(crate) stmts: Items<CStmt>,
}

// A field of the argument.
pub(crate) fn argument_field(alloc: Global, at: usize) -> Result<Place, Memory>
    ensures { IfOk result (λ place. place_of place ≡ field_of_argument at) }
{
    Place::Held(Base::Argument, Items::new(alloc)).at(Step::Field(at))
}

// One operand more, a field of the argument.
fn push_field(alloc: Global, operands: &mut Items<COpnd>, at: usize) -> Result<(), Memory>
    ensures { OnOk result (operands.new ≡ operands.old ++ operand (field_of_argument at) ∷ []) }
{
    operands.push(argument_field(alloc, at)?.operand(alloc)?)
}

// The argument as the one operand.
pub(crate) fn whole_operands(alloc: Global) -> Result<Items<COpnd>, Memory>
    ensures { IfOk result (λ os. os ≡ operand whole_argument ∷ []) }
{
    let mut operands = Items::new(alloc);
    operands.push(Place::Held(Base::Argument, Items::new(alloc)).operand(alloc)?)?;
    Ok(operands)
}

// The first two fields of the argument.
pub(crate) fn two_operands(alloc: Global) -> Result<Items<COpnd>, Memory>
    ensures { IfOk result (λ os. os ≡ operand (field_of_argument 0) ∷ operand (field_of_argument 1) ∷ []) }
{
    let mut operands = Items::new(alloc);
    push_field(alloc, &mut operands, 0)?;
    push_field(alloc, &mut operands, 1)?;
    Ok(operands)
}

// The first three fields of the argument.
pub(crate) fn three_operands(alloc: Global) -> Result<Items<COpnd>, Memory>
    ensures { IfOk result (λ os. os ≡ operand (field_of_argument 0) ∷ operand (field_of_argument 1) ∷ operand (field_of_argument 2) ∷ []) }
{
    let mut operands = two_operands(alloc)?;
    push_field(alloc, &mut operands, 2)?;
    Ok(operands)
}

// One local more, of a type of C.
pub(crate) fn push_local(alloc: Global, locals: &mut Items<CDecl>, ty: CTy) -> Result<(), Memory>
    ensures { OnOk result (locals.new ≡ locals.old ++ declared ty (local_name (length locals.old)) ∷ []) }
{
    let name = numbered(alloc, b'x', locals.len())?;
    locals.push(CDecl { ty, name })
}

// Sets a part of a local to the value at a place.
pub(crate) fn set(
    alloc: Global,
    stmts: &mut Items<CStmt>,
    to: usize,
    steps: &[Step],
    value: &Place,
) -> Result<(), Memory>
    ensures { OnOk result (map stmt_of stmts.new ≡ map stmt_of stmts.old ++ setting to (map step_of steps.now) (place_of value.now) ∷ []) }
{
    let value = value.operand(alloc)?;
    assign(alloc, stmts, to, steps, CRhs::Opnd(value))
}
