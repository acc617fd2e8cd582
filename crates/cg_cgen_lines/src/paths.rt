// Paths to parts of variables.
#![tactic(auto)]

ghost use Rattle.std.specs.Prelude.{◌≡◌, IfOk, map};
ghost use Rattle.cg_cgen_def.specs.Places as places;
ghost use Rattle.cg_cgen_lines.specs.Views.{base_of, step_of};

use crate::names::numbered;
use cg_base::{Items, Memory, Name};
use cg_ctree::CPath;
use std::alloc::Global;

/// A part of a value: a field of a record, the tag of a variant, or one of its payloads.
#[derive(Clone, Copy)]
pub enum Step {
    Field(usize),
    Tag,
    Payload(usize),
}

/// A variable: the function's argument, or a local.
#[derive(Clone, Copy)]
pub enum Base {
    Argument,
    Local(usize),
}

// The name of a member.
fn member(alloc: Global, step: Step) -> Result<Name, Memory>
    ensures { IfOk result (λ x. x ≡ places.step_name (step_of step)) }
{
    match step {
        Step::Field(at) => numbered(alloc, b'm', at),
        Step::Tag => Name::new(alloc, b"t"),
        Step::Payload(at) => numbered(alloc, b'a', at),
    }
}

// The name of a variable.
fn variable(alloc: Global, base: Base) -> Result<Name, Memory>
    ensures { IfOk result (λ x. x ≡ places.base_name (base_of base)) }
{
    match base {
        Base::Argument => numbered(alloc, b'a', 0),
        Base::Local(at) => numbered(alloc, b'x', at),
    }
}

// The names of members.
fn members(alloc: Global, steps: &[Step]) -> Result<Items<Name>, Memory>
    ensures { IfOk result (λ xs. xs ≡ map places.step_name (map step_of steps.now)) }
{
    let mut names = Items::new(alloc);
    for step in steps {
        names.push(member(alloc, *step)?)?;
    }
    Ok(names)
}

/// The path to a part of a variable. The one error is want of memory, here and in what stands below.
pub fn path(alloc: Global, base: Base, steps: &[Step]) -> Result<CPath, Memory>
    ensures { IfOk result (λ p. p ≡ places.path (base_of base) (map step_of steps.now)) }
{
    Ok(CPath {
        base: variable(alloc, base)?,
        arrow: false,
        members: members(alloc, steps)?,
    })
}

/// The path to a part of the cell that a variable points to.
pub fn arrow_path(alloc: Global, base: Base, steps: &[Step]) -> Result<CPath, Memory>
    ensures { IfOk result (λ p. p ≡ places.arrow_path (base_of base) (map step_of steps.now)) }
{
    Ok(CPath {
        base: variable(alloc, base)?,
        arrow: true,
        members: members(alloc, steps)?,
    })
}
