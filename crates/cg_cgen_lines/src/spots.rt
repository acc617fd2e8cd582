// Where statements of iterators read and write.
#![tactic(auto)]

ghost use Rattle.std.specs.Prelude.{◌≡◌, IfOk, map};
ghost use Rattle.cg_cgen_def.specs.Places.{operand as operand_of};
ghost use Rattle.cg_cgen_lines.specs.Lines.{place_at, target_at};

use crate::paths::{Base, Step, path};
use cg_base::{Items, Memory};
use cg_ctree::{COpnd, CPath};
use std::alloc::Global;

/// A number, a field of the argument, a local, a field of a local, and the tag and a payload of a local's field 1.
#[derive(Clone, Copy)]
pub enum Spot {
    Number(u64),
    Given(usize),
    Local(usize),
    Field(usize, usize),
    Tag(usize),
    Payload(usize, usize),
}

// The path to it; to a number there is none, and it is that to the argument.
pub(crate) fn target(alloc: Global, spot: Spot) -> Result<CPath, Memory>
    ensures { IfOk result (λ p. p ≡ target_at spot) }
{
    match spot {
        Spot::Number(_) => path(alloc, Base::Argument, &[]),
        Spot::Given(at) => path(alloc, Base::Argument, &[Step::Field(at)]),
        Spot::Local(at) => path(alloc, Base::Local(at), &[]),
        Spot::Field(local, at) => path(alloc, Base::Local(local), &[Step::Field(at)]),
        Spot::Tag(local) => path(alloc, Base::Local(local), &[Step::Field(1), Step::Tag]),
        Spot::Payload(local, at) => path(
            alloc,
            Base::Local(local),
            &[Step::Field(1), Step::Payload(at)],
        ),
    }
}

/// The operand that reads it. The one error is want of memory.
pub fn operand(alloc: Global, spot: Spot) -> Result<COpnd, Memory>
    ensures { IfOk result (λ o. o ≡ operand_of (place_at spot)) }
{
    match spot {
        Spot::Number(number) => Ok(COpnd::Number(number)),
        Spot::Given(_) | Spot::Local(_) | Spot::Field(_, _) | Spot::Tag(_) | Spot::Payload(_, _) =>
            Ok(COpnd::Path(target(alloc, spot)?)),
    }
}

// The operands that read some.
pub(crate) fn operands(alloc: Global, spots: &[Spot]) -> Result<Items<COpnd>, Memory>
    ensures { IfOk result (λ os. os ≡ map operand_of (map place_at spots.now)) }
{
    let mut operands = Items::new(alloc);
    for spot in spots {
        operands.push(operand(alloc, *spot)?)?;
    }
    Ok(operands)
}
