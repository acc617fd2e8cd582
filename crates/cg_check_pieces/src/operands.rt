// Operands of an operator, and values that are kept while something may fail.
ghost use Rattle.std.specs.Prelude.{◌≡◌, [], ◌∷◌, IfOk, Ok};

use cg_base::{Items, Memory};
use cg_core::{Term, Typed};
use std::alloc::Global;

/// A value that is kept while something else is made, and let go where that fails.
pub fn kept_while<T: Drop, U>(value: T, made: Result<U, Memory>) -> Result<(T, U), Memory>
    ensures value { IfOk result (λ both. both.0 ≡ value) }
    ensures made { IfOk result (λ both. made ≡ Ok both.1) }
{
    match made {
        Ok(made) => Ok((value, made)),
        Err(memory) => Err(memory),
    }
}

/// A list of one operand. Want of memory is its one refusal.
pub fn one_operand(alloc: Global, first: Box<Term<Typed>>) -> Result<Items<Term<Typed>>, Memory>
    ensures { IfOk result (λ operands. operands ≡ first.value ∷ []) }
{
    let mut operands = Items::new(alloc);
    operands.push(Box::into_inner(first))?;
    Ok(operands)
}

/// A list of two operands. Want of memory is its one refusal.
pub fn two_operands(
    alloc: Global,
    first: Box<Term<Typed>>,
    second: Box<Term<Typed>>,
) -> Result<Items<Term<Typed>>, Memory>
    ensures { IfOk result (λ operands. operands ≡ first.value ∷ second.value ∷ []) }
{
    let mut operands = one_operand(alloc, first)?;
    operands.push(Box::into_inner(second))?;
    Ok(operands)
}
