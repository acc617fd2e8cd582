// The scalars of arguments and results.
#![tactic(auto, using(crate::proofs::Places::place_steps))]

ghost use Rattle.std.specs.Prelude.{◌≡◌, [], ◌∷◌, IfOk, get_or};
ghost use Rattle.cg_heap.specs.declared.cell.Scalar.TheVariants as scalar;
ghost use Rattle.cg_heap.specs.Reps.{address_of, first_address as first_address_of, number_of};
ghost use Rattle.cg_lib_heap.specs.Library.{second, third};

use cg_base::{Items, Memory};
use cg_heap::Scalar;
use std::alloc::Global;

// The scalar at a place; `Unset`, where there is none.
fn scalar_at(scalars: &Items<Scalar>, at: usize) -> Scalar
    ensures { result ≡ get_or scalars.now at scalar.Unset }
{
    let scalars = scalars.as_slice();
    if at < scalars.len() {
        scalars[at]
    } else {
        Scalar::Unset
    }
}

/// The address that comes first; 0, where there is none.
pub(crate) fn first_address(scalars: &Items<Scalar>) -> u64
    ensures { result ≡ first_address_of scalars.now }
{
    scalar_at(scalars, 0).address()
}

/// The address that comes second; 0, where there is none.
pub(crate) fn second_address(scalars: &Items<Scalar>) -> u64
    ensures { result ≡ address_of (second scalars.now) }
{
    scalar_at(scalars, 1).address()
}

/// The number that comes second; 0, where there is none.
pub(crate) fn second_number(scalars: &Items<Scalar>) -> u64
    ensures { result ≡ number_of (second scalars.now) }
{
    scalar_at(scalars, 1).number()
}

/// The number that comes third; 0, where there is none.
pub(crate) fn third_number(scalars: &Items<Scalar>) -> u64
    ensures { result ≡ number_of (third scalars.now) }
{
    scalar_at(scalars, 2).number()
}

/// One scalar alone. Want of memory is its one refusal.
pub(crate) fn alone(alloc: Global, scalar: Scalar) -> Result<Items<Scalar>, Memory>
    ensures { IfOk result (λ us. us ≡ scalar ∷ []) }
{
    let mut scalars = Items::new(alloc);
    scalars.push(scalar)?;
    Ok(scalars)
}

/// Four scalars, in this order. Want of memory is its one refusal.
pub(crate) fn four(
    alloc: Global,
    first: Scalar,
    second: Scalar,
    third: Scalar,
    fourth: Scalar,
) -> Result<Items<Scalar>, Memory>
    ensures { IfOk result (λ us. us ≡ first ∷ second ∷ third ∷ fourth ∷ []) }
{
    let mut scalars = alone(alloc, first)?;
    scalars.push(second)?;
    scalars.push(third)?;
    scalars.push(fourth)?;
    Ok(scalars)
}
