// The addresses that values reach.
#![tactic(auto, unfolding(crate::specs::Addresses::reached, cg_base::specs::Types::to_parts), using(crate::proofs::ReachSteps::reach_steps))]

ghost use Rattle.std.specs.Prelude.{◌≡◌, ◌++◌, ℕ, cond, [], map, take, IfOk, OnOk};
ghost use Rattle.cg_base.specs.Types.{part_of, to_parts, type_of};
ghost use Rattle.cg_heap.specs.Addresses as addresses;
ghost use Rattle.cg_heap.specs.Addresses.{own, reached_all};
ghost use Rattle.cg_heap.specs.Reps as reps;
ghost use Rattle.cg_heap.specs.Reps.{foot, slots, slots_in};
ghost use Rattle.cg_heap.specs.Steps.{count};
ghost use Rattle.cg_heap.specs.Stored.{cell_at};

use crate::contents::{behind_first, first_address, first_number, slots_at};
use crate::part::{behind, front};
use crate::{Scalar, Store};
use cg_base::{Items, Memory, Part, Sigil, Ty};
use std::alloc::Global;

/// The addresses that scalars reach in a store at a type and a sigil, each as often as it is reached (docs/LANGUAGE.md, "Layout"); none at
/// the sigil `U`. The one error is want of memory.
pub fn reached<S: Store>(
    alloc: Global,
    store: &S,
    ty: &Ty,
    scalars: &Items<Scalar>,
    sigil: Sigil,
) -> Result<Items<u64>, Memory>
    ensures { IfOk result (λ ps. (q : ℕ) → count q ps ≡ foot (λ p. cell_at (S.stored store.now) p) sigil (type_of ty.now) scalars.now q) }
{
    let mut found = Items::new(alloc);
    add(alloc, store, ty, scalars.as_slice(), sigil, &mut found)?;
    Ok(found)
}

// Adds the addresses that scalars reach.
#[cycle(add)]
fn add<S: Store>(
    alloc: Global,
    store: &S,
    ty: &Ty,
    scalars: &[Scalar],
    sigil: Sigil,
    found: &mut Items<u64>,
) -> Result<(), Memory>
    ensures { OnOk result (found.new ≡ found.old ++ addresses.reached (λ q. cell_at (S.stored store.now) q) sigil (type_of ty.now) scalars.now) }
{
    match ty {
        Ty::Abs(_, _, boxed) => add_own(sigil, *boxed, first_address(scalars), found),
        Ty::Variant(alternatives) => {
            add_chosen(alloc, store, alternatives.as_slice(), scalars, sigil, found)
        }
        Ty::Fields(parts, Sigil::U) => {
            add_all(alloc, store, parts.as_slice(), scalars, sigil, found)
        }
        Ty::Fields(parts, boxed) => {
            let at = first_address(scalars);
            add_own(sigil, *boxed, at, found)?;
            add_boxed(alloc, store, parts.as_slice(), at, sigil, found)
        }
        _ => Ok(()),
    }
}

// Adds the address of a cell, where the sigil is this one.
fn add_own(sigil: Sigil, boxed: Sigil, at: u64, found: &mut Items<u64>) -> Result<(), Memory>
    ensures { OnOk result (found.new ≡ found.old ++ own sigil boxed at) }
{
    match (sigil, boxed) {
        (Sigil::R, Sigil::R) => found.push(at),
        (Sigil::W, Sigil::W) => found.push(at),
        _ => Ok(()),
    }
}

// Adds what a boxed record of these fields reaches, which stands at an address.
#[cycle(add)]
fn add_boxed<S: Store>(
    alloc: Global,
    store: &S,
    parts: &[Part],
    at: u64,
    sigil: Sigil,
    found: &mut Items<u64>,
) -> Result<(), Memory>
    ensures { OnOk result (found.new ≡ found.old ++ reached_all (λ q. cell_at (S.stored store.now) q) sigil (to_parts (map part_of parts.now)) (slots_in (cell_at (S.stored store.now) at))) }
{
    let slots = slots_at(alloc, store, at)?;
    add_all(alloc, store, parts, slots.as_slice(), sigil, found)
}

// Adds what fields reach, which stand one behind the other.
#[cycle(add)]
fn add_all<S: Store>(
    alloc: Global,
    store: &S,
    parts: &[Part],
    scalars: &[Scalar],
    sigil: Sigil,
    found: &mut Items<u64>,
) -> Result<(), Memory>
    ensures { OnOk result (found.new ≡ found.old ++ reached_all (λ q. cell_at (S.stored store.now) q) sigil (to_parts (map part_of parts.now)) scalars.now) }
{
    let mut rest = scalars;
    for part in parts {
        add_part(alloc, store, part, rest, sigil, found)?;
        rest = behind(&part.ty, rest);
    }
    Ok(())
}

// Adds what the first of these scalars reach, which are those of a field; one that is taken reaches nothing.
#[cycle(add)]
fn add_part<S: Store>(
    alloc: Global,
    store: &S,
    part: &Part,
    scalars: &[Scalar],
    sigil: Sigil,
    found: &mut Items<u64>,
) -> Result<(), Memory>
    ensures { OnOk result (found.new ≡ found.old ++ cond part.now.taken [] (addresses.reached (λ q. cell_at (S.stored store.now) q) sigil (type_of part.now.ty) (take (slots (type_of part.now.ty)) scalars.now))) }
{
    if part.taken {
        return Ok(());
    }
    let front = front(&part.ty, scalars);
    add(alloc, store, &part.ty, front, sigil, found)
}

// Adds what the payload of a variant of these alternatives reaches.
#[cycle(add)]
fn add_chosen<S: Store>(
    alloc: Global,
    store: &S,
    alternatives: &[Part],
    scalars: &[Scalar],
    sigil: Sigil,
    found: &mut Items<u64>,
) -> Result<(), Memory>
    ensures { OnOk result (found.new ≡ found.old ++ addresses.reached_at (λ q. cell_at (S.stored store.now) q) sigil (to_parts (map part_of alternatives.now)) (reps.first_number scalars.now) (reps.tail scalars.now)) }
{
    let mut rest = behind_first(scalars);
    let mut left = first_number(scalars);
    for alternative in alternatives {
        if left == 0 {
            return add_part(alloc, store, alternative, rest, sigil, found);
        }
        left -= 1;
        rest = behind(&alternative.ty, rest);
    }
    Ok(())
}
