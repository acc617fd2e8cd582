// How large a type is with arguments of some sizes for its variables.
#![tactic(auto, using(std::proofs::lemmas::Grind::common_steps, crate::proofs::WeighSteps::weigh_steps), unfolding(crate::specs::Sizes::weighed))]

ghost use Rattle.std.specs.Prelude.{◌≡◌, map, slice_get};
ghost use Rattle.cg_base.specs.Types.{type_of, part_of, to_taus, to_parts};
ghost use Rattle.cg_resolve_written.specs.Capped.{capped};
ghost use Rattle.cg_resolve_written.specs.Sizes.{weighed, weighed_all, weighed_parts, or_one};

use cg_base::{Items, Part, Ty};

/// How many nodes a type has with arguments of these sizes for its variables, by position; a `u32`'s most where there are
/// more. It takes no memory.
#[cycle(weigh)]
pub(crate) fn weigh(ty: &Ty, sizes: &[u32]) -> u32
    ensures { result ≡ capped (weighed sizes.now (type_of ty.now)) }
{
    match ty {
        Ty::Var(variable) => size_of_argument(sizes, *variable),
        Ty::Seen(variable) => size_of_argument(sizes, *variable),
        Ty::Unit => 1,
        Ty::Word(_word) => 1,
        Ty::Bool => 1,
        Ty::Arrow(from, to) => weigh(from, sizes)
            .saturating_add(weigh(to, sizes))
            .saturating_add(1),
        Ty::Abs(_name, types, _sigil) => weigh_types(types, sizes).saturating_add(1),
        Ty::Variant(parts) => weigh_parts(parts, sizes).saturating_add(1),
        Ty::Fields(parts, _sigil) => weigh_parts(parts, sizes).saturating_add(1),
    }
}

// The size of the argument for a variable, or 1 where there is none.
fn size_of_argument(sizes: &[u32], variable: u32) -> u32
    ensures { result ≡ capped (or_one (slice_get sizes.now variable)) }
{
    match sizes.get(variable as usize) {
        Some(size) => *size,
        None => 1,
    }
}

#[cycle(weigh)]
fn weigh_types(types: &Items<Ty>, sizes: &[u32]) -> u32
    ensures { result ≡ capped (weighed_all sizes.now (to_taus (map type_of types.now))) }
{
    let mut total = 0u32;
    for ty in types.as_slice() {
        total = total.saturating_add(weigh(ty, sizes));
    }
    total
}

#[cycle(weigh)]
fn weigh_parts(parts: &Items<Part>, sizes: &[u32]) -> u32
    ensures { result ≡ capped (weighed_parts sizes.now (to_parts (map part_of parts.now))) }
{
    let mut total = 0u32;
    for part in parts.as_slice() {
        total = total.saturating_add(weigh(&part.ty, sizes));
    }
    total
}
