// How many scalars types have.
#![tactic(auto, unfolding(crate::specs::Reps::slots))]

ghost use Rattle.std.specs.Prelude.{◌≡◌, ◌≤◌, map};
ghost use Rattle.cg_base.specs.Types.{type_of, part_of, to_parts};
ghost use Rattle.cg_typing.specs.Parts.{nodes, nodes_parts};
ghost use Rattle.cg_heap.specs.Reps.{slots as slots_of_type, slots_of_parts as slots_of_all};

use cg_base::{Items, Part, Sigil, Ty};

/// How many scalars a value of this type has, 1 for a type variable (docs/LANGUAGE.md, "Layout"). The type has no more
/// than 1,024 nodes, so there are no more scalars than that. It takes no memory.
#[cycle(slots)]
pub fn slots(ty: &Ty) -> u32
    requires { nodes (type_of ty.now) ≤ 1024 }
    ensures { result ≡ slots_of_type (type_of ty.now) }
{
    match ty {
        Ty::Variant(parts) => slots_of_parts(parts) + 1,
        Ty::Fields(parts, Sigil::U) => slots_of_parts(parts),
        _ => 1,
    }
}

/// How many scalars the types of these parts have together. They have no more than 1,024 nodes. It takes no memory.
#[cycle(slots)]
pub fn slots_of_parts(parts: &Items<Part>) -> u32
    requires { nodes_parts (to_parts (map part_of parts.now)) ≤ 1024 }
    ensures exact { result ≡ slots_of_all (to_parts (map part_of parts.now)) }
    ensures small { result ≤ 1024 }
{
    let mut total: u32 = 0;
    for part in parts.as_slice() {
        total += slots(&part.ty);
    }
    total
}
