// Equality of types.
ghost use Rattle.std.specs.Prelude.{◌≡◌, ◌↔◌, map, IsTrue};
ghost use Rattle.cg_base.specs.Types.{type_of, part_of};

use cg_base::{Items, Part, Ty};

/// Whether two types are the same, with their names, sigils and taken marks (docs/LANGUAGE.md, "Types"). It takes
/// no memory.
#[cycle(same)]
pub fn same(a: &Ty, b: &Ty) -> bool
    ensures { IsTrue result ↔ (type_of a.now ≡ type_of b.now) }
{
    match a {
        Ty::Var(first) => matches!(b, Ty::Var(second) if *first == *second),
        Ty::Seen(first) => matches!(b, Ty::Seen(second) if *first == *second),
        Ty::Unit => matches!(b, Ty::Unit),
        Ty::Word(first) => matches!(b, Ty::Word(second) if *first == *second),
        Ty::Bool => matches!(b, Ty::Bool),
        Ty::Arrow(from, to) => match b {
            Ty::Arrow(other_from, other_to) => same(from, other_from) && same(to, other_to),
            _ => false,
        },
        Ty::Abs(name, args, sigil) => match b {
            Ty::Abs(other_name, other_args, other_sigil) => {
                *sigil == *other_sigil && name.same(other_name) && same_types(args, other_args)
            }
            _ => false,
        },
        Ty::Variant(parts) => match b {
            Ty::Variant(other_parts) => same_parts(parts, other_parts),
            _ => false,
        },
        Ty::Fields(parts, sigil) => match b {
            Ty::Fields(other_parts, other_sigil) => {
                *sigil == *other_sigil && same_parts(parts, other_parts)
            }
            _ => false,
        },
    }
}

/// Whether two lists of types are the same, type by type. It takes no memory.
#[cycle(same)]
pub fn same_types(a: &Items<Ty>, b: &Items<Ty>) -> bool
    ensures { IsTrue result ↔ (map type_of a.now ≡ map type_of b.now) }
{
    let xs = a.as_slice();
    let ys = b.as_slice();
    if xs.len() != ys.len() {
        return false;
    }
    for i in 0..xs.len() {
        if !same(&xs[i], &ys[i]) {
            return false;
        }
    }
    true
}

#[cycle(same)]
fn same_parts(a: &Items<Part>, b: &Items<Part>) -> bool
    ensures { IsTrue result ↔ (map part_of a.now ≡ map part_of b.now) }
{
    let xs = a.as_slice();
    let ys = b.as_slice();
    if xs.len() != ys.len() {
        return false;
    }
    for i in 0..xs.len() {
        if !same_part(&xs[i], &ys[i]) {
            return false;
        }
    }
    true
}

#[cycle(same)]
fn same_part(a: &Part, b: &Part) -> bool
    ensures { IsTrue result ↔ (part_of a.now ≡ part_of b.now) }
{
    a.taken == b.taken && a.name.same(&b.name) && same(&a.ty, &b.ty)
}
