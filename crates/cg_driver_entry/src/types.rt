// What types hold: function types and users' abstract types.
#![tactic(auto)]

ghost use Rattle.std.specs.Prelude.{◌≡◌, map};
ghost use Rattle.cg_base.specs.Types.{type_of, part_of, to_taus, to_parts};
ghost use Rattle.cg_driver_entry.specs.Types.{is_users as is_users_of, holds_closed as holds_closed_of, have_closed, parts_hold_closed, is_first_order as is_first_order_of};

use cg_base::{Items, Name, Part, Ty};

// Whether an abstract type of this name is a user's.
fn is_users(name: &Name) -> bool
    ensures { result ≡ is_users_of name.now }
{
    name.bytes() != b"WordArray".as_slice() && name.bytes() != b"SysState".as_slice()
}

// Whether a type holds a function type or a user's abstract type.
#[cycle(closed)]
fn holds_closed(ty: &Ty) -> bool
    ensures { result ≡ holds_closed_of (type_of ty.now) }
{
    match ty {
        Ty::Arrow(_, _) => true,
        Ty::Abs(name, args, _) => is_users(name) || any_closed(args),
        Ty::Variant(parts) => any_part_closed(parts),
        Ty::Fields(parts, _) => any_part_closed(parts),
        _ => false,
    }
}

// Whether one of these types does.
#[tactic(auto, using(crate::proofs::TypeSteps::closed_steps))]
#[cycle(closed)]
fn any_closed(types: &Items<Ty>) -> bool
    ensures { result ≡ have_closed (to_taus (map type_of types.now)) }
{
    for ty in types.as_slice() {
        if holds_closed(ty) {
            return true;
        }
    }
    false
}

// Whether the type of one of these parts does.
#[tactic(auto, using(crate::proofs::TypeSteps::part_closed_steps))]
#[cycle(closed)]
fn any_part_closed(parts: &Items<Part>) -> bool
    ensures { result ≡ parts_hold_closed (to_parts (map part_of parts.now)) }
{
    for part in parts.as_slice() {
        if holds_closed(&part.ty) {
            return true;
        }
    }
    false
}

/// Whether a type is a function type that takes and gives what holds neither function types nor users' abstract types (docs/LANGUAGE.md,
/// "Entries"). It takes no memory.
pub fn is_first_order(ty: &Ty) -> bool
    ensures { result ≡ is_first_order_of (type_of ty.now) }
{
    match ty {
        Ty::Arrow(from, to) => !holds_closed(from) && !holds_closed(to),
        _ => false,
    }
}
