// Whether an assignment of a pointer can be done, before it is.
#![tactic(auto, using(crate::proofs::Rooms::room_steps))]

ghost use Rattle.std.specs.Prelude.{◌≡◌, ℕ, ◌+◌, ◌<◌, ◌^◌, [], ◌∷◌, Some};
ghost use Rattle.cg_cmachine_layout.specs.Kinds.{layout_of};
ghost use Rattle.cg_cmachine_def.specs.Layouts.{pointer};
ghost use Rattle.cg_cmachine_def.specs.Operands.{give, typed};
ghost use Rattle.cg_cmachine_values.specs.Values.{write_behind, write_place};
ghost use Rattle.cg_cmachine_builtins.specs.Acts.{refusal as refusal_of, room_of, with_made};
ghost use Rattle.cg_heap.specs.declared.cell.Scalar.TheVariants.{Address};
ghost use Rattle.cg_heap.specs.Stored.{Stored, cell_at, fresh_cell};

use cg_cmachine_layout::{Kind, Part};
use cg_cmachine_values::{Place, has_room};
use cg_ctree::Why;
use cg_heap::{Form, Fresh, Scalar, Store};

/// What an assignment to a part of a cell asks of the cell.
#[derive(Clone, Copy)]
pub(crate) enum Room {
    /// There is no cell.
    Absent,
    /// It has no slots.
    Closed,
    /// It has so many slots.
    Slots(u32),
}

/// What stands at an address of a store in which a cell will be made, if one will.
fn room_at<S: Store>(store: &S, fresh: Option<Fresh>, address: u64) -> Room
    requires { (S.stored store.now).top < 2 ^ 63 }
    ensures { result ≡ room_of (cell_at (with_made fresh (S.stored store.now)) address) }
{
    match fresh {
        None => room_now(store, address),
        Some(fresh) => {
            if address == store.top() + 1 {
                room_in(fresh)
            } else {
                room_now(store, address)
            }
        }
    }
}

/// What stands in a cell to be made.
fn room_in(fresh: Fresh) -> Room
    ensures { result ≡ room_of (Some (fresh_cell fresh)) }
{
    match fresh {
        Fresh::Slots(count) => Room::Slots(count),
        Fresh::Words(_) => Room::Closed,
    }
}

/// What stands at an address.
fn room_now<S: Store>(store: &S, address: u64) -> Room
    ensures { result ≡ room_of (cell_at (S.stored store.now) address) }
{
    match (store.form(address), store.len(address)) {
        (Some(Form::Slots), Some(count)) => Room::Slots(count),
        (Some(_), _) => Room::Closed,
        _ => Room::Absent,
    }
}

/// Why a pointer to a struct is no value of a type; None where it is one.
fn refused_as(kind: Kind<'_>, name: &[u8]) -> Option<Why>
    ensures { (p : ℕ) → result ≡ refusal_of (give (layout_of kind.entry) (typed (pointer name.now) (Address p ∷ []))) }
{
    match kind {
        Kind::Pointer(other) if other.bytes() == name => None,
        _ => Some(Why::KindsDiffer),
    }
}

/// Why a pointer to a struct can't be assigned to a part of a cell; None where it can.
fn refused_in(room: Room, part: Option<Part<'_>>, name: &[u8]) -> Option<Why>
    ensures { (m : Stored) (at p : ℕ) → room ≡ room_of (cell_at m at) → result ≡ refusal_of (write_behind m at part.entry (typed (pointer name.now) (Address p ∷ []))) }
{
    match (room, part) {
        (Room::Absent, _) => Some(Why::NoCell),
        (_, None) => Some(Why::KindsDiffer),
        (Room::Slots(count), Some(part)) if has_room(count, part.start, part.kind.size()) =>
            refused_as(part.kind, name),
        _ => Some(Why::NoCell),
    }
}

/// Why a pointer to a struct can't be assigned to a place; None where it can.
pub(crate) fn refusal<S: Store>(
    store: &S,
    slots: &[Scalar],
    place: Place<'_>,
    name: &[u8],
    fresh: Option<Fresh>,
) -> Option<Why>
    requires { (S.stored store.now).top < 2 ^ 63 }
    ensures { (p : ℕ) → result ≡ refusal_of (write_place (with_made fresh (S.stored store.now)) slots.now place.entry (typed (pointer name.now) (Address p ∷ []))) }
{
    match place {
        Place::Nowhere => Some(Why::KindsDiffer),
        Place::Local(_, kind) => refused_as(kind, name),
        Place::Behind(at, part) => match slots.get(at) {
            Some(Scalar::Address(address)) => {
                refused_in(room_at(store, fresh, *address), part, name)
            }
            Some(Scalar::Word(_)) => Some(Why::KindsDiffer),
            _ => Some(Why::Unset),
        },
    }
}
