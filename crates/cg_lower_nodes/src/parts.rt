// Alternatives and fields, where they stand.
#![tactic(auto, unfolding(cg_eval_operations::specs::Positions::position_among, cg_update::specs::Machines::type_of_part), using(crate::proofs::PartSteps::part_steps))]

ghost use Rattle.std.specs.Prelude.{◌≡◌, MatchOption, map};
ghost use Rattle.cg_base.specs.Types.{part_of, to_parts, type_of, unit};
ghost use Rattle.cg_eval_operations.specs.Positions.{position_among};
ghost use Rattle.cg_update.specs.Machines.{type_of_part};
ghost use Rattle.cg_update.specs.Turns.{field_type, place_in};
ghost use Rattle.cg_update.specs.Updates.{sigil_of};
ghost use Rattle.cg_lower_def.specs.Lowered.{word_of as word_of_type};

use cg_base::{Items, Name, Part, Sigil, Ty, Word};

// Where the part of this name stands; past the end, where there is none.
fn part_place(name: &Name, parts: &Items<Part>) -> usize
    ensures { result ≡ position_among name.now (to_parts (map part_of parts.now)) }
{
    let mut at = 0;
    for part in parts.as_slice() {
        if name.same(&part.name) {
            return at;
        }
        at += 1;
    }
    at
}

/// Where the alternative of this name stands in a type; past its end, where there is none.
pub fn alternative_place(name: &Name, ty: &Ty) -> usize
    ensures { result ≡ place_in name.now (type_of ty.now) }
{
    match ty {
        Ty::Variant(parts) => part_place(name, parts),
        _ => 0,
    }
}

/// How the records of a type are held.
pub(crate) fn sigil(ty: &Ty) -> Sigil
    ensures { result ≡ sigil_of (type_of ty.now) }
{
    match ty {
        Ty::Fields(_, sigil) => *sigil,
        _ => Sigil::U,
    }
}

/// The word of a type in C.
pub fn word_of(ty: &Ty) -> Word
    ensures { result ≡ word_of_type (type_of ty.now) }
{
    match ty {
        Ty::Word(word) => *word,
        _ => Word::U8,
    }
}

// The type of the part at a place; None, where it is unit because there is no such part.
fn type_at(parts: &Items<Part>, at: usize) -> Option<&Ty>
    ensures { MatchOption result (type_of_part at (to_parts (map part_of parts.now)) ≡ unit) (λ t. type_of_part at (to_parts (map part_of parts.now)) ≡ type_of t.now) }
{
    match parts.get(at) {
        Some(part) => Some(&part.ty),
        None => None,
    }
}

/// The type of a field; None, where it is unit because there is no such field.
pub fn field_at(ty: &Ty, at: usize) -> Option<&Ty>
    ensures { MatchOption result (field_type (type_of ty.now) at ≡ unit) (λ t. field_type (type_of ty.now) at ≡ type_of t.now) }
{
    match ty {
        Ty::Fields(parts, _) => type_at(parts, at),
        _ => None,
    }
}
