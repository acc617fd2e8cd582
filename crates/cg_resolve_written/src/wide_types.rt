// How wide written types are.
#![tactic(auto, using(std::proofs::lemmas::Grind::common_steps, crate::proofs::TypeCounts::type_counts))]

ghost use Rattle.std.specs.Prelude.{◌≡◌, map};
ghost use Rattle.std.specs.Option.{option_map};
ghost use Rattle.cg_surface.specs.Written.{written_of, field_of, alt_of, to_types, to_fields, to_alts};
ghost use Rattle.cg_resolve_def.specs.Takes.{widest, widest_of, widest_field, widest_alt};
ghost use Rattle.cg_resolve_written.specs.Wide.{widest_payload};

use cg_base::Items;
use cg_surface::{SAlt, SPart, STy, STyForm};

/// The most parts of one tuple, record type or variant type in a type (docs/LANGUAGE.md, "Limits"). It takes no memory.
#[cycle(widest)]
pub(crate) fn widest_type(ty: &STy) -> usize
    ensures { result ≡ widest (written_of ty.now) }
{
    match &ty.form {
        STyForm::Name(_name, args) => widest_types(args),
        STyForm::Unit => 0,
        STyForm::Tuple(types) => types.len().max(widest_types(types)),
        STyForm::Paren(ty) => widest_type(ty),
        STyForm::Arrow(from, to) => widest_type(from).max(widest_type(to)),
        STyForm::Fields(fields, _boxed) => fields.len().max(widest_fields(fields)),
        STyForm::Variant(choices) => choices.len().max(widest_choices(choices)),
        STyForm::Bang(ty) => widest_type(ty),
        STyForm::TakeSome(ty, _names) => widest_type(ty),
        STyForm::TakeAll(ty, _place) => widest_type(ty),
    }
}

/// The same in types.
#[cycle(widest)]
pub(crate) fn widest_types(types: &Items<STy>) -> usize
    ensures { result ≡ widest_of (to_types (map written_of types.now)) }
{
    let mut most = 0;
    for ty in types.as_slice() {
        most = most.max(widest_type(ty));
    }
    most
}

// The same in the types of fields.
#[cycle(widest)]
fn widest_fields(fields: &Items<SPart>) -> usize
    ensures { result ≡ widest_field (to_fields (map field_of fields.now)) }
{
    let mut most = 0;
    for field in fields.as_slice() {
        most = most.max(widest_type(&field.ty));
    }
    most
}

// The same in the types of payloads.
#[cycle(widest)]
fn widest_choices(choices: &Items<SAlt>) -> usize
    ensures { result ≡ widest_alt (to_alts (map alt_of choices.now)) }
{
    let mut most = 0;
    for choice in choices.as_slice() {
        most = most.max(widest_payload(&choice.ty));
    }
    most
}

// The same in a payload, where there is one.
#[cycle(widest)]
fn widest_payload(ty: &Option<STy>) -> usize
    ensures { result ≡ widest_payload (option_map written_of ty.now) }
{
    match ty {
        None => 0,
        Some(ty) => widest_type(ty),
    }
}
