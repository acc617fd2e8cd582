// Names of synonyms in written types.
#![tactic(auto, using(std::proofs::lemmas::Grind::common_steps, crate::proofs::TypeSteps::type_steps))]

ghost use Rattle.std.specs.Prelude.{◌≡◌, map, OnOk};
ghost use Rattle.cg_surface.specs.Written.{written_of, field_of, alt_of, to_types, to_fields, to_alts};
ghost use Rattle.cg_resolve_def.specs.Mentions.{type_mentions, types_mentions, fields_mentions, alts_mentions};
ghost use Rattle.cg_resolve_mentions.specs.Parts.{payload_mentions};
ghost use Rattle.cg_resolve_mentions.specs.Positions.{pushed};

use crate::positions::{Positions, push_name};
use cg_base::Memory;
use cg_surface::{SAlt, SPart, STy, STyForm};

/// Adds the positions of the names in a written type, in reading order. Want of memory is its one refusal.
#[cycle(push_type)]
pub fn push_type(synonyms: &Positions<'_>, targets: &mut Vec<u32>, ty: &STy) -> Result<(), Memory>
    ensures { OnOk result (targets.new.items ≡ pushed synonyms.now targets.old.items (type_mentions (written_of ty.now))) }
{
    match &ty.form {
        STyForm::Name(name, args) => {
            push_name(synonyms, targets, name.bytes())?;
            push_types(synonyms, targets, args.as_slice())
        }
        STyForm::Unit => Ok(()),
        STyForm::Tuple(parts) => push_types(synonyms, targets, parts.as_slice()),
        STyForm::Paren(inner) => push_type(synonyms, targets, inner),
        STyForm::Arrow(from, to) => {
            push_type(synonyms, targets, from)?;
            push_type(synonyms, targets, to)
        }
        STyForm::Fields(fields, _) => push_fields(synonyms, targets, fields.as_slice()),
        STyForm::Variant(choices) => push_alternatives(synonyms, targets, choices.as_slice()),
        STyForm::Bang(inner) => push_type(synonyms, targets, inner),
        STyForm::TakeSome(inner, _) => push_type(synonyms, targets, inner),
        STyForm::TakeAll(inner, _) => push_type(synonyms, targets, inner),
    }
}

// The same of several types, from left to right.
#[cycle(push_type)]
fn push_types(synonyms: &Positions<'_>, targets: &mut Vec<u32>, types: &[STy]) -> Result<(), Memory>
    ensures { OnOk result (targets.new.items ≡ pushed synonyms.now targets.old.items (types_mentions (to_types (map written_of types.now)))) }
{
    for ty in types {
        push_type(synonyms, targets, ty)?;
    }
    Ok(())
}

// The same of the fields of a record.
#[cycle(push_type)]
fn push_fields(
    synonyms: &Positions<'_>,
    targets: &mut Vec<u32>,
    fields: &[SPart],
) -> Result<(), Memory>
    ensures { OnOk result (targets.new.items ≡ pushed synonyms.now targets.old.items (fields_mentions (to_fields (map field_of fields.now)))) }
{
    for field in fields {
        push_type(synonyms, targets, &field.ty)?;
    }
    Ok(())
}

// The same of the alternatives of a variant type.
#[cycle(push_type)]
fn push_alternatives(
    synonyms: &Positions<'_>,
    targets: &mut Vec<u32>,
    choices: &[SAlt],
) -> Result<(), Memory>
    ensures { OnOk result (targets.new.items ≡ pushed synonyms.now targets.old.items (alts_mentions (to_alts (map alt_of choices.now)))) }
{
    for choice in choices {
        push_alternative(synonyms, targets, choice)?;
    }
    Ok(())
}

// The same of an alternative.
#[cycle(push_type)]
fn push_alternative(
    synonyms: &Positions<'_>,
    targets: &mut Vec<u32>,
    choice: &SAlt,
) -> Result<(), Memory>
    ensures { OnOk result (targets.new.items ≡ pushed synonyms.now targets.old.items (payload_mentions (alt_of choice.now).ty)) }
{
    match &choice.ty {
        None => Ok(()),
        Some(ty) => push_type(synonyms, targets, ty),
    }
}
