// How large written types are.
#![tactic(auto, using(std::proofs::lemmas::Grind::common_steps, crate::proofs::SizeSteps::size_steps))]

ghost use Rattle.std.specs.Prelude.{◌≡◌, ◌≤◌, ◌<◌, map, IfOk, IfErr};
ghost use Rattle.std.specs.Option.{option_map};
ghost use Rattle.cg_surface.specs.Written.{written_of, field_of, alt_of, to_types, to_fields, to_alts};
ghost use Rattle.cg_resolve_def.specs.Desugar.{type_limit};
ghost use Rattle.cg_resolve_expand.specs.Known.{known_of};
ghost use Rattle.cg_resolve_written.specs.Capped.{capped};
ghost use Rattle.cg_resolve_written.specs.Sizes.{named_size, size, sizes, total, total_fields, total_alts, payload_size, greatest, greatest_of, greatest_field, greatest_alt, greatest_payload};
ghost use Rattle.cg_resolve_written.specs.declared.oversize.Oversize.TheVariants.{TooLarge};

use crate::Oversize;
use crate::named_size::named_size;
use cg_base::Items;
use cg_resolve_expand::Synonyms;
use cg_surface::{SAlt, SPart, STy, STyForm};
use std::alloc::Global;

// The most nodes that a written type has.
const TYPE_LIMIT: u32 = 1024;

/// How many nodes a written type has as a type of the kernel. TooLarge says that a type which is written in it, itself among
/// them, has more than the limit (docs/LANGUAGE.md, "Limits").
#[cycle(size)]
pub(crate) fn size(alloc: Global, synonyms: &Synonyms<'_>, ty: &STy) -> Result<u32, Oversize>
    ensures ok { IfOk result (λ n. (n ≡ size (known_of synonyms.now) (written_of ty.now)) × (greatest (known_of synonyms.now) (written_of ty.now) ≤ type_limit)) }
    ensures over { IfErr result (λ e. e ≡ TooLarge → type_limit < greatest (known_of synonyms.now) (written_of ty.now)) }
{
    let nodes = size_of_parts(alloc, synonyms, ty)?;
    if nodes > TYPE_LIMIT {
        return Err(Oversize::TooLarge);
    }
    Ok(nodes)
}

// The same, where it isn't looked at whether the type itself is too large.
#[cycle(size)]
fn size_of_parts(alloc: Global, synonyms: &Synonyms<'_>, ty: &STy) -> Result<u32, Oversize>
    ensures ok { IfOk result (λ n. (n ≡ capped (size (known_of synonyms.now) (written_of ty.now)))
        × (size (known_of synonyms.now) (written_of ty.now) ≤ type_limit → greatest (known_of synonyms.now) (written_of ty.now) ≤ type_limit)) }
    ensures over { IfErr result (λ e. e ≡ TooLarge → type_limit < greatest (known_of synonyms.now) (written_of ty.now)) }
{
    match &ty.form {
        STyForm::Name(name, args) => size_of_name(alloc, synonyms, name.bytes(), args),
        STyForm::Unit => Ok(1),
        STyForm::Tuple(types) => Ok(total(alloc, synonyms, types)?.saturating_add(1)),
        STyForm::Paren(ty) => size(alloc, synonyms, ty),
        STyForm::Arrow(from, to) => {
            let from = size(alloc, synonyms, from)?;
            let to = size(alloc, synonyms, to)?;
            Ok(from.saturating_add(to).saturating_add(1))
        }
        STyForm::Fields(fields, _boxed) => Ok(total_fields(alloc, synonyms, fields)?.saturating_add(
            1,
        )),
        STyForm::Variant(choices) => Ok(total_choices(alloc, synonyms, choices)?.saturating_add(1)),
        STyForm::Bang(ty) => size(alloc, synonyms, ty),
        STyForm::TakeSome(ty, _names) => size(alloc, synonyms, ty),
        STyForm::TakeAll(ty, _place) => size(alloc, synonyms, ty),
    }
}

// The same of a type by its name.
#[cycle(size)]
fn size_of_name(
    alloc: Global,
    synonyms: &Synonyms<'_>,
    name: &[u8],
    args: &Items<STy>,
) -> Result<u32, Oversize>
    ensures ok { IfOk result (λ n. (n ≡ capped (named_size (known_of synonyms.now) name.now (sizes (known_of synonyms.now) (to_types (map written_of args.now)))))
        × (greatest_of (known_of synonyms.now) (to_types (map written_of args.now)) ≤ type_limit)) }
    ensures over { IfErr result (λ e. e ≡ TooLarge → type_limit < greatest_of (known_of synonyms.now) (to_types (map written_of args.now))) }
{
    let sizes = sizes(alloc, synonyms, args)?;
    Ok(named_size(synonyms, name, &sizes))
}

// The sizes of types, one by one.
#[cycle(size)]
fn sizes(alloc: Global, synonyms: &Synonyms<'_>, types: &Items<STy>) -> Result<Vec<u32>, Oversize>
    ensures ok { IfOk result (λ ns. (ns.items ≡ sizes (known_of synonyms.now) (to_types (map written_of types.now)))
        × (greatest_of (known_of synonyms.now) (to_types (map written_of types.now)) ≤ type_limit)) }
    ensures over { IfErr result (λ e. e ≡ TooLarge → type_limit < greatest_of (known_of synonyms.now) (to_types (map written_of types.now))) }
{
    let mut sizes = Vec::new(alloc);
    for ty in types.as_slice() {
        sizes.push(size(alloc, synonyms, ty)?)?;
    }
    Ok(sizes)
}

// The sizes of types together.
#[cycle(size)]
fn total(alloc: Global, synonyms: &Synonyms<'_>, types: &Items<STy>) -> Result<u32, Oversize>
    ensures ok { IfOk result (λ n. (n ≡ capped (total (known_of synonyms.now) (to_types (map written_of types.now))))
        × (greatest_of (known_of synonyms.now) (to_types (map written_of types.now)) ≤ type_limit)) }
    ensures over { IfErr result (λ e. e ≡ TooLarge → type_limit < greatest_of (known_of synonyms.now) (to_types (map written_of types.now))) }
{
    let mut total = 0u32;
    for ty in types.as_slice() {
        total = total.saturating_add(size(alloc, synonyms, ty)?);
    }
    Ok(total)
}

// Those of the types of fields.
#[cycle(size)]
fn total_fields(
    alloc: Global,
    synonyms: &Synonyms<'_>,
    fields: &Items<SPart>,
) -> Result<u32, Oversize>
    ensures ok { IfOk result (λ n. (n ≡ capped (total_fields (known_of synonyms.now) (to_fields (map field_of fields.now))))
        × (greatest_field (known_of synonyms.now) (to_fields (map field_of fields.now)) ≤ type_limit)) }
    ensures over { IfErr result (λ e. e ≡ TooLarge → type_limit < greatest_field (known_of synonyms.now) (to_fields (map field_of fields.now))) }
{
    let mut total = 0u32;
    for field in fields.as_slice() {
        total = total.saturating_add(size(alloc, synonyms, &field.ty)?);
    }
    Ok(total)
}

// Those of the types of payloads.
#[cycle(size)]
fn total_choices(
    alloc: Global,
    synonyms: &Synonyms<'_>,
    choices: &Items<SAlt>,
) -> Result<u32, Oversize>
    ensures ok { IfOk result (λ n. (n ≡ capped (total_alts (known_of synonyms.now) (to_alts (map alt_of choices.now))))
        × (greatest_alt (known_of synonyms.now) (to_alts (map alt_of choices.now)) ≤ type_limit)) }
    ensures over { IfErr result (λ e. e ≡ TooLarge → type_limit < greatest_alt (known_of synonyms.now) (to_alts (map alt_of choices.now))) }
{
    let mut total = 0u32;
    for choice in choices.as_slice() {
        total = total.saturating_add(payload_size(alloc, synonyms, &choice.ty)?);
    }
    Ok(total)
}

// That of the type of a payload; one that isn't written is the unit type.
#[cycle(size)]
fn payload_size(alloc: Global, synonyms: &Synonyms<'_>, ty: &Option<STy>) -> Result<u32, Oversize>
    ensures ok { IfOk result (λ n. (n ≡ payload_size (known_of synonyms.now) (option_map written_of ty.now))
        × (greatest_payload (known_of synonyms.now) (option_map written_of ty.now) ≤ type_limit)) }
    ensures over { IfErr result (λ e. e ≡ TooLarge → type_limit < greatest_payload (known_of synonyms.now) (option_map written_of ty.now)) }
{
    match ty {
        None => Ok(1),
        Some(ty) => size(alloc, synonyms, ty),
    }
}
