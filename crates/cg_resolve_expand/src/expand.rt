// What written types are as types of the kernel.
#![tactic(auto, using(std::proofs::lemmas::Grind::common_steps, crate::proofs::ExpandSteps::expand_steps))]

ghost use Rattle.std.specs.Prelude.{◌≡◌, [], map, IfOk};
ghost use Rattle.std.specs.Option.{option_map};
ghost use Rattle.cg_base.specs.Types.{type_of, part_of};
ghost use Rattle.cg_surface.specs.Written.{written_of, field_of, alt_of, to_types, to_fields, to_alts};
ghost use Rattle.cg_resolve_declared.specs.Tables.{texts};
ghost use Rattle.cg_resolve_def.specs.Expand.{expanded, expanded_all, expanded_fields, expanded_alts, components, in_order};
ghost use Rattle.cg_resolve_expand.specs.Known.{known_of};
ghost use Rattle.cg_resolve_expand.specs.Pieces.{named_type, payload_type};

use crate::Synonyms;
use crate::named::{applied, component, position, sigil};
use crate::order::in_order;
use crate::take::{take_all, take_some};
use cg_base::{Items, Memory, Name, Part, Sigil, Ty};
use cg_kinds::bang;
use cg_resolve_declared::is_variable;
use cg_surface::{SAlt, SPart, STy, STyForm};
use std::alloc::Global;

/// What a written type is as a type of the kernel, among the type variables of these names (docs/LANGUAGE.md, "Synonyms"). Want
/// of memory is its one refusal.
#[cycle(expand)]
pub fn written_type(
    alloc: Global,
    synonyms: &Synonyms<'_>,
    vars: &[&[u8]],
    ty: &STy,
) -> Result<Ty, Memory>
    ensures { IfOk result (λ t. type_of t ≡ expanded (known_of synonyms.now) (texts vars.now) (written_of ty.now)) }
{
    match &ty.form {
        STyForm::Name(name, args) => expand_name(alloc, synonyms, vars, name, args),
        STyForm::Unit => Ok(Ty::Unit),
        STyForm::Tuple(types) => {
            Ok(Ty::Fields(expand_tuple(alloc, synonyms, vars, types)?, Sigil::U))
        }
        STyForm::Paren(ty) => written_type(alloc, synonyms, vars, ty),
        STyForm::Arrow(from, to) => {
            let from = expand_boxed(alloc, synonyms, vars, from)?;
            let to = expand_boxed(alloc, synonyms, vars, to)?;
            Ok(Ty::Arrow(from, to))
        }
        STyForm::Fields(fields, boxed) => {
            Ok(Ty::Fields(expand_fields(alloc, synonyms, vars, fields)?, sigil(*boxed)))
        }
        STyForm::Variant(choices) => {
            Ok(Ty::Variant(expand_choices(alloc, synonyms, vars, choices)?))
        }
        STyForm::Bang(ty) => Ok(bang(written_type(alloc, synonyms, vars, ty)?)),
        STyForm::TakeSome(ty, names) => {
            Ok(take_some(written_type(alloc, synonyms, vars, ty)?, names.as_slice()))
        }
        STyForm::TakeAll(ty, _place) => Ok(take_all(written_type(alloc, synonyms, vars, ty)?)),
    }
}

// The same, in a box.
#[cycle(expand)]
#[inline(never)]
fn expand_boxed(
    alloc: Global,
    synonyms: &Synonyms<'_>,
    vars: &[&[u8]],
    ty: &STy,
) -> Result<Box<Ty>, Memory>
    ensures { IfOk result (λ t. type_of t.value ≡ expanded (known_of synonyms.now) (texts vars.now) (written_of ty.now)) }
{
    Ok(Box::new(alloc, written_type(alloc, synonyms, vars, ty)?)?)
}

// A type that is written by its name.
#[cycle(expand)]
#[inline(never)]
fn expand_name(
    alloc: Global,
    synonyms: &Synonyms<'_>,
    vars: &[&[u8]],
    name: &Name,
    args: &Items<STy>,
) -> Result<Ty, Memory>
    ensures { IfOk result (λ t. type_of t
        ≡ named_type (known_of synonyms.now) (texts vars.now) name.now (expanded_all (known_of synonyms.now) (texts vars.now) (to_types (map written_of args.now)) [])) }
{
    if is_variable(name.bytes()) {
        return Ok(Ty::Var(position(vars, name.bytes())?));
    }
    let args = expand_types(alloc, synonyms, vars, args)?;
    applied(alloc, synonyms, name, args)
}

// Types, one by one.
#[cycle(expand)]
#[inline(never)]
fn expand_types(
    alloc: Global,
    synonyms: &Synonyms<'_>,
    vars: &[&[u8]],
    types: &Items<STy>,
) -> Result<Items<Ty>, Memory>
    ensures { IfOk result (λ ts. map type_of ts ≡ expanded_all (known_of synonyms.now) (texts vars.now) (to_types (map written_of types.now)) []) }
{
    let mut expanded = Items::new(alloc);
    for ty in types.as_slice() {
        expanded.push(written_type(alloc, synonyms, vars, ty)?)?;
    }
    Ok(expanded)
}

// The components of a tuple.
#[cycle(expand)]
#[inline(never)]
fn expand_tuple(
    alloc: Global,
    synonyms: &Synonyms<'_>,
    vars: &[&[u8]],
    types: &Items<STy>,
) -> Result<Items<Part>, Memory>
    ensures { IfOk result (λ ps. map part_of ps ≡ components (known_of synonyms.now) (texts vars.now) (to_types (map written_of types.now)) []) }
{
    let mut parts = Items::new(alloc);
    for (before, ty) in types.as_slice().iter().enumerate() {
        parts.push(Part {
            name: component(alloc, before)?,
            ty: written_type(alloc, synonyms, vars, ty)?,
            taken: false,
        })?;
    }
    Ok(parts)
}

// The fields of a record.
#[cycle(expand)]
#[inline(never)]
fn expand_fields(
    alloc: Global,
    synonyms: &Synonyms<'_>,
    vars: &[&[u8]],
    fields: &Items<SPart>,
) -> Result<Items<Part>, Memory>
    ensures { IfOk result (λ ps. map part_of ps ≡ expanded_fields (known_of synonyms.now) (texts vars.now) (to_fields (map field_of fields.now)) []) }
{
    let mut parts = Items::new(alloc);
    for field in fields.as_slice() {
        parts.push(Part {
            name: field.at.name.copy(alloc)?,
            ty: written_type(alloc, synonyms, vars, &field.ty)?,
            taken: false,
        })?;
    }
    Ok(parts)
}

// The alternatives of a variant type, in the order of their names.
#[cycle(expand)]
#[inline(never)]
fn expand_choices(
    alloc: Global,
    synonyms: &Synonyms<'_>,
    vars: &[&[u8]],
    choices: &Items<SAlt>,
) -> Result<Items<Part>, Memory>
    ensures { IfOk result (λ ps. map part_of ps ≡ in_order (expanded_alts (known_of synonyms.now) (texts vars.now) (to_alts (map alt_of choices.now)) [])) }
{
    let sorted = in_order(alloc, choices.as_slice())?;
    let mut parts = Items::new(alloc);
    for choice in &sorted {
        parts.push(Part {
            name: choice.at.name.copy(alloc)?,
            ty: expand_payload(alloc, synonyms, vars, &choice.ty)?,
            taken: false,
        })?;
    }
    Ok(parts)
}

// The type of a payload; one that isn't written is the unit type.
#[cycle(expand)]
#[inline(never)]
fn expand_payload(
    alloc: Global,
    synonyms: &Synonyms<'_>,
    vars: &[&[u8]],
    ty: &Option<STy>,
) -> Result<Ty, Memory>
    ensures { IfOk result (λ t. type_of t ≡ payload_type (known_of synonyms.now) (texts vars.now) (option_map written_of ty.now)) }
{
    match ty {
        None => Ok(Ty::Unit),
        Some(ty) => written_type(alloc, synonyms, vars, ty),
    }
}
