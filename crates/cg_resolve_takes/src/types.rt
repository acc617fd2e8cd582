// Fields that are taken in written types.
#![tactic(auto, using(std::proofs::lemmas::Grind::common_steps, crate::proofs::SaySteps::say_steps, crate::proofs::GoesOn::go_steps))]

ghost use Rattle.std.specs.Prelude.{◌≡◌, [], IfOk, None, Some, map};
ghost use Rattle.std.specs.List.{flat_map};
ghost use Rattle.std.specs.Option.{option_map};
ghost use Rattle.cg_surface.specs.Written.{written_of, field_of, alt_of, to_types, to_fields, to_alts};
ghost use Rattle.cg_resolve_def.specs.Declared.{is_among};
ghost use Rattle.cg_resolve_takes.specs.Heads.{component_names, field_names, heads_of, shape_of, shape_at, synonym_head, wanted_by, with_head};
ghost use Rattle.cg_resolve_takes.specs.Missing.{has_field, if_absent, if_no_record, absent, absent_all, absent_fields, absent_alts};
ghost use Rattle.cg_resolve_takes.specs.Says.{GoesFrom, GoesOn, IsChosen, TakesSay, told};
ghost use Rattle.cg_resolve_takes.specs.Views.{test_of, heads_in};

use crate::fault::TakeFault;
use crate::head::{Fields, TypeHead};
use crate::known::{HeadTable, head_by_name};
use cg_base::{Items, Place};
use cg_core::At;
use cg_surface::{SAlt, SPart, STy, STyForm};
use std::alloc::Global;

/// The first place of a field that is taken where it isn't, in a type, behind what was looked at before: a fault that was found there
/// stays. The table has the head of each synonym. Want of memory is its one other refusal.
pub fn check_alone<'a>(
    alloc: Global,
    table: &HeadTable<'a>,
    so_far: Result<(), TakeFault>,
    ty: &'a STy,
) -> Result<(), TakeFault>
    ensures { GoesOn so_far (absent (heads_in table.now) (written_of ty.now)) result }
{
    done(in_type(alloc, table, so_far, ty))
}

/// The same in types.
pub fn check_all<'a>(
    alloc: Global,
    table: &HeadTable<'a>,
    so_far: Result<(), TakeFault>,
    types: &'a Items<STy>,
) -> Result<(), TakeFault>
    ensures { GoesOn so_far (absent_all (heads_in table.now) (to_types (map written_of types.now))) result }
{
    done(in_types(alloc, table, so_far, types, None))
}

// The fields of a type, where it is a record, and all fields that are taken in it are there; else the first place of one that isn't. A
// fault that was found before stays, and nothing more is looked at.
#[cycle(check)]
fn in_type<'a>(
    alloc: Global,
    table: &HeadTable<'a>,
    so_far: Result<(), TakeFault>,
    ty: &'a STy,
) -> Result<Option<Fields<'a>>, TakeFault>
    ensures says { GoesOn so_far (absent (heads_in table.now) (written_of ty.now)) result }
    ensures fields { IfOk result (λ fields. option_map test_of fields ≡ shape_of (heads_in table.now) (written_of ty.now)) }
{
    if let Err(fault) = so_far {
        return Err(fault);
    }
    match &ty.form {
        STyForm::Name(name, args) => {
            let wanted = wanted(table, name.bytes());
            let given = in_types(alloc, table, so_far, args, wanted);
            named(table, name.bytes(), given)
        }
        STyForm::Unit => none(so_far),
        STyForm::Tuple(types) => {
            let inside = done(in_types(alloc, table, so_far, types, None));
            components(inside, types.len())
        }
        STyForm::Paren(inner) | STyForm::Bang(inner) => in_type(alloc, table, so_far, inner),
        STyForm::Arrow(from, to) => {
            let inside = done(in_type(alloc, table, so_far, from));
            none(done(in_type(alloc, table, inside, to)))
        }
        STyForm::Fields(parts, _) => record(alloc, in_parts(alloc, table, so_far, parts), parts),
        STyForm::Variant(alternatives) => {
            none(in_alternatives(alloc, table, so_far, alternatives))
        }
        STyForm::TakeSome(inner, names) => taken(in_type(alloc, table, so_far, inner), names),
        STyForm::TakeAll(inner, place) => all_taken(in_type(alloc, table, so_far, inner), *place),
    }
}

// The same in types, and the fields of the one at this position.
#[cycle(check)]
fn in_types<'a>(
    alloc: Global,
    table: &HeadTable<'a>,
    so_far: Result<(), TakeFault>,
    types: &'a Items<STy>,
    wanted: Option<usize>,
) -> Result<Option<Fields<'a>>, TakeFault>
    ensures says { GoesOn so_far (absent_all (heads_in table.now) (to_types (map written_of types.now))) result }
    ensures fields { IfOk result (λ fields. option_map test_of fields ≡ shape_at (heads_of (heads_in table.now) [] (to_types (map written_of types.now))) wanted) }
{
    let mut found = none(so_far);
    for (position, ty) in types.as_slice().iter().enumerate() {
        let here = in_type(alloc, table, so_told(&found), ty);
        found = chosen(wanted, position, found, here);
    }
    found
}

// The same in the types of these fields.
#[cycle(check)]
fn in_parts<'a>(
    alloc: Global,
    table: &HeadTable<'a>,
    so_far: Result<(), TakeFault>,
    parts: &'a Items<SPart>,
) -> Result<(), TakeFault>
    ensures { GoesOn so_far (absent_fields (heads_in table.now) (to_fields (map field_of parts.now))) result }
{
    let mut inside = so_far;
    for part in parts.as_slice() {
        inside = done(in_type(alloc, table, inside, &part.ty));
    }
    inside
}

// The same in those of these alternatives.
#[cycle(check)]
fn in_alternatives<'a>(
    alloc: Global,
    table: &HeadTable<'a>,
    so_far: Result<(), TakeFault>,
    alternatives: &'a Items<SAlt>,
) -> Result<(), TakeFault>
    ensures { GoesOn so_far (absent_alts (heads_in table.now) (to_alts (map alt_of alternatives.now))) result }
{
    let mut inside = so_far;
    for alternative in alternatives.as_slice() {
        if let Some(ty) = &alternative.ty {
            inside = done(in_type(alloc, table, inside, ty));
        }
    }
    inside
}

// ---- what a form comes to once its parts were looked at

// Whether all was there, with no fields.
fn done<'a>(found: Result<Option<Fields<'a>>, TakeFault>) -> Result<(), TakeFault>
    ensures { result ≡ told found.entry }
{
    match found {
        Ok(_) => Ok(()),
        Err(fault) => Err(fault),
    }
}

// The same of fields that are looked at once more.
fn so_told(found: &Result<Option<Fields<'_>>, TakeFault>) -> Result<(), TakeFault>
    ensures { result ≡ told found.now }
{
    match found {
        Ok(_) => Ok(()),
        Err(fault) => Err(*fault),
    }
}

// What is no record.
fn none<'a>(so_far: Result<(), TakeFault>) -> Result<Option<Fields<'a>>, TakeFault>
    ensures says { GoesOn so_far [] result }
    ensures fields { IfOk result (λ fields. fields ≡ None) }
{
    match so_far {
        Ok(()) => Ok(None),
        Err(fault) => Err(fault),
    }
}

// A record.
fn record<'a>(
    alloc: Global,
    so_far: Result<(), TakeFault>,
    parts: &'a Items<SPart>,
) -> Result<Option<Fields<'a>>, TakeFault>
    ensures says { GoesOn so_far [] result }
    ensures fields { IfOk result (λ fields. option_map test_of fields ≡ Some (is_among (field_names (to_fields (map field_of parts.now))))) }
{
    match so_far {
        Ok(()) => Ok(Some(Fields::of_parts(alloc, parts)?)),
        Err(fault) => Err(fault),
    }
}

// A tuple of so many components.
fn components<'a>(
    so_far: Result<(), TakeFault>,
    count: usize,
) -> Result<Option<Fields<'a>>, TakeFault>
    ensures says { GoesOn so_far [] result }
    ensures fields { IfOk result (λ fields. option_map test_of fields ≡ Some (is_among (component_names count))) }
{
    match so_far {
        Ok(()) => Ok(Some(Fields::Components(count))),
        Err(fault) => Err(fault),
    }
}

// Which argument a type by its name has the fields of, where it is one.
fn wanted(table: &HeadTable<'_>, name: &[u8]) -> Option<usize>
    ensures { result ≡ wanted_by (synonym_head (heads_in table.now) name.now) }
{
    match head_by_name(table, name) {
        Some(TypeHead::Parameter(at)) => Some(*at),
        _ => None,
    }
}

// The fields of a type by its name, where these are those of the argument that it has them of.
fn named<'a>(
    table: &HeadTable<'a>,
    name: &[u8],
    found: Result<Option<Fields<'a>>, TakeFault>,
) -> Result<Option<Fields<'a>>, TakeFault>
    ensures says { GoesFrom found.entry (λ fields. []) result }
    ensures fields { IfOk found.entry (λ fields. IfOk result (λ same. option_map test_of same ≡ with_head (synonym_head (heads_in table.now) name.now) (option_map test_of fields))) }
{
    let fields = found?;
    match head_by_name(table, name) {
        Some(TypeHead::Record(fields)) => Ok(Some(fields.copy()?)),
        _ => Ok(fields),
    }
}

// These fields, where each name is one of them.
fn taken<'a>(
    found: Result<Option<Fields<'a>>, TakeFault>,
    names: &Items<At>,
) -> Result<Option<Fields<'a>>, TakeFault>
    ensures says { GoesFrom found.entry (λ fields. flat_map (if_absent (option_map test_of fields)) names.now) result }
    ensures fields { IfOk found.entry (λ fields. IfOk result (λ same. option_map test_of same ≡ option_map test_of fields)) }
{
    let fields = found?;
    check_names(&fields, names)?;
    Ok(fields)
}

// These fields, where it is a record.
fn all_taken<'a>(
    found: Result<Option<Fields<'a>>, TakeFault>,
    place: Place,
) -> Result<Option<Fields<'a>>, TakeFault>
    ensures says { GoesFrom found.entry (λ fields. if_no_record (option_map test_of fields) place) result }
    ensures fields { IfOk found.entry (λ fields. IfOk result (λ same. option_map test_of same ≡ option_map test_of fields)) }
{
    let fields = found?;
    if fields.is_none() {
        return Err(TakeFault::N5(place));
    }
    Ok(fields)
}

// The fields at a position, where it is the one that is wanted; else those before.
fn chosen<'a>(
    wanted: Option<usize>,
    position: usize,
    before: Result<Option<Fields<'a>>, TakeFault>,
    here: Result<Option<Fields<'a>>, TakeFault>,
) -> Result<Option<Fields<'a>>, TakeFault>
    ensures { IsChosen wanted position before.entry here.entry result }
{
    let here = here?;
    match wanted {
        Some(at) if at == position => before.and(Ok(here)),
        _ => before,
    }
}

// The first place of a name that is none of these fields.
fn check_names(fields: &Option<Fields<'_>>, names: &Items<At>) -> Result<(), TakeFault>
    ensures { TakesSay (flat_map (if_absent (option_map test_of fields.now)) names.now) result }
{
    for at in names.as_slice() {
        if !is_field(fields, at.name.bytes()) {
            return Err(TakeFault::N5(at.place));
        }
    }
    Ok(())
}

// Whether a name is one of these fields.
fn is_field(fields: &Option<Fields<'_>>, name: &[u8]) -> bool
    ensures { result ≡ has_field (option_map test_of fields.now) name.now }
{
    match fields {
        None => false,
        Some(fields) => fields.has(name),
    }
}
