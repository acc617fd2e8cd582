// The heads of synonyms.
#![tactic(auto, using(std::proofs::lemmas::Grind::common_steps, crate::proofs::HeadSteps::head_steps))]

ghost use Rattle.std.specs.Prelude.{◌≡◌, IfOk, OnOk, Some, map, slice_get};
ghost use Rattle.std.specs.Option.{option_map};
ghost use Rattle.cg_graphs.specs.Circles.{IsOrder};
ghost use Rattle.cg_resolve_declared.specs.Declarations.{entries_of, IsIndexed};
ghost use Rattle.cg_resolve_def.specs.Declared.{type_named};
ghost use Rattle.cg_resolve_def.specs.Expand.{bodies, position_of};
ghost use Rattle.cg_resolve_def.specs.Mentions.{mentions};
ghost use Rattle.cg_surface.specs.Programs.{entry_of};
ghost use Rattle.cg_surface.specs.Written.{written_of, to_types};
ghost use Rattle.cg_resolve_takes.specs.Heads.{head_of, heads_of, tops, synonym_head, head_by_name};
ghost use Rattle.cg_resolve_takes.specs.Known.{Keeps, KeepsNamed};
ghost use Rattle.cg_resolve_takes.specs.Views.{head_view, heads_in};

use crate::head::{Fields, TypeHead};
use cg_base::{Items, Memory, Place};
use cg_core::At;
use cg_resolve_declared::{Declarations, is_variable, plain_type};
use cg_surface::{Item, STy, STyForm};
use std::alloc::Global;
use std::collections::BTreeMap;

/// Names of synonyms, each with the head of its body.
pub type HeadTable<'a> = BTreeMap<&'a [u8], TypeHead<'a>>;

/// The heads of all synonyms of a program, in whose order each item stands behind those that it mentions. Want of memory is its one
/// refusal.
pub fn known_heads<'a>(
    alloc: Global,
    declared: &Declarations<'a>,
    order: &[u32],
) -> Result<HeadTable<'a>, Memory>
    requires indexed { IsIndexed declared.now }
    requires order { IsOrder (mentions (entries_of declared.now)) order.now }
    ensures { IfOk result (λ table. heads_in table ≡ tops (bodies (entries_of declared.now))) }
{
    let mut table = BTreeMap::new(alloc);
    for position in order {
        keep_head(alloc, declared, &mut table, *position)?;
    }
    Ok(table)
}

/// The head of the body of a name's synonym; None where the name is that of a type variable, of a type that is declared beforehand, or
/// of no synonym. It takes no memory.
pub fn head_by_name<'t, 'a>(table: &'t HeadTable<'a>, name: &[u8]) -> Option<&'t TypeHead<'a>>
    ensures { option_map (λ head. head_view head.now) result ≡ synonym_head (heads_in table.now) name.now }
{
    if is_variable(name) || plain_type(name).is_some() {
        return None;
    }
    table.get(name)
}

// Keeps the head of the item at a position, where it is the first type of its name, and a synonym.
fn keep_head<'a>(
    alloc: Global,
    declared: &Declarations<'a>,
    table: &mut HeadTable<'a>,
    position: u32,
) -> Result<(), Memory>
    requires { IsIndexed declared.now }
    ensures { OnOk result (Keeps (entries_of declared.now) (slice_get (entries_of declared.now) position) (heads_in table.old) (heads_in table.new)) }
{
    match declared.items.get(position as usize) {
        None => Ok(()),
        Some(item) => keep_item(alloc, declared, table, item),
    }
}

// Keeps the head of an item, where it is the first type of its name, and a synonym.
fn keep_item<'a>(
    alloc: Global,
    declared: &Declarations<'a>,
    table: &mut HeadTable<'a>,
    item: &'a Item,
) -> Result<(), Memory>
    requires { IsIndexed declared.now }
    ensures { OnOk result (Keeps (entries_of declared.now) (Some (entry_of item.now)) (heads_in table.old) (heads_in table.new)) }
{
    match item {
        Item::Synonym { at, body, .. } => {
            keep_named(alloc, declared, table, at.name.bytes(), body.place)
        }
        Item::Abstract { .. } => Ok(()),
        Item::Signature { .. } => Ok(()),
        Item::Define { .. } => Ok(()),
    }
}

// Keeps the head of the first type of a name, where it is a synonym, and its body stands at this place: of several synonyms of the name
// it alone stands behind all that it mentions.
fn keep_named<'a>(
    alloc: Global,
    declared: &Declarations<'a>,
    table: &mut HeadTable<'a>,
    name: &'a [u8],
    place: Place,
) -> Result<(), Memory>
    requires { IsIndexed declared.now }
    ensures { OnOk result (KeepsNamed name.now place (type_named (entries_of declared.now) name.now) (heads_in table.old) (heads_in table.new)) }
{
    let Some(first) = declared.type_named(name) else {
        return Ok(());
    };
    let Some(body) = first.body else {
        return Ok(());
    };
    if body.place != place {
        return Ok(());
    }
    let head = head(alloc, table, first.params, body)?;
    table.insert(name, head)?;
    Ok(())
}

// The head of a type among these parameters.
#[cycle(head)]
fn head<'a>(
    alloc: Global,
    table: &HeadTable<'a>,
    params: &[At],
    ty: &'a STy,
) -> Result<TypeHead<'a>, Memory>
    ensures { IfOk result (λ head. head_view head ≡ head_of (heads_in table.now) (map (λ at. at.name) params.now) (written_of ty.now)) }
{
    match &ty.form {
        STyForm::Name(name, args) => named(alloc, table, params, name.bytes(), args),
        STyForm::Unit => Ok(TypeHead::Other),
        STyForm::Tuple(types) => Ok(TypeHead::Record(Fields::Components(types.len()))),
        STyForm::Paren(inner) => head(alloc, table, params, inner),
        STyForm::Arrow(_, _) => Ok(TypeHead::Other),
        STyForm::Fields(parts, _) => Ok(TypeHead::Record(Fields::of_parts(alloc, parts)?)),
        STyForm::Variant(_) => Ok(TypeHead::Other),
        STyForm::Bang(inner) => head(alloc, table, params, inner),
        STyForm::TakeSome(inner, _) => head(alloc, table, params, inner),
        STyForm::TakeAll(inner, _) => head(alloc, table, params, inner),
    }
}

// The head of a type by its name: that of the argument, where the synonym's is its parameter.
#[cycle(head)]
fn named<'a>(
    alloc: Global,
    table: &HeadTable<'a>,
    params: &[At],
    name: &[u8],
    args: &'a Items<STy>,
) -> Result<TypeHead<'a>, Memory>
    ensures { IfOk result (λ head. head_view head ≡ head_by_name (heads_in table.now) (map (λ at. at.name) params.now) name.now (heads_of (heads_in table.now) (map (λ at. at.name) params.now) (to_types (map written_of args.now)))) }
{
    if is_variable(name) {
        return Ok(TypeHead::Parameter(parameter(params, name)));
    }
    match head_by_name(table, name) {
        Some(TypeHead::Record(fields)) => Ok(TypeHead::Record(fields.copy()?)),
        Some(TypeHead::Parameter(at)) => match args.get(*at) {
            Some(argument) => head(alloc, table, params, argument),
            None => Ok(TypeHead::Other),
        },
        Some(TypeHead::Other) => Ok(TypeHead::Other),
        None => Ok(TypeHead::Other),
    }
}

// The position of the first parameter of a name, or how many there are.
fn parameter(params: &[At], name: &[u8]) -> usize
    ensures { result ≡ position_of (map (λ at. at.name) params.now) name.now }
{
    let mut at = 0;
    for param in params {
        if name == param.name.bytes() {
            return at;
        }
        at += 1;
    }
    at
}
