// Terms, bound to patterns: what a pattern binds goes on at the site (docs/LANGUAGE.md, "Desugaring").
#![tactic(auto, using(std::proofs::lemmas::Grind::common_steps, crate::proofs::BinderSteps::binder_steps))]

ghost use Rattle.std.specs.Prelude.{◌≡◌, ◌+◌, ◌*◌, ◌<◌, ◌≤◌, [], ◌∷◌, map, IfOk, OnOk, MatchOption, Some, None, length, ⊤};
ghost use Rattle.cg_base.specs.Types as kernel;
ghost use Rattle.cg_core.specs.Kernels.{the_term};
ghost use Rattle.cg_core.specs.Terms.{term, var, lets, annot};
ghost use Rattle.cg_resolve_def.specs.Desugar.{depth_of, term_limit};
ghost use Rattle.cg_resolve_def.specs.Expand.{component};
ghost use Rattle.cg_resolve_def.specs.Terms.{bound_to, its_name, inner_place, named_remainder, seen_bound};
ghost use Rattle.cg_surface.specs.Patterns.{pattern_of, field_of};
ghost use Rattle.cg_resolve_sites.specs.Sites.{entry_of, scope_of, scope_in, level, Fits, Moved, Binds, scope_limit};
ghost use Rattle.cg_resolve_sites.specs.Stands.{under, HasRoom};
ghost use Rattle.cg_resolve_binders.specs.Parts.{numbered, taken_from, one_taken, later_bound, all_later, parts_bound, remainder_bound, tuple_bound, seen_made};

use cg_base::{Items, Memory, Name, Place, Ty};
use cg_core::{At, Form, Term, TyArg};
use cg_resolve_sites::{
    Frame, Site, TERM_LIMIT, TermFault, component, inner_place, its_name, positions, variable_term,
};
use cg_surface::{FPat, Pat, PatForm};
use std::alloc::Global;

/// Binds a term to a pattern, where the first node stands at this place. It answers that the whole is too deep exactly where it
/// is so whatever goes on at the site; want of memory is its one other refusal.
#[cycle(bind)]
#[inline(never)]
pub fn bound_to<'a>(
    alloc: Global,
    site: &mut Site<'a>,
    place: Place,
    pattern: &'a Pat,
    value: Term<Place>,
) -> Result<(), TermFault>
    requires fits { Fits site.now }
    requires value { HasRoom (under (pattern_of pattern.now)) (level site.now) (depth_of (the_term value)) }
    ensures { Binds site.old (bound_to place (pattern_of pattern.now) (the_term value) (scope_in site.old)) result site.new }
{
    match &pattern.form {
        PatForm::Name(name) => bind_one(site, place, pattern.place, value, Some(name.bytes())),
        PatForm::Any => bind_one(site, place, pattern.place, value, None),
        PatForm::Unit => bind_unit(alloc, site, place, pattern.place, value),
        PatForm::Paren(inner) => bound_to(alloc, site, place, inner, value),
        PatForm::Tuple(items) => bind_tuple(alloc, site, pattern.place, items, value),
        PatForm::Fields(fields) => bind_fields(alloc, site, pattern.place, fields, value),
        PatForm::Take(name, fields) => {
            bind_remainder(alloc, site, pattern.place, name.bytes(), fields, value)
        }
    }
}

// Binds a term to an entry.
fn bind_one<'a>(
    site: &mut Site<'a>,
    node: Place,
    place: Place,
    value: Term<Place>,
    name: Option<&'a [u8]>,
) -> Result<(), TermFault>
    requires fits { Fits site.now }
    requires value { HasRoom (Some 1) (level site.now) (depth_of (the_term value)) }
    ensures { Binds site.old (λ rest. term node (lets place (the_term value) (rest (entry_of name.entry ∷ scope_in site.old)))) result site.new }
{
    if site.level() + 2 > TERM_LIMIT {
        return Err(TermFault::TooDeep);
    }
    site.frames.push(Frame::Let(node, place, value))?;
    site.scope.push(name)?;
    Ok(())
}

// Binds a term that has to be `()`.
fn bind_unit(
    alloc: Global,
    site: &mut Site<'_>,
    node: Place,
    place: Place,
    value: Term<Place>,
) -> Result<(), TermFault>
    requires fits { Fits site.now }
    requires value { HasRoom (Some 2) (level site.now) (depth_of (the_term value)) }
    ensures { Binds site.old (λ rest. term node (lets place (term place (annot (the_term value) (record { place = place; ty = kernel.unit }))) (rest (None ∷ scope_in site.old)))) result site.new }
{
    if site.level() + 3 > TERM_LIMIT {
        return Err(TermFault::TooDeep);
    }
    let value = unit_annotation(alloc, place, value)?;
    bind_one(site, node, place, value, None)
}

// A term that has to be `()`, as is noted at a place.
fn unit_annotation(alloc: Global, place: Place, value: Term<Place>) -> Result<Term<Place>, Memory>
    ensures { IfOk result (λ t. the_term t ≡ term place (annot (the_term value) (record { place = place; ty = kernel.unit }))) }
{
    let ty = TyArg {
        place,
        ty: Ty::Unit,
    };
    let form = Form::Annot(Box::new(alloc, value)?, ty);
    Ok(Term { note: place, form })
}

// Takes a field of a term.
fn take_one<'a>(
    site: &mut Site<'a>,
    place: Place,
    whole: Term<Place>,
    at: At,
    pattern: &'a Pat,
) -> Result<(), TermFault>
    requires fits { Fits site.now }
    requires value { HasRoom (Some 1) (level site.now) (depth_of (the_term whole)) }
    ensures binds { Binds site.old (one_taken place (the_term whole) at (pattern_of pattern.now) (scope_in site.old)) result site.new }
    ensures entries { OnOk result (length site.new.scope.items ≡ length site.old.scope.items + 2) }
{
    if site.level() + 2 > TERM_LIMIT {
        return Err(TermFault::TooDeep);
    }
    let value = inner_place(pattern);
    site.frames.push(Frame::Take(place, whole, at, value))?;
    site.scope.push(None)?;
    site.scope.push(its_name(pattern))?;
    Ok(())
}

// Takes each component of a term, and makes two entries for it: what is left, and its name, where it is one.
fn take_components<'a>(
    alloc: Global,
    site: &mut Site<'a>,
    place: Place,
    items: &'a Items<Pat>,
    value: Term<Place>,
) -> Result<(), TermFault>
    requires fits { Fits site.now }
    requires value { 0 < length items.now → HasRoom (Some 1) (level site.now) (depth_of (the_term value)) }
    ensures binds { Binds site.old (taken_from place (numbered 0 (map pattern_of items.now)) (the_term value) (scope_in site.old)) result site.new }
    ensures entries { OnOk result (length site.new.scope.items ≡ length site.old.scope.items + 2 * length items.now) }
{
    let mut whole = value;
    let mut index = 0;
    for item in items.as_slice() {
        let left = site.scope.len();
        let at = At {
            place: inner_place(item),
            name: component(alloc, index)?,
        };
        take_one(site, place, whole, at, item)?;
        whole = variable_term(place, left);
        index += 1;
    }
    Ok(())
}

// The same of each field.
fn take_fields<'a>(
    alloc: Global,
    site: &mut Site<'a>,
    place: Place,
    fields: &'a Items<FPat>,
    value: Term<Place>,
) -> Result<(), TermFault>
    requires fits { Fits site.now }
    requires value { 0 < length fields.now → HasRoom (Some 1) (level site.now) (depth_of (the_term value)) }
    ensures binds { Binds site.old (taken_from place (map field_of fields.now) (the_term value) (scope_in site.old)) result site.new }
    ensures entries { OnOk result (length site.new.scope.items ≡ length site.old.scope.items + 2 * length fields.now) }
{
    let mut whole = value;
    for field in fields.as_slice() {
        let left = site.scope.len();
        let at = field.at.copy(alloc)?;
        take_one(site, place, whole, at, &field.pat)?;
        whole = variable_term(place, left);
    }
    Ok(())
}

// Binds what is left of a record, the last remainder, to this name.
fn name_remainder<'a>(scope: &mut Vec<Option<&'a [u8]>>, name: &'a [u8])
    ensures entries { scope_of scope.new.items ≡ named_remainder name.now (scope_of scope.old.items) }
    ensures length { length scope.new.items ≡ length scope.old.items }
{
    let count = scope.len();
    if count >= 2 {
        scope[count - 2] = Some(name);
    }
}

/// Binds the variable at a position to a pattern, unless that is a name: then it is bound already. It refuses as `bound_to` does.
#[cycle(bind)]
#[inline(never)]
pub fn bind_later<'a>(
    alloc: Global,
    site: &mut Site<'a>,
    place: Place,
    pattern: &'a Pat,
    at: usize,
) -> Result<(), TermFault>
    requires fits { Fits site.now }
    requires at { at ≤ scope_limit }
    ensures { Binds site.old (later_bound (its_name (pattern_of pattern.now)) (pattern_of pattern.now) place at (scope_in site.old)) result site.new }
{
    match its_name(pattern) {
        Some(_) => Ok(()),
        None => {
            let value = variable_term(place, at);
            bound_to(alloc, site, inner_place(pattern), pattern, value)
        }
    }
}

// Binds the components of a tuple that are no names, the first at this position.
#[cycle(bind)]
fn bind_items<'a>(
    alloc: Global,
    site: &mut Site<'a>,
    items: &'a Items<Pat>,
    first: usize,
) -> Result<(), TermFault>
    requires fits { Fits site.now }
    requires entries { first + 2 * length items.now ≤ length site.now.scope.items + 1 }
    ensures { Binds site.old (all_later (map pattern_of items.now) first (scope_in site.old)) result site.new }
{
    let mut at = first;
    for item in items.as_slice() {
        bind_later(alloc, site, inner_place(item), item, at)?;
        at += 2;
    }
    Ok(())
}

// The same of fields.
#[cycle(bind)]
fn bind_parts<'a>(
    alloc: Global,
    site: &mut Site<'a>,
    fields: &'a Items<FPat>,
    first: usize,
) -> Result<(), TermFault>
    requires fits { Fits site.now }
    requires entries { first + 2 * length fields.now ≤ length site.now.scope.items + 1 }
    ensures { Binds site.old (all_later (map (λ f. f.pattern) (map field_of fields.now)) first (scope_in site.old)) result site.new }
{
    let mut at = first;
    for field in fields.as_slice() {
        let place = inner_place(&field.pat);
        bind_later(alloc, site, place, &field.pat, at)?;
        at += 2;
    }
    Ok(())
}

// Binds a term to a tuple: all components are taken first.
#[cycle(bind)]
fn bind_tuple<'a>(
    alloc: Global,
    site: &mut Site<'a>,
    place: Place,
    items: &'a Items<Pat>,
    value: Term<Place>,
) -> Result<(), TermFault>
    requires fits { Fits site.now }
    requires value { 0 < length items.now → HasRoom (Some 1) (level site.now) (depth_of (the_term value)) }
    ensures { Binds site.old (tuple_bound place (map pattern_of items.now) (the_term value) (scope_in site.old)) result site.new }
{
    let first = site.scope.len() + 1;
    take_components(alloc, site, place, items, value)?;
    bind_items(alloc, site, items, first)
}

// Binds a term to fields.
#[cycle(bind)]
fn bind_fields<'a>(
    alloc: Global,
    site: &mut Site<'a>,
    place: Place,
    fields: &'a Items<FPat>,
    value: Term<Place>,
) -> Result<(), TermFault>
    requires fits { Fits site.now }
    requires value { 0 < length fields.now → HasRoom (Some 1) (level site.now) (depth_of (the_term value)) }
    ensures { Binds site.old (parts_bound place (map field_of fields.now) (the_term value) (scope_in site.old)) result site.new }
{
    let first = site.scope.len() + 1;
    take_fields(alloc, site, place, fields, value)?;
    bind_parts(alloc, site, fields, first)
}

// Binds a term to fields, and what is left of it to a name.
#[cycle(bind)]
fn bind_remainder<'a>(
    alloc: Global,
    site: &mut Site<'a>,
    place: Place,
    name: &'a [u8],
    fields: &'a Items<FPat>,
    value: Term<Place>,
) -> Result<(), TermFault>
    requires fits { Fits site.now }
    requires value { 0 < length fields.now → HasRoom (Some 1) (level site.now) (depth_of (the_term value)) }
    ensures { Binds site.old (remainder_bound place name.now (map field_of fields.now) (the_term value) (scope_in site.old)) result site.new }
{
    let first = site.scope.len() + 1;
    take_fields(alloc, site, place, fields, value)?;
    name_remainder(&mut site.scope, name);
    bind_parts(alloc, site, fields, first)
}

/// Observes variables in a term, and makes an entry for it. Want of memory is its one refusal.
#[inline(never)]
pub fn push_seen<'a>(
    alloc: Global,
    site: &mut Site<'a>,
    node: Place,
    seen: &Items<At>,
    place: Place,
    value: Term<Place>,
    entry: Option<&'a [u8]>,
) -> Result<(), Memory>
    requires fits { Fits site.now }
    requires value { level site.now + 1 + depth_of (the_term value) ≤ term_limit }
    ensures { OnOk result (Moved site.old (seen_made node seen.now place (the_term value) (entry_of entry.entry) (scope_in site.old)) site.new (λ rest. rest (scope_in site.new))) }
{
    let seen = positions(alloc, site.scope.as_slice(), seen)?;
    site.frames.push(Frame::LetBang(node, seen, place, value))?;
    site.scope.push(entry)?;
    Ok(())
}
