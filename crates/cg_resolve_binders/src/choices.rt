// Alternatives of a match at a site (docs/LANGUAGE.md, "Desugaring").
#![tactic(auto, using(std::proofs::lemmas::Grind::common_steps, crate::proofs::ChoiceSteps::choice_steps))]

ghost use Rattle.std.specs.Prelude.{◌≡◌, ◌+◌, ◌≤◌, ◌∷◌, map, MatchBool, IfOk, OnOk, MatchOption, Some, None, ⊤};
ghost use Rattle.std.specs.Option.{option_map};
ghost use Rattle.cg_core.specs.Kernels.{the_term};
ghost use Rattle.cg_core.specs.Terms.{term, esac};
ghost use Rattle.cg_resolve_def.specs.Desugar.{depth_of, term_limit};
ghost use Rattle.cg_resolve_def.specs.Terms.{bound_to, last_bound, or_empty};
ghost use Rattle.cg_surface.specs.Exprs.{alt_of};
ghost use Rattle.cg_surface.specs.Patterns.{pattern_of};
ghost use Rattle.cg_resolve_sites.specs.Answers.{Says};
ghost use Rattle.cg_resolve_sites.specs.Sites.{scope_in, inside, level, Fits, Moved, Binds};
ghost use Rattle.cg_resolve_sites.specs.Stands.{under, under_last, under_choices, HasRoom, HasTwo, LacksTwo};
ghost use Rattle.cg_resolve_binders.specs.Parts.{case_made};

use crate::binders::bound_to;
use cg_base::{Items, Memory, Name, Place};
use cg_core::{At, Form, Term};
use cg_resolve_sites::{Frame, Site, TERM_LIMIT, TermFault, inner_place, under};
use cg_surface::{Alt, Pat};
use std::alloc::Global;

/// How many nodes stand above what is matched. None where it is left out.
pub fn under_choices(choices: &Items<Alt>) -> Option<usize>
    ensures value { result ≡ under_choices (map alt_of choices.now) }
    ensures small { MatchOption result ⊤ (λ nodes. nodes ≤ 3) }
{
    match choices.as_slice() {
        [] => Some(0),
        [last] => under_last(last),
        _ => Some(1),
    }
}

// How many nodes stand above what a last alternative is for.
fn under_last(choice: &Alt) -> Option<usize>
    ensures value { result ≡ under_last (alt_of choice.now).con (under (alt_of choice.now).pattern) }
    ensures small { MatchOption result ⊤ (λ nodes. nodes ≤ 3) }
{
    let stands = under(&choice.pat);
    match &choice.con {
        None => stands,
        Some(_) => one_more(stands),
    }
}

// One node more, where there are any.
fn one_more(stands: Option<usize>) -> Option<usize>
    requires { MatchOption stands ⊤ (λ nodes. nodes ≤ 2) }
    ensures value { result ≡ option_map (λ nodes. nodes + 1) stands }
    ensures small { MatchOption result ⊤ (λ nodes. nodes ≤ 3) }
{
    match stands {
        None => None,
        Some(nodes) => Some(nodes + 1),
    }
}

/// Opens the case of an alternative that isn't the last, with its first branch. Want of memory is its one refusal.
#[inline(never)]
pub fn push_case(
    alloc: Global,
    site: &mut Site<'_>,
    choice: &Alt,
    subject: Term<Place>,
    first: Term<Place>,
) -> Result<(), Memory>
    requires fits { Fits site.now }
    requires subject { level site.now + 1 + depth_of (the_term subject) ≤ term_limit }
    requires first { level site.now + 1 + depth_of (the_term first) ≤ term_limit }
    ensures { OnOk result (Moved site.old (case_made (alt_of choice.now) (the_term subject) (the_term first) (scope_in site.old)) site.new (λ rest. rest (scope_in site.new))) }
{
    let at = At {
        place: choice.place,
        name: name_or_empty(alloc, &choice.con)?,
    };
    let payload = inner_place(&choice.pat);
    site.frames
        .push(Frame::Case(choice.place, subject, at, payload, first))?;
    site.scope.push(None)?;
    Ok(())
}

// The name of a constructor, which each alternative but the last has.
fn name_or_empty(alloc: Global, name: &Option<Name>) -> Result<Name, Memory>
    ensures { IfOk result (λ made. made ≡ or_empty name.now) }
{
    match name {
        None => Name::new(alloc, b""),
        Some(name) => name.copy(alloc),
    }
}

/// Binds what a last alternative is for: the payload, where it has a constructor. It refuses as `bound_to` does.
#[inline(never)]
pub fn bind_last<'a>(
    alloc: Global,
    site: &mut Site<'a>,
    choice: &'a Alt,
    subject: Term<Place>,
) -> Result<(), TermFault>
    requires fits { Fits site.now }
    requires subject { HasRoom (under_last (alt_of choice.now).con (under (alt_of choice.now).pattern)) (level site.now) (depth_of (the_term subject)) }
    ensures { Binds site.old (last_bound (alt_of choice.now).place (alt_of choice.now).con (alt_of choice.now).pattern (the_term subject) (scope_in site.old)) result site.new }
{
    match &choice.con {
        None => bound_to(alloc, site, inner_place(&choice.pat), &choice.pat, subject),
        Some(name) => bind_payload(alloc, site, choice.place, name, &choice.pat, subject),
    }
}

// Binds the payload of a last alternative.
fn bind_payload<'a>(
    alloc: Global,
    site: &mut Site<'a>,
    place: Place,
    name: &Name,
    pattern: &'a Pat,
    subject: Term<Place>,
) -> Result<(), TermFault>
    requires fits { Fits site.now }
    requires subject { HasRoom (option_map (λ nodes. nodes + 1) (under (pattern_of pattern.now))) (level site.now) (depth_of (the_term subject)) }
    ensures { Binds site.old (bound_to place (pattern_of pattern.now) (term place (esac (record { place = place; name = name.now }) (the_term subject))) (scope_in site.old)) result site.new }
{
    if !has_two(site.level(), under(pattern)) {
        return Err(TermFault::TooDeep);
    }
    let payload = escaped(alloc, place, name, subject)?;
    bound_to(alloc, site, place, pattern, payload)
}

// The payload of a term that is this alternative.
fn escaped(
    alloc: Global,
    place: Place,
    name: &Name,
    value: Term<Place>,
) -> Result<Term<Place>, Memory>
    ensures { IfOk result (λ t. the_term t ≡ term place (esac (record { place = place; name = name.now }) (the_term value))) }
{
    let name = name.copy(alloc)?;
    let form = Form::Esac(At { place, name }, Box::new(alloc, value)?);
    Ok(Term { note: place, form })
}

// Whether two nodes, one below the other, keep the limit that far down.
fn has_two(level: usize, stands: Option<usize>) -> bool
    requires level { level ≤ term_limit }
    requires stands { MatchOption stands ⊤ (λ nodes. nodes ≤ 2) }
    ensures { MatchBool result (HasTwo stands level) (LacksTwo stands level) }
{
    match stands {
        None => true,
        Some(nodes) => level + nodes + 2 <= TERM_LIMIT,
    }
}

/// The whole term of a site, with this one where the rest goes, which keeps the limit if any does there. It answers that the
/// whole is too deep exactly where it is; want of memory is its one other refusal.
#[inline(never)]
pub fn close_with(
    alloc: Global,
    site: &mut Site<'_>,
    rest: Term<Place>,
) -> Result<Term<Place>, TermFault>
    requires fits { Fits site.now }
    requires rest { HasRoom (Some 0) (level site.now) (depth_of (the_term rest)) }
    ensures { Says site.old.above (inside site.old (the_term rest)) result }
{
    if site.level() >= TERM_LIMIT {
        return Err(TermFault::TooDeep);
    }
    Ok(site.close(alloc, rest)?)
}
