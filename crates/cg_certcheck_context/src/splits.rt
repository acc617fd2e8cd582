// Whether marks split a context.
#![tactic(auto, using(crate::proofs::SplitSteps::split_steps))]

ghost use Rattle.std.specs.Prelude.{◌≡◌, [], IfOk, None, Some, false, map};
ghost use Rattle.cg_base.specs.Types.{type_of};
ghost use Rattle.cg_certcheck_context.specs.Contexts.{context_of, entry_of, fits_present as fits_present_of, found_type, split_in_turn};
ghost use Rattle.cg_check_pieces.specs.View.{bounds_of, is_seen_at as is_seen_at_of};
ghost use Rattle.cg_core.specs.Kernels.{the_field};
ghost use Rattle.cg_core.specs.Terms.{to_named};
ghost use Rattle.cg_kinds.specs.Kinds.{kinds};
ghost use Rattle.cg_certcheck_def.specs.Events.{field_strings};
ghost use Rattle.cg_certcheck_def.specs.Tests.{fits as fits_of, splits as splits_of, splits_where};

use crate::context::{Entry, seconds};
use crate::source::Source;
use cg_base::{Items, Memory, Place, Ty};
use cg_check_pieces::is_seen_at;
use cg_check_uses::seen_places;
use cg_core::{FieldTerm, Mark, Seen};
use cg_kinds::kinds_of;

// Whether a mark fits a present variable.
fn fits_present(shared: bool, observed: bool, mark: Mark) -> bool
    ensures { result ≡ fits_present_of shared observed mark }
{
    match mark {
        Mark::Gone => false,
        Mark::Left | Mark::Right => !observed,
        Mark::Both => shared && !observed,
        Mark::Seen => observed,
    }
}

// The same of one of this type, whose kinds are asked for where it goes to both sides alone.
fn fits_type(source: &Source, observed: bool, mark: Mark, ty: &Ty) -> bool
    ensures { result ≡ fits_of (bounds_of source.now.vars.now) observed mark (Some (type_of ty.now)) }
{
    match mark {
        Mark::Gone => false,
        Mark::Left | Mark::Right => !observed,
        Mark::Both => kinds_of(ty, source.vars).share && !observed,
        Mark::Seen => observed,
    }
}

// Whether a variable that may be dropped may be shared as well, where it wasn't found when it was bound.
fn droppable_shares(source: &Source, ty: &Ty) -> bool
    ensures { result ≡ (kinds (bounds_of source.now.vars.now) (found_type (bounds_of source.now.vars.now) false (type_of ty.now))).share }
{
    let kinds = kinds_of(ty, source.vars);
    !kinds.drop || kinds.share
}

// The same of one that may be dropped.
fn fits_droppable(source: &Source, observed: bool, mark: Mark, ty: &Ty, shared: bool) -> bool
    ensures { result ≡ fits_of (bounds_of source.now.vars.now) observed mark (Some (found_type (bounds_of source.now.vars.now) shared (type_of ty.now))) }
{
    match mark {
        Mark::Gone => false,
        Mark::Left | Mark::Right => !observed,
        Mark::Both => (shared || droppable_shares(source, ty)) && !observed,
        Mark::Seen => observed,
    }
}

// Whether it fits one that is gone.
fn fits_gone(observed: bool, mark: Mark) -> bool
    ensures { result ≡ fits_of [] observed mark None }
{
    match mark {
        Mark::Gone => !observed,
        Mark::Left | Mark::Right | Mark::Both | Mark::Seen => false,
    }
}

// Whether it fits a variable.
fn fits(source: &Source, observed: bool, mark: Mark, entry: Entry) -> bool
    ensures { result ≡ fits_of (bounds_of source.now.vars.now) observed mark (entry_of (bounds_of source.now.vars.now) entry.entry) }
{
    match entry {
        Entry::Gone => fits_gone(observed, mark),
        Entry::Present(ty) => fits_type(source, observed, mark, ty),
        Entry::Droppable(ty, shared) => fits_droppable(source, observed, mark, ty, shared),
        Entry::Observed(_) => fits_present(true, observed, mark),
    }
}

// Whether marks split a context where these variables are observed.
#[tactic(auto, using(crate::proofs::SplitSteps::where_steps))]
fn splits_seen(source: &Source, context: &[Entry], seen: &[Option<Place>], marks: &[Mark]) -> bool
    ensures { result ≡ splits_where (bounds_of source.now.vars.now) (λ i. is_seen_at_of seen.now i) marks.now (context_of (bounds_of source.now.vars.now) context.now) }
{
    if marks.len() != context.len() {
        return false;
    }
    for i in 0..marks.len() {
        if !fits(source, is_seen_at(seen, i), marks[i], context[i]) {
            return false;
        }
    }
    true
}

/// Whether marks split a context where nothing is observed.
pub fn splits(source: &Source, context: &[Entry], marks: &[Mark]) -> bool
    ensures { result ≡ splits_of (bounds_of source.now.vars.now) [] marks.now (context_of (bounds_of source.now.vars.now) context.now) }
{
    splits_seen(source, context, &[], marks)
}

/// Whether marks split a context where a `let!` observes these. Want of memory is its one refusal.
#[inline(never)]
pub fn splits_observed(
    source: &Source,
    context: &[Entry],
    observers: &Items<Seen>,
    marks: &[Mark],
) -> Result<bool, Memory>
    ensures { IfOk result (λ fine. fine ≡ splits_of (bounds_of source.now.vars.now) observers.now marks.now (context_of (bounds_of source.now.vars.now) context.now)) }
{
    let seen = seen_places(source.alloc, context.len(), observers)?;
    Ok(splits_seen(source, context, &seen, marks))
}

// Whether each mark string splits what the one before it leaves. Want of memory is its one refusal.
#[tactic(auto, using(crate::proofs::SplitSteps::turn_steps))]
fn split_all(source: &Source, context: &[Entry], strings: &[Items<Mark>]) -> Result<bool, Memory>
    ensures { IfOk result (λ fine. fine ≡ split_in_turn (bounds_of source.now.vars.now) strings.now (context_of (bounds_of source.now.vars.now) context.now)) }
{
    let mut rest = context.to_vec(source.alloc)?;
    for string in strings {
        let marks = string.as_slice();
        if !splits(source, &rest, marks) {
            return Ok(false);
        }
        rest = seconds(source, marks, &rest)?;
    }
    Ok(true)
}

/// Whether mark strings split a context between the fields of a record. Want of memory is its one refusal.
#[tactic(auto, using(crate::proofs::SplitSteps::field_steps))]
#[inline(never)]
pub fn splits_fields(
    source: &Source,
    context: &[Entry],
    fields: &Items<FieldTerm<Place>>,
    strings: &[Items<Mark>],
) -> Result<bool, Memory>
    ensures { IfOk result (λ fine. fine ≡ field_strings (bounds_of source.now.vars.now) (to_named (map the_field fields.now)) strings.now (context_of (bounds_of source.now.vars.now) context.now)) }
{
    if strings.len() != fields.len().saturating_sub(1) {
        return Ok(false);
    }
    split_all(source, context, strings)
}
