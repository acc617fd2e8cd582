// The part of a type that a node names, with the tests on it in their order.
#![tactic(auto)]

ghost use Rattle.std.specs.Option.{option_copied};
ghost use Rattle.std.specs.Prelude.{◌≡◌, Ok, not};
ghost use Rattle.cg_base.specs.Types.{type_of};
ghost use Rattle.cg_check_def.specs.Pass.{need as need_of};
ghost use Rattle.cg_check_context.specs.View.{Agrees, itself};
ghost use Rattle.cg_typing_parts.specs.Views.{piece_at};
ghost use Rattle.cg_check_pieces.specs.View.{bounds_of};
ghost use Rattle.cg_faults.specs.declared.rule.Rule.TheVariants.{K6, K7, T1, T5, T6, T7, T8, T9, T10};
ghost use Rattle.cg_typing.specs.Contexts.{shares};
ghost use Rattle.cg_typing.specs.Parts as parts;

use crate::source::Source;
use crate::stop::Stop;
use cg_base::{Name, Part, Place, Ty};
use cg_check_pieces::{is_left, is_there};
use cg_core::At;
use cg_faults::Rule;
use cg_kinds::kinds_of;
use cg_typing_parts::{
    alternative_in, field_in, held, is_last, is_read_only, is_variant, may_be_put_over,
};

/// A rule that has to hold here.
#[inline(never)]
pub fn need(rule: Rule, place: Place, holds: bool) -> Result<(), Stop>
    ensures { Agrees itself result (need_of rule place holds (Ok tt)) }
{
    if holds {
        Ok(())
    } else {
        Err(Stop::Rule(rule, place))
    }
}

// The type of a part, or unit where there is none; want of memory stops the pass.
fn type_held(source: &Source, part: Option<&Part>) -> Result<Ty, Stop>
    ensures { Agrees type_of result (Ok (parts.held (piece_at (option_copied part.entry)))) }
{
    match held(source.alloc, part) {
        Ok(ty) => Ok(ty),
        Err(memory) => Err(memory.into()),
    }
}

/// What an alternative holds, which is there (T8) and not handled before (T10).
#[inline(never)]
pub fn alternative_type(source: &Source, at: &At, ty: &Ty) -> Result<Ty, Stop>
    ensures { Agrees type_of result (need_of T8 at.now.place (parts.is_there (parts.alternative_in at.now.name (type_of ty.now)))
        (need_of T10 at.now.place (parts.is_left (parts.alternative_in at.now.name (type_of ty.now)))
        (Ok (parts.held (parts.alternative_in at.now.name (type_of ty.now)))))) }
{
    let part = alternative_in(&at.name, ty);
    if !is_there(part) {
        return Err(Stop::Rule(Rule::T8, at.place));
    }
    if !is_left(part) {
        return Err(Stop::Rule(Rule::T10, at.place));
    }
    type_held(source, part)
}

/// What the last alternative holds, which is there (T8), not handled before (T10), and the only one left (T9).
#[inline(never)]
pub fn last_type(source: &Source, at: &At, ty: &Ty) -> Result<Ty, Stop>
    ensures { Agrees type_of result (need_of T8 at.now.place (parts.is_there (parts.alternative_in at.now.name (type_of ty.now)))
        (need_of T10 at.now.place (parts.is_left (parts.alternative_in at.now.name (type_of ty.now)))
        (need_of T9 at.now.place (parts.is_last at.now.name (type_of ty.now))
        (Ok (parts.held (parts.alternative_in at.now.name (type_of ty.now))))))) }
{
    let part = alternative_in(&at.name, ty);
    if !is_there(part) {
        return Err(Stop::Rule(Rule::T8, at.place));
    }
    if !is_left(part) {
        return Err(Stop::Rule(Rule::T10, at.place));
    }
    if !is_last(&at.name, ty) {
        return Err(Stop::Rule(Rule::T9, at.place));
    }
    type_held(source, part)
}

/// What a field holds that is read as a member: it is there (T5) and left (T6), and the record may be shared (K6).
#[inline(never)]
pub fn member_type(source: &Source, at: &At, ty: &Ty) -> Result<Ty, Stop>
    ensures { Agrees type_of result (need_of T5 at.now.place (parts.is_there (parts.field_in at.now.name (type_of ty.now)))
        (need_of T6 at.now.place (parts.is_left (parts.field_in at.now.name (type_of ty.now)))
        (need_of K6 at.now.place (shares (bounds_of source.now.vars.now) (type_of ty.now))
        (Ok (parts.held (parts.field_in at.now.name (type_of ty.now))))))) }
{
    let part = field_in(&at.name, ty);
    if !is_there(part) {
        return Err(Stop::Rule(Rule::T5, at.place));
    }
    if !is_left(part) {
        return Err(Stop::Rule(Rule::T6, at.place));
    }
    if !kinds_of(ty, source.vars).share {
        return Err(Stop::Rule(Rule::K6, at.place));
    }
    type_held(source, part)
}

/// What a field holds that is taken: it is there (T5) in a record that isn't read-only (T7), and left (T6).
#[inline(never)]
pub fn taken_type(source: &Source, at: &At, ty: &Ty) -> Result<Ty, Stop>
    ensures { Agrees type_of result (need_of T5 at.now.place (parts.is_there (parts.field_in at.now.name (type_of ty.now)))
        (need_of T7 at.now.place (not (parts.is_read_only (type_of ty.now)))
        (need_of T6 at.now.place (parts.is_left (parts.field_in at.now.name (type_of ty.now)))
        (Ok (parts.held (parts.field_in at.now.name (type_of ty.now))))))) }
{
    let part = field_in(&at.name, ty);
    if !is_there(part) {
        return Err(Stop::Rule(Rule::T5, at.place));
    }
    if is_read_only(ty) {
        return Err(Stop::Rule(Rule::T7, at.place));
    }
    if !is_left(part) {
        return Err(Stop::Rule(Rule::T6, at.place));
    }
    type_held(source, part)
}

/// What a field holds that is put: it is there (T5) in a record that isn't read-only (T7), and taken or may be dropped (K7).
#[inline(never)]
pub fn put_type(source: &Source, at: &At, ty: &Ty) -> Result<Ty, Stop>
    ensures { Agrees type_of result (need_of T5 at.now.place (parts.is_there (parts.field_in at.now.name (type_of ty.now)))
        (need_of T7 at.now.place (not (parts.is_read_only (type_of ty.now)))
        (need_of K7 at.now.place (parts.may_be_put_over (bounds_of source.now.vars.now) (parts.field_in at.now.name (type_of ty.now)))
        (Ok (parts.held (parts.field_in at.now.name (type_of ty.now))))))) }
{
    let part = field_in(&at.name, ty);
    if !is_there(part) {
        return Err(Stop::Rule(Rule::T5, at.place));
    }
    if is_read_only(ty) {
        return Err(Stop::Rule(Rule::T7, at.place));
    }
    if !may_be_put_over(source.vars, part) {
        return Err(Stop::Rule(Rule::K7, at.place));
    }
    type_held(source, part)
}

/// What an alternative holds into which a value goes: the type is a variant type (T1) that has it, not handled (T8).
#[inline(never)]
pub fn injected_type(source: &Source, place: Place, name: &Name, ty: &Ty) -> Result<Ty, Stop>
    ensures { Agrees type_of result (need_of T1 place (parts.is_variant (type_of ty.now))
        (need_of T8 place (parts.is_left (parts.alternative_in name.now (type_of ty.now)))
        (Ok (parts.held (parts.alternative_in name.now (type_of ty.now)))))) }
{
    if !is_variant(ty) {
        return Err(Stop::Rule(Rule::T1, place));
    }
    let part = alternative_in(name, ty);
    if !is_left(part) {
        return Err(Stop::Rule(Rule::T8, place));
    }
    type_held(source, part)
}
