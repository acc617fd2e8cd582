// The part of a type that a node names, with the tests on it that its row asks for (docs/LANGUAGE.md, "Certificates").
#![tactic(auto, unfolding(crate::specs::Held::alternative_held, crate::specs::Held::last_held, crate::specs::Held::member_held, crate::specs::Held::put_held, crate::specs::Held::taken_held))]

ghost use Rattle.std.specs.Prelude.{◌≡◌};
ghost use Rattle.std.specs.Option.{option_copied};
ghost use Rattle.cg_base.specs.Types.{type_of};
ghost use Rattle.cg_certcheck_gots.specs.Held as rows;
ghost use Rattle.cg_certcheck_context.specs.View.{Agrees};
ghost use Rattle.cg_check_pieces.specs.Boxed.{in_box};
ghost use Rattle.cg_check_pieces.specs.View.{bounds_of, way_of};
ghost use Rattle.cg_typing_parts.specs.Views.{piece_at};
ghost use Rattle.cg_certcheck_def.specs.Events.{meets as meets_of};
ghost use Rattle.cg_typing.specs.Parts as parts;

use cg_base::{Name, Part, Ty};
use cg_cert::CertFault;
use cg_certcheck_context::{Source, meets};
use cg_check_pieces::{boxed, is_left, is_there};
use cg_kinds::kinds_of;
use cg_typing_parts::{alternative_in, field_in, held, is_last, is_read_only, may_be_put_over};

// Whether what a part holds is the type that is checked against, if any is.
fn meets_held(direction: Option<&Ty>, part: Option<&Part>) -> bool
    ensures { result ≡ meets_of (way_of (option_copied direction.entry)) (parts.held (piece_at (option_copied part.entry))) }
{
    match part {
        Some(part) => meets(direction, &part.ty),
        None => meets(direction, &Ty::Unit),
    }
}

/// What an alternative holds, of a match on it or of a value of it: it is there and not handled before. Else C2 with the number of the node;
/// and `Memory` for want of memory.
#[inline(never)]
pub fn alternative_type(
    source: &Source,
    number: u64,
    name: &Name,
    ty: &Ty,
) -> Result<Box<Ty>, CertFault>
    ensures { Agrees in_box result (rows.alternative_held number name.now (type_of ty.now)) }
{
    let part = alternative_in(name, ty);
    if !is_left(part) {
        return Err(CertFault::C2(number));
    }
    Ok(boxed(source.alloc, held(source.alloc, part))?)
}

/// What the last alternative holds: it is there, not handled before, and the only one left, and what it holds is the type that is checked
/// against, if any is. Else C2 with the number of the node; and `Memory` for want of memory.
#[inline(never)]
pub fn last_type(
    source: &Source,
    number: u64,
    direction: Option<&Ty>,
    name: &Name,
    ty: &Ty,
) -> Result<Box<Ty>, CertFault>
    ensures { Agrees in_box result (rows.last_held number (way_of (option_copied direction.entry)) name.now (type_of ty.now)) }
{
    let part = alternative_in(name, ty);
    if !is_left(part) {
        return Err(CertFault::C2(number));
    }
    if !is_last(name, ty) {
        return Err(CertFault::C2(number));
    }
    if !meets_held(direction, part) {
        return Err(CertFault::C2(number));
    }
    Ok(boxed(source.alloc, held(source.alloc, part))?)
}

/// What a field holds that is read as a member: it is there and left, the record may be shared, and what the field holds is the type
/// that is checked against, if any is. Else C2 with the number of the node; and `Memory` for want of memory.
#[inline(never)]
pub fn member_type(
    source: &Source,
    number: u64,
    direction: Option<&Ty>,
    name: &Name,
    ty: &Ty,
) -> Result<Box<Ty>, CertFault>
    ensures { Agrees in_box result (rows.member_held (bounds_of source.now.vars.now) number (way_of (option_copied direction.entry)) name.now (type_of ty.now)) }
{
    let part = field_in(name, ty);
    if !is_left(part) {
        return Err(CertFault::C2(number));
    }
    if !kinds_of(ty, source.vars).share {
        return Err(CertFault::C2(number));
    }
    if !meets_held(direction, part) {
        return Err(CertFault::C2(number));
    }
    Ok(boxed(source.alloc, held(source.alloc, part))?)
}

/// What a field holds that is taken: it is there and left, in a record that isn't read-only. Else C2 with the number of the node; and
/// `Memory` for want of memory.
#[inline(never)]
pub fn taken_type(source: &Source, number: u64, name: &Name, ty: &Ty) -> Result<Box<Ty>, CertFault>
    ensures { Agrees in_box result (rows.taken_held number name.now (type_of ty.now)) }
{
    let part = field_in(name, ty);
    if !is_left(part) {
        return Err(CertFault::C2(number));
    }
    if is_read_only(ty) {
        return Err(CertFault::C2(number));
    }
    Ok(boxed(source.alloc, held(source.alloc, part))?)
}

/// What a field holds that is put: it is there, in a record that isn't read-only, and taken or may be dropped. Else C2 with the number of
/// the node; and `Memory` for want of memory.
#[inline(never)]
pub fn put_type(source: &Source, number: u64, name: &Name, ty: &Ty) -> Result<Box<Ty>, CertFault>
    ensures { Agrees in_box result (rows.put_held (bounds_of source.now.vars.now) number name.now (type_of ty.now)) }
{
    let part = field_in(name, ty);
    if !is_there(part) {
        return Err(CertFault::C2(number));
    }
    if is_read_only(ty) {
        return Err(CertFault::C2(number));
    }
    if !may_be_put_over(source.vars, part) {
        return Err(CertFault::C2(number));
    }
    Ok(boxed(source.alloc, held(source.alloc, part))?)
}
