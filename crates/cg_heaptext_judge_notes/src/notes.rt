// What was noted of what was met.
ghost use Rattle.std.specs.Prelude.{◌≡◌, ℕ, List, [], ◌∷◌, Some, IfOk};
ghost use Rattle.std.specs.List.{list_any};
ghost use Rattle.cg_base.specs.Types.{type_of};
ghost use Rattle.cg_heaptext_def.specs.Footprints.{position_from};
ghost use Rattle.cg_heaptext_def.specs.Reading.{mention as met};
ghost use Rattle.cg_heaptext_judge_def.specs.Judging.{kept, start};
ghost use Rattle.cg_heaptext_judge_notes.specs.Notes.{IsNoted, Notes, is_shared_at, is_unlike_at};

use crate::fault::JudgeFault;
use crate::types::{is_written, same_shape};
use cg_base::{Items, Memory, Place, Ty};
use std::alloc::Global;

/// A cell that is read: the place of the sign that mentions it, the position of its entry, and the type.
#[derive(Drop)]
pub struct Mentioned<'t> {
    pub place: Place,
    pub entry: usize,
    pub ty: &'t Ty,
}

/// What is noted of what is met as the argument of a heap file is read (docs/LANGUAGE.md, "Heap files"): the cells that are read, in order; the
/// earliest number that passes its type; and the first alias.
#[derive(Drop)]
pub struct Judged<'t> {
    pub mentions: Items<Mentioned<'t>>,
    pub over: Option<Place>,
    pub aliased: Option<Place>,
}

impl<'t> Judged<'t> {
    /// Nothing is noted.
    pub fn new(alloc: Global) -> Judged<'t>
        ensures { (ns : List ℕ) → IsNoted ns result start }
    {
        Judged {
            mentions: Items::new(alloc),
            over: None,
            aliased: None,
        }
    }

    /// Notes that at this place stands the sign of an address, that of this entry, whose cell is read at this type; or tells that this doesn't
    /// fit, where the cell was read at a type of another shape before; or `Memory` where memory is wanting (docs/LANGUAGE.md, "Heap files", H4
    /// and H6). It takes time in proportion to what was noted before.
    pub fn mention(
        &mut self,
        alloc: Global,
        place: Place,
        entry: usize,
        ty: &'t Ty,
    ) -> Result<(), JudgeFault>
        ensures { (ns : List ℕ) (q : ℕ) → position_from 0 ns q ≡ Some entry → Notes ns self.old (met place q (type_of ty.now) ∷ []) result self.new }
    {
        if is_unlike(alloc, self.mentions.as_slice(), entry, ty)? {
            return Err(JudgeFault::Misfit(place));
        }
        let is_alias = is_shared(self.mentions.as_slice(), entry, ty);
        self.aliased = first_alias(self.aliased, is_alias, place);
        self.mentions.push(Mentioned { place, entry, ty })?;
        Ok(())
    }
}

// The alias that was found before, where there is one, or else this place, if it is one.
fn first_alias(found: Option<Place>, is: bool, place: Place) -> Option<Place>
    ensures { result ≡ kept found is place }
{
    match found {
        Some(other) => Some(other),
        None if is => Some(place),
        None => None,
    }
}

// Whether this is the mentioned entry, and was read at a type of another shape.
fn is_unlike_mention(
    alloc: Global,
    mention: &Mentioned,
    entry: usize,
    ty: &Ty,
) -> Result<bool, Memory>
    ensures { IfOk result (λ is. is ≡ is_unlike_at entry (type_of ty.now) mention.now) }
{
    if mention.entry != entry {
        return Ok(false);
    }
    let same = same_shape(alloc, mention.ty, ty)?;
    Ok(!same)
}

// Whether an entry was read at a type of another shape.
fn is_unlike(alloc: Global, mentions: &[Mentioned], entry: usize, ty: &Ty) -> Result<bool, Memory>
    ensures { IfOk result (λ is. is ≡ list_any (is_unlike_at entry (type_of ty.now)) mentions.now) }
{
    for mention in mentions {
        if is_unlike_mention(alloc, mention, entry, ty)? {
            return Ok(true);
        }
    }
    Ok(false)
}

// Whether this is the mentioned entry, and is an alias where it is read at this type.
fn is_shared_mention(mention: &Mentioned, entry: usize, ty: &Ty) -> bool
    ensures { result ≡ is_shared_at entry (type_of ty.now) mention.now }
{
    mention.entry == entry && (is_written(mention.ty) || is_written(ty))
}

// Whether an entry is an alias where it is read at this type.
fn is_shared(mentions: &[Mentioned], entry: usize, ty: &Ty) -> bool
    ensures { result ≡ list_any (is_shared_at entry (type_of ty.now)) mentions.now }
{
    for mention in mentions {
        if is_shared_mention(mention, entry, ty) {
            return true;
        }
    }
    false
}
