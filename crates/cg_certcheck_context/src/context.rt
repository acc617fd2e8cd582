// Contexts: which variables are present, and with which types.
#![tactic(auto, using(crate::proofs::ContextSteps::context_steps))]

ghost use Rattle.std.specs.Prelude.{◌≡◌, IfOk, List, Some};
ghost use Rattle.cg_base.specs.declared.kind.Kinds.{Kinds};
ghost use Rattle.cg_base.specs.Types.{type_of};
ghost use Rattle.cg_certcheck_context.specs.Contexts.{context_of, entry_of, found_type, is_found as is_found_of};
ghost use Rattle.cg_core.specs.declared.derivation.Mark.TheVariants.{Seen};
ghost use Rattle.cg_kinds.specs.Kinds.{or_unit};
ghost use Rattle.cg_check_pieces.specs.View.{bounds_of};
ghost use Rattle.cg_certcheck_def.specs.Tests.{is_present as is_present_of};
ghost use Rattle.cg_typing.specs.Contexts.{first, first_side, look, push, second, second_side};

use crate::source::Source;
use cg_base::{Memory, Ty};
use cg_core::Mark;
use cg_kinds::{bang, kinds_of};

/// A variable of a context: gone, or present with its type; droppable, where it was found when it was bound that its type may be dropped,
/// and whether it may be shared too; or observed by a `let!`. Kinds cost the size of the type: a test asks for them of `Present` ones
/// alone, and of droppable ones where it then refuses.
#[derive(Clone, Copy)]
pub enum Entry<'a> {
    Gone,
    Present(&'a Ty),
    Droppable(&'a Ty, bool),
    Observed(&'a Ty),
}

// Whether a type may be dropped, and shared too where that is said.
fn is_found(source: &Source, ty: &Ty, shared: bool) -> bool
    ensures { result ≡ is_found_of (bounds_of source.now.vars.now) shared (type_of ty.now) }
{
    let kinds = kinds_of(ty, source.vars);
    kinds.drop && (!shared || kinds.share)
}

/// A variable that is present with this type.
pub fn present<'a>(source: &Source, ty: &'a Ty) -> Entry<'a>
    ensures { entry_of (bounds_of source.now.vars.now) result ≡ Some (type_of ty.now) }
{
    let kinds = kinds_of(ty, source.vars);
    if kinds.drop {
        Entry::Droppable(ty, kinds.share)
    } else {
        Entry::Present(ty)
    }
}

// What a mark leaves of a variable on the first side, and on the second.
fn on_first(mark: Mark, entry: Entry) -> Entry
    ensures { (vars : List Kinds) → entry_of vars result ≡ first_side mark (entry_of vars entry.entry) }
{
    match mark {
        Mark::Left | Mark::Both => entry,
        Mark::Gone | Mark::Right => Entry::Gone,
        Mark::Seen => observed(entry),
    }
}

fn observed(entry: Entry) -> Entry
    ensures { (vars : List Kinds) → entry_of vars result ≡ first_side Seen (entry_of vars entry.entry) }
{
    match entry {
        Entry::Gone => Entry::Gone,
        Entry::Present(ty) => Entry::Observed(ty),
        Entry::Droppable(ty, _) => Entry::Observed(ty),
        Entry::Observed(ty) => Entry::Observed(ty),
    }
}

fn on_second(mark: Mark, entry: Entry) -> Entry
    ensures { (vars : List Kinds) → entry_of vars result ≡ second_side mark (entry_of vars entry.entry) }
{
    match mark {
        Mark::Right | Mark::Both | Mark::Seen => entry,
        Mark::Gone | Mark::Left => Entry::Gone,
    }
}

/// What the marks of a split leave of a context on its first side. Want of memory is its one refusal.
#[inline(never)]
pub fn firsts<'a>(
    source: &Source,
    marks: &[Mark],
    context: &[Entry<'a>],
) -> Result<Vec<Entry<'a>>, Memory>
    ensures { IfOk result (λ side. context_of (bounds_of source.now.vars.now) side.items ≡ first marks.now (context_of (bounds_of source.now.vars.now) context.now)) }
{
    let count = marks.len().min(context.len());
    let mut side = Vec::new(source.alloc);
    for i in 0..count {
        side.push(on_first(marks[i], context[i]))?;
    }
    Ok(side)
}

/// What they leave on its second side. Want of memory is its one refusal.
#[inline(never)]
pub fn seconds<'a>(
    source: &Source,
    marks: &[Mark],
    context: &[Entry<'a>],
) -> Result<Vec<Entry<'a>>, Memory>
    ensures { IfOk result (λ side. context_of (bounds_of source.now.vars.now) side.items ≡ second marks.now (context_of (bounds_of source.now.vars.now) context.now)) }
{
    let count = marks.len().min(context.len());
    let mut side = Vec::new(source.alloc);
    for i in 0..count {
        side.push(on_second(marks[i], context[i]))?;
    }
    Ok(side)
}

// An entry whose type is lent for as long as itself.
fn lent<'a>(entry: &'a Entry) -> Entry<'a>
    ensures { (vars : List Kinds) → entry_of vars result ≡ entry_of vars entry.now }
{
    match entry {
        Entry::Gone => Entry::Gone,
        Entry::Present(ty) => Entry::Present(&**ty),
        Entry::Droppable(ty, shared) => Entry::Droppable(&**ty, *shared),
        Entry::Observed(ty) => Entry::Observed(&**ty),
    }
}

// The second side, whose types are lent for as long as the context.
fn seconds_lent<'a>(
    source: &Source,
    marks: &[Mark],
    context: &'a [Entry],
) -> Result<Vec<Entry<'a>>, Memory>
    ensures { IfOk result (λ side. context_of (bounds_of source.now.vars.now) side.items ≡ second marks.now (context_of (bounds_of source.now.vars.now) context.now)) }
{
    let count = marks.len().min(context.len());
    let mut side = Vec::new(source.alloc);
    for i in 0..count {
        side.push(on_second(marks[i], lent(&context[i])))?;
    }
    Ok(side)
}

/// The second side with a new variable of this type. Want of memory is its one refusal.
#[inline(never)]
pub fn opened<'a>(
    source: &Source,
    marks: &[Mark],
    context: &'a [Entry],
    ty: &'a Ty,
) -> Result<Vec<Entry<'a>>, Memory>
    ensures { IfOk result (λ side. context_of (bounds_of source.now.vars.now) side.items ≡ push (second marks.now (context_of (bounds_of source.now.vars.now) context.now)) (Some (type_of ty.now))) }
{
    let mut side = seconds_lent(source, marks, context)?;
    side.push(present(source, ty))?;
    Ok(side)
}

/// The second side with two new variables of these types. Want of memory is its one refusal.
#[inline(never)]
pub fn opened_twice<'a>(
    source: &Source,
    marks: &[Mark],
    context: &'a [Entry],
    ty: &'a Ty,
    last: &'a Ty,
) -> Result<Vec<Entry<'a>>, Memory>
    ensures { IfOk result (λ side. context_of (bounds_of source.now.vars.now) side.items ≡ push (push (second marks.now (context_of (bounds_of source.now.vars.now) context.now)) (Some (type_of ty.now))) (Some (type_of last.now))) }
{
    let mut side = opened(source, marks, context, ty)?;
    side.push(present(source, last))?;
    Ok(side)
}

// What a context says of a variable; of one past its end, that it is gone.
fn entry_at<'a>(context: &[Entry<'a>], var: usize) -> Entry<'a>
    ensures { (vars : List Kinds) → entry_of vars result ≡ look (context_of vars context.now) var }
{
    if var < context.len() {
        context[var]
    } else {
        Entry::Gone
    }
}

/// Whether a variable is present.
pub(crate) fn is_present(context: &[Entry], var: usize) -> bool
    ensures { (vars : List Kinds) → result ≡ is_present_of (look (context_of vars context.now) var) }
{
    match entry_at(context, var) {
        Entry::Gone => false,
        Entry::Present(_) => true,
        Entry::Droppable(_, _) => true,
        Entry::Observed(_) => true,
    }
}

// A copy of a type that may be dropped, and shared too where that is said, and of any other as observed. Want of memory is its one
// refusal.
fn found_copy(source: &Source, ty: &Ty, shared: bool) -> Result<Ty, Memory>
    ensures { IfOk result (λ copy. type_of copy ≡ found_type (bounds_of source.now.vars.now) shared (type_of ty.now)) }
{
    let own = ty.copy(source.alloc)?;
    if is_found(source, ty, shared) {
        Ok(own)
    } else {
        Ok(bang(own))
    }
}

/// The type of a variable where it stands; unit, where it isn't present. Want of memory is its one refusal.
#[inline(never)]
pub fn type_at(source: &Source, context: &[Entry], var: usize) -> Result<Ty, Memory>
    ensures { IfOk result (λ ty. type_of ty ≡ or_unit (look (context_of (bounds_of source.now.vars.now) context.now) var)) }
{
    match entry_at(context, var) {
        Entry::Gone => Ok(Ty::Unit),
        Entry::Present(ty) => ty.copy(source.alloc),
        Entry::Droppable(ty, shared) => found_copy(source, ty, shared),
        Entry::Observed(ty) => Ok(bang(ty.copy(source.alloc)?)),
    }
}
