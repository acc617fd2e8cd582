// The contents of cells.
ghost use Rattle.std.specs.Prelude.{map, IfOk, MatchOption, Option, Some};
ghost use Rattle.std.specs.Option.{option_map};
ghost use Rattle.cg_base.specs.Types.{Tau, part_of, to_parts, type_of};
ghost use Rattle.cg_heaptext_def.specs.Trees.{Cell as Written, Entry};
ghost use Rattle.cg_heaptext_entries.specs.Index.{CellStands, IsEntry};
ghost use Rattle.cg_heaptext_contents.specs.Contents.{AreAnswers, AreSlots, IsArray, IsContent, IsLoose, IsNoRecord, IsRecord};

use cg_base::{Items, Memory, Part, Place, Ty};
use cg_heap::Cell;
use cg_heaptext_cells::{CellForm, answers, elements, form, loose_slots};
use cg_heaptext_entries::EntryAt;
use cg_heaptext_lexer::Lexer;
use cg_heaptext_scalars::slots_at;
use std::alloc::Global;

/// The greatest number of elements that an array may have.
const MOST_ELEMENTS: usize = 1_048_576;

/// What a cell holds; the earliest of its numbers that are above 2^64 - 1, where nobody reads it; and whether it is an array of more than
/// 1,048,576 elements.
#[derive(Drop)]
pub struct Content {
    pub cell: Cell,
    pub over: Option<Place>,
    pub many: bool,
}

/// What the cell of an entry holds that is read at this type, or by nobody (docs/LANGUAGE.md, "Heap files"). A number above 2^64 - 1 is given
/// as that, or as another one. The one error is want of memory.
pub fn content_of(alloc: Global, entry: &EntryAt, ty: Option<&Ty>) -> Result<Content, Memory>
    ensures { (e : Entry) → IsEntry entry.now e → IfOk result (λ c. IsContent (option_map (λ t. type_of t.now) ty.entry) e.cell c) }
{
    match form(&entry.cell) {
        CellForm::Slots => slots(alloc, &entry.cell, ty),
        CellForm::Elements => array(alloc, &entry.cell),
        CellForm::Answers => allocator(alloc, &entry.cell),
    }
}

// The slots of a record.
fn slots(alloc: Global, cell: &Lexer, ty: Option<&Ty>) -> Result<Content, Memory>
    ensures { (c : Written) → CellStands cell.now c → AreSlots c → IfOk result (λ x. IsContent (option_map (λ t. type_of t.now) ty.entry) c x) }
{
    match ty {
        Some(ty) => match parts_of(ty) {
            Some(parts) => typed(alloc, cell, parts),
            None => loose(alloc, cell),
        },
        None => loose(alloc, cell),
    }
}

// The parts of a record type.
fn parts_of(ty: &Ty) -> Option<&Items<Part>>
    ensures { MatchOption result (IsNoRecord (type_of ty.now)) (λ parts. IsRecord (type_of ty.now) (to_parts (map part_of parts.now))) }
{
    match ty {
        Ty::Fields(parts, _) => Some(parts),
        _ => None,
    }
}

// The slots of a record that is read with these parts.
fn typed(alloc: Global, cell: &Lexer, parts: &Items<Part>) -> Result<Content, Memory>
    ensures { (c : Written) (t : Tau) → CellStands cell.now c → AreSlots c → IsRecord t (to_parts (map part_of parts.now)) → IfOk result (λ x. IsContent (Some t) c x) }
{
    Ok(Content {
        cell: Cell::Slots(slots_at(alloc, parts, cell)?),
        over: None,
        many: false,
    })
}

// The slots of a record that nobody reads.
fn loose(alloc: Global, cell: &Lexer) -> Result<Content, Memory>
    ensures { (c : Written) → CellStands cell.now c → AreSlots c → IfOk result (λ x. IsLoose c x) }
{
    let loose = loose_slots(alloc, cell)?;
    Ok(Content {
        cell: Cell::Slots(loose.slots),
        over: loose.over,
        many: false,
    })
}

// The elements of an array.
fn array(alloc: Global, cell: &Lexer) -> Result<Content, Memory>
    ensures { (c : Written) (t : Option Tau) → CellStands cell.now c → IsArray c → IfOk result (λ x. IsContent t c x) }
{
    let elements = elements(alloc, cell, u64::MAX)?;
    Ok(Content {
        many: elements.numbers.len() > MOST_ELEMENTS,
        cell: Cell::Words(elements.numbers),
        over: elements.over,
    })
}

// What an allocator will answer.
fn allocator(alloc: Global, cell: &Lexer) -> Result<Content, Memory>
    ensures { (c : Written) (t : Option Tau) → CellStands cell.now c → AreAnswers c → IfOk result (λ x. IsContent t c x) }
{
    Ok(Content {
        cell: Cell::Answers(answers(alloc, cell)?),
        over: None,
        many: false,
    })
}
