// The cells of types that are declared beforehand: allocators, and arrays of words.
#![tactic(auto, unfolding(cg_base::specs::Types::to_taus))]

ghost use Rattle.std.specs.Prelude.{◌≡◌, ℕ, Bool, List, map, Some};
ghost use Rattle.cg_base.specs.declared.place.Place.{Place};
ghost use Rattle.cg_base.specs.Types.{to_taus, type_of};
ghost use Rattle.cg_heaptext_def.specs.Reading.{events_within};
ghost use Rattle.cg_heaptext_def.specs.Trees as trees;
ghost use Rattle.cg_heaptext_def.specs.Trees.{Cell, Numeral};
ghost use Rattle.cg_heaptext_entries.specs.Index.{CellStands};
ghost use Rattle.cg_heaptext_judge_notes.specs.Notes.{Notes};
ghost use Rattle.cg_heaptext_judge_steps.specs.Steps.{Fits, IsWordOf, is_allocator_of};

use crate::array::note_elements;
use crate::cell::misfit_cell;
use cg_base::{Items, Name, Ty, Word};
use cg_heaptext_cells::{CellForm, form};
use cg_heaptext_judge_notes::{JudgeFault, Judged};
use cg_heaptext_judge_parts::most_of;
use cg_heaptext_lexer::Lexer;

// The word of which a type is an array.
fn word_of(name: &Name, args: &Items<Ty>) -> Option<Word>
    ensures { IsWordOf name.now (to_taus (map type_of args.now)) result }
{
    match args.as_slice() {
        [Ty::Word(word)] if name.bytes() == b"WordArray".as_slice() => Some(*word),
        _ => None,
    }
}

// Whether a type is an allocator.
fn is_allocator(name: &Name, args: &Items<Ty>) -> bool
    ensures { result ≡ is_allocator_of name.now (to_taus (map type_of args.now)) }
{
    match args.as_slice() {
        [] => name.bytes() == b"SysState".as_slice(),
        _ => false,
    }
}

// Whether a cell of answers is what a type asks for.
fn judge_answers(name: &Name, args: &Items<Ty>, cell: &Lexer) -> Result<(), JudgeFault>
    ensures { (p : Place) (bs : List Bool) → CellStands cell.now (trees.answers p bs) → Fits (events_within name.now (to_taus (map type_of args.now)) (Some (trees.answers p bs))) result }
{
    if is_allocator(name, args) {
        Ok(())
    } else {
        misfit_cell(cell)
    }
}

// Notes the elements of an array that pass its word; or the array isn't what a type asks for.
fn judge_elements(
    judged: &mut Judged,
    name: &Name,
    args: &Items<Ty>,
    cell: &Lexer,
) -> Result<(), JudgeFault>
    ensures { (ns : List ℕ) (p : Place) (xs : List Numeral) → CellStands cell.now (trees.elements p xs)
        → Notes ns judged.old (events_within name.now (to_taus (map type_of args.now)) (Some (trees.elements p xs))) result judged.new }
{
    match word_of(name, args) {
        Some(word) => {
            judged.over = note_elements(judged.over, cell, most_of(word));
            Ok(())
        }
        None => misfit_cell(cell),
    }
}

/// Judges a cell at the type of this name over these types: that of an allocator, or an array of words, whose elements that pass the word
/// are noted; any other doesn't fit (docs/LANGUAGE.md, "Heap files", H4 and H5). It takes time in proportion to the bytes of the cell.
pub fn judge_library(
    judged: &mut Judged,
    name: &Name,
    args: &Items<Ty>,
    cell: &Lexer,
) -> Result<(), JudgeFault>
    ensures { (ns : List ℕ) (c : Cell) → CellStands cell.now c → Notes ns judged.old (events_within name.now (to_taus (map type_of args.now)) (Some c)) result judged.new }
{
    match form(cell) {
        CellForm::Answers => judge_answers(name, args, cell),
        CellForm::Elements => judge_elements(judged, name, args, cell),
        CellForm::Slots => misfit_cell(cell),
    }
}
