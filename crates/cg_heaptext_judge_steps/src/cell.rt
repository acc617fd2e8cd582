// Cells, and whether they have the form that is asked for.
ghost use Rattle.std.specs.Prelude.{◌≡◌, Some};
ghost use Rattle.cg_heaptext_def.specs.Reading.{is_record as is_record_of, misfit_cell as misfit_of};
ghost use Rattle.cg_heaptext_def.specs.Trees.{Cell, first_of};
ghost use Rattle.cg_heaptext_entries.specs.Index.{CellStands};
ghost use Rattle.cg_heaptext_judge_steps.specs.Steps.{Fits, pieces};

use cg_base::{Part, Place};
use cg_heaptext_cells::{CellForm, form};
use cg_heaptext_judge_notes::JudgeFault;
use cg_heaptext_judge_parts::have_names;
use cg_heaptext_lexer::Lexer;
use cg_heaptext_values::fields_of;

// The place of the first token of a cell.
fn cell_place(cell: &Lexer) -> Place
    ensures { (c : Cell) → CellStands cell.now c → result ≡ first_of c }
{
    cell.copy().next().place
}

/// Tells that a cell is another one than its type asks for (docs/LANGUAGE.md, "Heap files", H4).
pub fn misfit_cell(cell: &Lexer) -> Result<(), JudgeFault>
    ensures { (c : Cell) → CellStands cell.now c → Fits (misfit_of (Some c)) result }
{
    Err(JudgeFault::Misfit(cell_place(cell)))
}

/// Whether a cell is one of slots with the names of these fields (docs/LANGUAGE.md, "Heap files"). It takes time in proportion to the bytes
/// of the cell.
pub fn is_record(parts: &[Part], cell: &Lexer) -> bool
    ensures { (c : Cell) → CellStands cell.now c → result ≡ is_record_of (pieces parts.now) (Some c) }
{
    match form(cell) {
        CellForm::Slots => have_names(parts, fields_of(cell)),
        CellForm::Elements | CellForm::Answers => false,
    }
}
