// Which form a cell has.
ghost use Rattle.std.specs.Prelude.{◌≡◌};
ghost use Rattle.cg_heaptext_def.specs.Trees.{Cell};
ghost use Rattle.cg_heaptext_entries.specs.Index.{CellStands};
ghost use Rattle.cg_heaptext_cells.specs.Cells.{form_of, sign_form as sign_form_of};

use cg_heaptext_lexer::Lexer;

/// The forms of cells (docs/LANGUAGE.md, "Heap files"): the slots of a record, the elements of an array, or the answers of an allocator.
#[derive(Clone, Copy)]
pub enum CellForm {
    Slots,
    Elements,
    Answers,
}

fn sign_form(text: &[u8]) -> CellForm
    ensures { result ≡ sign_form_of text.now }
{
    if text == b"{".as_slice() {
        CellForm::Slots
    } else if text == b"[".as_slice() {
        CellForm::Elements
    } else {
        CellForm::Answers
    }
}

/// Which form the cell has at whose first token the lexer stands (docs/LANGUAGE.md, "Heap files"). The lexer stays there.
pub fn form(cell: &Lexer) -> CellForm
    ensures { (c : Cell) → CellStands cell.now c → result ≡ form_of c }
{
    let mut lexer = cell.copy();
    let token = lexer.next();
    sign_form(token.text)
}
