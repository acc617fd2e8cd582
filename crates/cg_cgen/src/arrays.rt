// The C of `fold` and `map`: x0 is the index, x1 the end, x2 whether a turn comes, x3 what the function is called with; of `map` x4 is what
// a turn gives, and x5 the result.
#![tactic(auto)]

ghost use Rattle.std.specs.Prelude.{◌≡◌, ℕ, List, IfOk, map};
ghost use Rattle.cg_base.specs.declared.kind.Word.TheVariants.{U8, U32};
ghost use Rattle.cg_ctree.specs.declared.tree.COp.TheVariants.{Lt};
ghost use Rattle.cg_ctree.specs.Trees.{stmt_of};
ghost use Rattle.cg_cgen_lines.specs.declared.lines.Right.TheVariants.{Binary};
ghost use Rattle.cg_cgen_lines.specs.Lines.{line_of};
ghost use Rattle.cg_cgen_def.specs.Loops.{array_begins, array_goes_on, fold_code as code_of_fold, fold_turn as turn_of_fold, map_code as code_of_map, map_turn as turn_of_map};

use cg_base::{Items, Memory, Name, Word};
use cg_cgen_lines::{Line, Right, Spot, repeated, repeated_before, written};
use cg_ctree::{COp, CStmt};
use std::alloc::Global;

const INDEX: Spot = Spot::Local(0);

const END: Spot = Spot::Local(1);

const FLAG: Spot = Spot::Local(2);

// Whether a spot is below another.
fn less(left: Spot, right: Spot) -> Right
    ensures { result ≡ Binary Lt U8 U32 left right }
{
    Right::Binary(COp::Lt, Word::U8, Word::U32, left, right)
}

// The index, and the lesser of the bound and the length; what is carried, and what is observed.
fn begins(word: Word) -> [Line; 7]
    ensures { (callee : List ℕ) → map (line_of callee) result ≡ array_begins word }
{
    [
        Line::Set(INDEX, Right::At(Spot::Given(1))),
        Line::Set(END, Right::Length(word)),
        Line::Set(FLAG, less(Spot::Given(2), END)),
        Line::Where(FLAG, END, Right::At(Spot::Given(2))),
        Line::Set(FLAG, less(INDEX, END)),
        Line::Set(Spot::Field(3, 1), Right::At(Spot::Given(4))),
        Line::Set(Spot::Field(3, 2), Right::At(Spot::Given(5))),
    ]
}

// The next index, and whether it is below the end.
fn goes_on() -> [Line; 2]
    ensures { (callee : List ℕ) → map (line_of callee) result ≡ array_goes_on }
{
    let next = Right::Binary(COp::Add, Word::U32, Word::U32, INDEX, Spot::Number(1));
    [Line::Set(INDEX, next), Line::Set(FLAG, less(INDEX, END))]
}

// A turn of `fold`.
fn fold_turn(alloc: Global, callee: &Name, word: Word) -> Result<Items<CStmt>, Memory>
    ensures { IfOk result (λ ss. map stmt_of ss ≡ turn_of_fold callee.now word) }
{
    let turn = [
        Line::Set(Spot::Field(3, 0), Right::Get(word, INDEX)),
        Line::Set(Spot::Field(3, 1), Right::Turn(Spot::Local(3))),
    ];
    written(alloc, callee, &turn, &goes_on())
}

// The statements of `fold`.
pub(crate) fn fold_code(alloc: Global, callee: &Name, word: Word) -> Result<Items<CStmt>, Memory>
    ensures { IfOk result (λ ss. map stmt_of ss ≡ code_of_fold callee.now word) }
{
    let turn = fold_turn(alloc, callee, word)?;
    repeated(alloc, callee, &begins(word), &[], turn)
}

// A turn of `map`.
fn map_turn(alloc: Global, callee: &Name, word: Word) -> Result<Items<CStmt>, Memory>
    ensures { IfOk result (λ ss. map stmt_of ss ≡ turn_of_map callee.now word) }
{
    let turn = [
        Line::Set(Spot::Field(3, 0), Right::Get(word, INDEX)),
        Line::Set(Spot::Local(4), Right::Turn(Spot::Local(3))),
        Line::Put(word, INDEX, Spot::Field(4, 0)),
        Line::Set(Spot::Field(3, 1), Right::At(Spot::Field(4, 1))),
    ];
    written(alloc, callee, &turn, &goes_on())
}

// The statements of `map`.
pub(crate) fn map_code(alloc: Global, callee: &Name, word: Word) -> Result<Items<CStmt>, Memory>
    ensures { IfOk result (λ ss. map stmt_of ss ≡ code_of_map callee.now word) }
{
    let turn = map_turn(alloc, callee, word)?;
    let ends = [
        Line::Set(Spot::Field(5, 0), Right::At(Spot::Given(0))),
        Line::Set(Spot::Field(5, 1), Right::At(Spot::Field(3, 1))),
    ];
    repeated_before(alloc, callee, &begins(word), &[], turn, &ends)
}
