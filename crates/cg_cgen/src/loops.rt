// The C of `seq32` and `seq64`: x0 is the index, x1 what is left behind it, x2 whether a turn comes, x3 whether there is a step, x4 what the
// function is called with.
#![tactic(auto)]

ghost use Rattle.std.specs.Prelude.{◌≡◌, ℕ, List, IfOk, map};
ghost use Rattle.cg_ctree.specs.Trees.{stmt_of};
ghost use Rattle.cg_cgen_lines.specs.Lines.{line_of};
ghost use Rattle.cg_cgen_def.specs.Loops.{loop_begins, loop_code as code_of_loop, loop_goes_on, loop_turn as turn_of_loop};

use cg_base::{Items, Memory, Name, Word};
use cg_cgen_lines::{Line, Right, Spot, repeated, written};
use cg_ctree::{COp, CStmt};
use std::alloc::Global;

const INDEX: Spot = Spot::Local(0);

const LEFT: Spot = Spot::Local(1);

const FLAG: Spot = Spot::Local(2);

const STEPS: Spot = Spot::Local(3);

// The index, whether a turn comes, and what is observed.
pub(crate) fn begins(word: Word) -> [Line; 5]
    ensures { (callee : List ℕ) → map (line_of callee) result ≡ loop_begins word }
{
    let below = Right::Binary(COp::Lt, Word::U8, word, INDEX, Spot::Given(1));
    let steps = Right::Binary(COp::Ne, Word::U8, word, Spot::Given(2), Spot::Number(0));
    let both = Right::Binary(COp::And, Word::U8, Word::U8, FLAG, STEPS);
    [
        Line::Set(INDEX, Right::At(Spot::Given(0))),
        Line::Set(FLAG, below),
        Line::Set(STEPS, steps),
        Line::Set(FLAG, both),
        Line::Set(Spot::Field(4, 1), Right::At(Spot::Given(5))),
    ]
}

// The next index, where one is below the end: the sum is computed only where it is known not to wrap.
pub(crate) fn goes_on(word: Word) -> [Line; 3]
    ensures { (callee : List ℕ) → map (line_of callee) result ≡ loop_goes_on word }
{
    let left = Right::Binary(COp::Sub, word, word, Spot::Given(1), INDEX);
    let below = Right::Binary(COp::Lt, Word::U8, word, Spot::Given(2), LEFT);
    let next = Right::Binary(COp::Add, word, word, INDEX, Spot::Given(2));
    [
        Line::Set(LEFT, left),
        Line::Set(FLAG, below),
        Line::Where(FLAG, INDEX, next),
    ]
}

// A turn.
fn loop_turn(alloc: Global, callee: &Name, word: Word) -> Result<Items<CStmt>, Memory>
    ensures { IfOk result (λ ss. map stmt_of ss ≡ turn_of_loop callee.now word) }
{
    let turn = [
        Line::Set(Spot::Field(4, 2), Right::At(INDEX)),
        Line::Set(Spot::Field(4, 0), Right::Turn(Spot::Local(4))),
    ];
    written(alloc, callee, &turn, &goes_on(word))
}

// The statements of a loop over numbers of a word.
pub(crate) fn loop_code(alloc: Global, callee: &Name, word: Word) -> Result<Items<CStmt>, Memory>
    ensures { IfOk result (λ ss. map stmt_of ss ≡ code_of_loop callee.now word) }
{
    let turn = loop_turn(alloc, callee, word)?;
    let carried = [Line::Set(Spot::Field(4, 0), Right::At(Spot::Given(4)))];
    repeated(alloc, callee, &begins(word), &carried, turn)
}
