// The C of `seq32_break`, a loop that a turn may end: x0 to x4 are those of other loops, x5 is what a turn gives, and x6 the result.
#![tactic(auto)]

ghost use Rattle.std.specs.Prelude.{◌≡◌, ℕ, List, IfOk, map};
ghost use Rattle.cg_ctree.specs.Trees.{stmt_of};
ghost use Rattle.cg_cgen_def.specs.Loops.{break_begins, break_code as code_of_break, break_goes_on, break_stops, break_turn as turn_of_break};
ghost use Rattle.cg_cgen_lines.specs.Lines.{line_of};

use crate::loops::{begins, goes_on};
use cg_base::{Items, Memory, Name, Word};
use cg_cgen_lines::{Line, Right, Spot, chosen, repeated_before, written};
use cg_ctree::CStmt;
use std::alloc::Global;

// A turn that isn't the last hands on what is carried.
fn carry_on(alloc: Global, callee: &Name) -> Result<Items<CStmt>, Memory>
    ensures { IfOk result (λ ss. map stmt_of ss ≡ break_goes_on) }
{
    let carried = [Line::Set(Spot::Field(4, 0), Right::At(Spot::Field(5, 0)))];
    written(alloc, callee, &carried, &goes_on(Word::U32))
}

// The last gives the result.
fn stop(alloc: Global, callee: &Name) -> Result<Items<CStmt>, Memory>
    ensures { IfOk result (λ ss. map stmt_of ss ≡ break_stops) }
{
    let stops = [
        Line::Set(Spot::Local(6), Right::At(Spot::Local(5))),
        Line::Set(Spot::Local(2), Right::At(Spot::Number(0))),
    ];
    written(alloc, callee, &stops, &[])
}

// A turn.
fn break_turn(alloc: Global, callee: &Name) -> Result<Items<CStmt>, Memory>
    ensures { IfOk result (λ ss. map stmt_of ss ≡ turn_of_break callee.now) }
{
    let yes = carry_on(alloc, callee)?;
    let no = stop(alloc, callee)?;
    let turn = [
        Line::Set(Spot::Field(4, 2), Right::At(Spot::Local(0))),
        Line::Set(Spot::Local(5), Right::Turn(Spot::Local(4))),
    ];
    chosen(alloc, callee, &turn, Spot::Tag(5), yes, no)
}

// What comes before the turns: where none is the last, the result is what is carried, with `Iterate`.
fn break_starts() -> [Line; 3]
    ensures { (callee : List ℕ) → map (line_of callee) result ≡ break_begins }
{
    [
        Line::Set(Spot::Field(4, 0), Right::At(Spot::Given(4))),
        Line::Set(Spot::Tag(6), Right::At(Spot::Number(1))),
        Line::Set(Spot::Payload(6, 1), Right::At(Spot::Number(0))),
    ]
}

// The statements of the loop.
pub(crate) fn break_code(alloc: Global, callee: &Name) -> Result<Items<CStmt>, Memory>
    ensures { IfOk result (λ ss. map stmt_of ss ≡ code_of_break callee.now) }
{
    let turn = break_turn(alloc, callee)?;
    let carried = Right::At(Spot::Field(4, 0));
    let ends = [Line::Where(Spot::Tag(6), Spot::Field(6, 0), carried)];
    repeated_before(
        alloc,
        callee,
        &begins(Word::U32),
        &break_starts(),
        turn,
        &ends,
    )
}
