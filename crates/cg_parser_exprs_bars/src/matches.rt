// At a bar behind an expression.
ghost use Rattle.std.specs.Prelude.{◌≡◌, List, IfOk};
ghost use Rattle.cg_parser_exprs_def.specs.Machine as machine;
ghost use Rattle.cg_parser_build.specs.Bounded.{bounded};
ghost use Rattle.cg_parser_exprs_def.specs.Held.{types, patterns, Types, Patterns, Within};
ghost use Rattle.cg_parser_exprs_frames.specs.Stack.{open_of, frame_of, stack_of, mode_of};
ghost use Rattle.cg_parser_exprs_bars.specs.Walk.{is_match, next_at};
ghost use Rattle.cg_parser_build.specs.Views.{view_of, pattern_view};

use crate::bars::{Choice, bar_choice};
use cg_base::{Items, Memory, Name, Place};
use cg_core::At;
use cg_parser_build::{BuiltExpr, lists};
use cg_parser_exprs_frames::close::{close, closes, fill};
use cg_parser_exprs_frames::frame::{Frame, Mode, Open};
use cg_parser_exprs_frames::room::{room, stuck};
use cg_parser_patterns::BuiltPattern;
use cg_parser_stack::Stack;
use std::alloc::Global;

/// At a bar that opens a match.
fn on_new(
    alloc: Global,
    stack: &mut Stack<Frame>,
    column: u32,
    seen: Items<At>,
    subject: Option<BuiltExpr>,
) -> Result<Mode, Memory>
    ensures { IfOk result (λ m. (ts : Types) (ps : Patterns) → mode_of m ts ps (stack_of stack.new) ≡ machine.on_new types patterns bounded column seen (view_of subject) (stack_of stack.old)) }
{
    if room(stack)? < 12 {
        return Ok(Mode::Stuck);
    }
    Ok(Mode::WantAlt(Open {
        subject,
        seen,
        before: lists::no_alts(alloc),
        column,
    }))
}

/// Whether the frame is the body of an alternative.
fn is_match(frame: &Frame) -> bool
    ensures { result ≡ is_match (frame_of frame.now) }
{
    match frame {
        Frame::Branch(_, _, _, _) => true,
        _ => false,
    }
}

/// Another alternative of an open match, behind one that ends here: behind an alternative without a constructor none may follow.
fn next_alt(
    before: Open,
    place: Place,
    con: Option<Name>,
    pattern: Option<BuiltPattern>,
    tree: Option<BuiltExpr>,
) -> Result<Mode, Memory>
    ensures { IfOk result (λ m. (ts : Types) (ps : Patterns) (fs : List Within) → mode_of m ts ps fs ≡ machine.next_alt types patterns bounded (open_of before) place con (pattern_view pattern) (view_of tree) fs) }
{
    let Some(con) = con else {
        return Ok(Mode::Stuck);
    };
    let more = before.with_alt(place, Some(con), pattern, tree)?;
    Ok(Mode::WantAlt(more))
}

/// At a bar that belongs to the match of the frame.
fn on_match(stack: &mut Stack<Frame>, frame: Frame, tree: Option<BuiltExpr>) -> Result<Mode, Memory>
    ensures { IfOk result (λ m. (ts : Types) (ps : Patterns) → mode_of m ts ps (stack_of stack.new) ≡ next_at (frame_of frame) (view_of tree) (stack_of stack.old)) }
{
    match frame {
        Frame::Branch(before, place, con, pattern) => next_alt(before, place, con, pattern, tree),
        other => stuck(stack, other),
    }
}

/// At a bar that belongs to the open match outside so many others: all inside it is closed.
fn joined(
    alloc: Global,
    stack: &mut Stack<Frame>,
    inside: usize,
    tree: Option<BuiltExpr>,
) -> Result<Mode, Memory>
    ensures { IfOk result (λ m. (ts : Types) (ps : Patterns) → mode_of m ts ps (stack_of stack.new) ≡ machine.joined types patterns bounded inside (view_of tree) (stack_of stack.old)) }
{
    let mut inside = inside;
    let mut tree = tree;
    while let Some(frame) = stack.pop() {
        if !is_match(&frame) {
            if closes(&frame) > 12 {
                return stuck(stack, frame);
            }
            tree = fill(alloc, frame, tree)?;
            continue;
        }
        if inside == 0 {
            return on_match(stack, frame, tree);
        }
        inside -= 1;
        tree = fill(alloc, frame, tree)?;
    }
    Ok(Mode::Stuck)
}

/// At a bar, with what is observed behind the expression.
pub fn on_bar(
    alloc: Global,
    stack: &mut Stack<Frame>,
    first: bool,
    place: Place,
    seen: Items<At>,
    tree: Option<BuiltExpr>,
) -> Result<Mode, Memory>
    ensures { IfOk result (λ m. (ts : Types) (ps : Patterns) → mode_of m ts ps (stack_of stack.new) ≡ machine.on_bar types patterns bounded first place seen (view_of tree) (stack_of stack.old)) }
{
    match bar_choice(stack, first, place.column) {
        Choice::New => {
            let subject = close(alloc, stack, 11, tree)?;
            on_new(alloc, stack, place.column, seen, subject)
        }
        Choice::Joins(inside) => {
            if seen.len() > 0 {
                return Ok(Mode::Stuck);
            }
            joined(alloc, stack, inside, tree)
        }
        Choice::Wrong => Ok(Mode::WrongBar),
    }
}
