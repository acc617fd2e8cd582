// Where an argument or an operand begins.
ghost use Rattle.std.specs.Prelude.{◌≡◌, IfOk, if◌then◌else◌};
ghost use Rattle.cg_parser_exprs_def.specs.Machine as machine;
ghost use Rattle.cg_parser_symbols.specs.Views.{symbol_view};
ghost use Rattle.cg_parser_build.specs.Bounded.{bounded};
ghost use Rattle.cg_parser_exprs_def.specs.Held.{types, patterns, Types, Patterns};
ghost use Rattle.cg_parser_exprs_frames.specs.Stack.{angle_of, stack_of, mode_of, stage_of};
ghost use Rattle.cg_parser_build.specs.Views.{view_of};

use crate::operators::{alone_op, is_second, shift_op};
use crate::start::start;
use cg_base::{Memory, Place};
use cg_core::Op;
use cg_parser_build::BuiltExpr;
use cg_parser_exprs_frames::close::close;
use cg_parser_exprs_frames::frame::{Angle, Frame, Mode};
use cg_parser_exprs_frames::levels::level;
use cg_parser_exprs_frames::readers::Parts;
use cg_parser_exprs_frames::room::room;
use cg_parser_stack::Stack;
use cg_parser_symbols::Symbol;
use std::alloc::Global;

/// At the beginning of an atom: an argument, where there is room for a call.
pub fn on_argument<'a>(
    alloc: Global,
    stack: &mut Stack<Frame>,
    parts: &mut Parts,
    symbol: Symbol<'a>,
    place: Place,
    function: Option<BuiltExpr>,
) -> Result<Mode, Memory>
    ensures { IfOk result (λ m. stage_of m parts.new (stack_of stack.new) ≡ machine.on_argument types patterns bounded (symbol_view symbol.entry) place (view_of function) (stack_of stack.old)) }
{
    if room(stack)? < 1 {
        return Ok(Mode::Stuck);
    }
    stack.push(Frame::Argument(function))?;
    start(alloc, stack, parts, symbol, place)
}

/// Opens the right operand of an operator, where there is room for the operator; answers whether there is.
fn open_operand(
    stack: &mut Stack<Frame>,
    op: Op,
    place: Place,
    left: Option<BuiltExpr>,
) -> Result<bool, Memory>
    ensures { IfOk result (λ b. machine.on_op types patterns bounded op place (view_of left) (stack_of stack.old) ≡ (if b then machine.Want (stack_of stack.new) else machine.Stuck)) }
{
    if room(stack)? < level(op) {
        return Ok(false);
    }
    stack.push(Frame::RightOf(place, op, left))?;
    Ok(true)
}

/// At an operator with two operands.
pub fn on_op(
    stack: &mut Stack<Frame>,
    op: Op,
    place: Place,
    left: Option<BuiltExpr>,
) -> Result<Mode, Memory>
    ensures { IfOk result (λ m. (ts : Types) (ps : Patterns) → mode_of m ts ps (stack_of stack.new) ≡ machine.on_op types patterns bounded op place (view_of left) (stack_of stack.old)) }
{
    if open_operand(stack, op, place, left)? {
        Ok(Mode::Want)
    } else {
        Ok(Mode::Stuck)
    }
}

/// Behind a sign that may be the first of a shift: this symbol decides.
pub fn after_angle<'a>(
    alloc: Global,
    stack: &mut Stack<Frame>,
    parts: &mut Parts,
    symbol: Symbol<'a>,
    place: Place,
    angle: Angle,
    sign: Place,
    tree: Option<BuiltExpr>,
) -> Result<Mode, Memory>
    ensures { IfOk result (λ m. stage_of m parts.new (stack_of stack.new) ≡ machine.after_angle types patterns bounded (symbol_view symbol.entry) place (angle_of angle) sign (view_of tree) (stack_of stack.old)) }
{
    if is_second(angle, symbol) {
        let left = close(alloc, stack, 5, tree)?;
        return on_op(stack, shift_op(angle), sign, left);
    }
    let left = close(alloc, stack, 8, tree)?;
    if !open_operand(stack, alone_op(angle), sign, left)? {
        return Ok(Mode::Stuck);
    }
    start(alloc, stack, parts, symbol, place)
}
