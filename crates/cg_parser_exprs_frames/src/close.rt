// Frames that are closed without a token of their own.
ghost use Rattle.std.specs.Prelude.{◌≡◌, IfOk};
ghost use Rattle.cg_parser_exprs_def.specs.Machine as machine;
ghost use Rattle.cg_parser_build.specs.Bounded.{bounded};
ghost use Rattle.cg_parser_exprs_def.specs.Held.{types, patterns};
ghost use Rattle.cg_parser_exprs_frames.specs.Stack.{prefix_of, frame_of, stack_of};
ghost use Rattle.cg_parser_build.specs.Views.{view_of};

use crate::frame::{Frame, Prefix};
use crate::levels::level;
use cg_base::{Memory, Place};
use cg_parser_build::{BuiltExpr, build, choices};
use cg_parser_stack::Stack;
use std::alloc::Global;

/// From which looseness on a frame is closed without a token of its own.
pub fn closes(frame: &Frame) -> u32
    ensures { result ≡ machine.closes types patterns bounded (frame_of frame.now) }
{
    match frame {
        Frame::Argument(_) => 1,
        Frame::Payload(_, _) => 2,
        Frame::Operand(_, _) => 2,
        Frame::RightOf(_, op, _) => level(*op),
        Frame::Body(_, _) => 12,
        Frame::Else(_, _, _, _) => 12,
        Frame::Branch(_, _, _, _) => 12,
        _ => 13,
    }
}

/// An operator with one operand on it.
fn prefixed(
    alloc: Global,
    place: Place,
    prefix: Prefix,
    tree: Option<BuiltExpr>,
) -> Result<Option<BuiltExpr>, Memory>
    ensures { IfOk result (λ e. view_of e ≡ machine.prefixed types patterns bounded place (prefix_of prefix) (view_of tree)) }
{
    match prefix {
        Prefix::Operation(op) => build::unary(alloc, place, op, tree),
        Prefix::Upcast => build::upcast(alloc, place, tree),
    }
}

/// The expression of a frame with its hole filled.
pub fn fill(
    alloc: Global,
    frame: Frame,
    tree: Option<BuiltExpr>,
) -> Result<Option<BuiltExpr>, Memory>
    ensures { IfOk result (λ e. view_of e ≡ machine.fill types patterns bounded (frame_of frame) (view_of tree)) }
{
    match frame {
        Frame::Argument(function) => build::app(alloc, function, tree),
        Frame::Payload(place, name) => build::con_of(alloc, place, name, tree),
        Frame::Operand(place, prefix) => prefixed(alloc, place, prefix, tree),
        Frame::RightOf(place, op, left) => build::binary(alloc, place, op, left, tree),
        Frame::Body(place, binds) => choices::lets(alloc, place, binds, tree),
        Frame::Else(place, condition, seen, yes) => choices::if_else(
            alloc, place, condition, seen, yes, tree,
        ),
        Frame::Branch(opened, place, con, pattern) => opened.matched(
            alloc, place, con, pattern, tree,
        ),
        _ => Ok(tree),
    }
}

/// Closes the frames that bind at most so loosely.
pub fn close(
    alloc: Global,
    stack: &mut Stack<Frame>,
    loosest: u32,
    tree: Option<BuiltExpr>,
) -> Result<Option<BuiltExpr>, Memory>
    ensures { IfOk result (λ e. machine.closed types patterns bounded loosest (view_of tree) (stack_of stack.old) ≡ (view_of e, stack_of stack.new)) }
{
    let mut tree = tree;
    loop {
        match stack.pop() {
            None => return Ok(tree),
            Some(frame) => {
                if closes(&frame) > loosest {
                    stack.push(frame)?;
                    return Ok(tree);
                }
                tree = fill(alloc, frame, tree)?;
            }
        }
    }
}
