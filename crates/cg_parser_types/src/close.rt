// Frames that are closed without a token of their own.
ghost use Rattle.std.specs.Prelude.{◌≡◌, IfOk, OnOk};
ghost use Rattle.cg_parser_types.specs.Bounded.{bounded};
ghost use Rattle.cg_parser_types.specs.Machine as machine;
ghost use Rattle.cg_parser_types.specs.Stack.{frame_of, stack_of};
ghost use Rattle.cg_parser_types.specs.States.{all_close};
ghost use Rattle.cg_parser_types.specs.Views.{view_of};

use crate::built::BuiltType;
use crate::frame::Frame;
use crate::{build, lists};
use cg_base::Memory;
use cg_parser_stack::Stack;
use std::alloc::Global;

/// From which looseness on a frame is closed without a token of its own.
fn closes(frame: &Frame) -> u32
    ensures { result ≡ machine.closes bounded (frame_of frame.now) }
{
    match frame {
        Frame::InArgs(_, _, _) => 1,
        Frame::InArrow(_) => 3,
        _ => 4,
    }
}

/// How loose a type may stand in a frame.
fn hole(frame: &Frame) -> u32
    ensures { result ≡ machine.hole bounded (frame_of frame.now) }
{
    match frame {
        Frame::InAlt(_, _, _) => 0,
        Frame::InArgs(_, _, _) => 0,
        _ => 3,
    }
}

/// How loose a type may stand on the stack.
pub(crate) fn room(stack: &mut Stack<Frame>) -> Result<u32, Memory>
    ensures same { OnOk result (stack_of stack.new ≡ stack_of stack.old) }
    ensures room { IfOk result (λ n. n ≡ machine.room bounded (stack_of stack.old)) }
{
    match stack.pop() {
        None => Ok(3),
        Some(frame) => {
            let loosest = hole(&frame);
            stack.push(frame)?;
            Ok(loosest)
        }
    }
}

/// Closes the frames that bind at most so loosely.
pub(crate) fn close(
    alloc: Global,
    stack: &mut Stack<Frame>,
    loosest: u32,
    tree: Option<BuiltType>,
) -> Result<Option<BuiltType>, Memory>
    ensures { IfOk result (λ t. machine.closed bounded loosest (view_of tree) (stack_of stack.old) ≡ (view_of t, stack_of stack.new)) }
{
    let mut tree = tree;
    loop {
        match stack.pop() {
            None => return Ok(tree),
            Some(frame) => {
                if closes(&frame) > loosest {
                    stack.push(frame)?;
                    return Ok(tree);
                }
                tree = frame.fill(alloc, tree)?;
            }
        }
    }
}

/// Whether each frame is closed without a token of its own.
pub(crate) fn all_close(stack: &Stack<Frame>) -> bool
    ensures { result ≡ all_close (stack_of stack.now) }
{
    let frames = stack.as_slice();
    for at in (0..frames.len()).rev() {
        if closes(&frames[at]) > 3 {
            return false;
        }
    }
    true
}
