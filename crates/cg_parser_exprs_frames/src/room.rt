// How loose an expression may stand on the frames.
ghost use Rattle.std.specs.Prelude.{◌≡◌, List, IfOk, OnOk};
ghost use Rattle.cg_parser_exprs_def.specs.Machine as machine;
ghost use Rattle.cg_parser_build.specs.Bounded.{bounded};
ghost use Rattle.cg_parser_exprs_def.specs.Held.{types, patterns, Types, Patterns, Within};
ghost use Rattle.cg_parser_exprs_frames.specs.Stack.{frame_of, stack_of, mode_of};

use crate::frame::{Frame, Mode};
use crate::levels::right_of;
use cg_base::Memory;
use cg_parser_stack::Stack;

/// How loose an expression may stand in a frame.
fn hole(frame: &Frame) -> u32
    ensures { result ≡ machine.hole types patterns bounded (frame_of frame.now) }
{
    match frame {
        Frame::Argument(_) => 0,
        Frame::Payload(_, _) => 0,
        Frame::Operand(_, _) => 2,
        Frame::RightOf(_, op, _) => right_of(*op),
        _ => 12,
    }
}

/// How loose an expression may stand on the stack.
pub fn room(stack: &mut Stack<Frame>) -> Result<u32, Memory>
    ensures same { OnOk result (stack_of stack.new ≡ stack_of stack.old) }
    ensures room { IfOk result (λ n. n ≡ machine.room types patterns bounded (stack_of stack.old)) }
{
    match stack.pop() {
        None => Ok(12),
        Some(frame) => {
            let loosest = hole(&frame);
            stack.push(frame)?;
            Ok(loosest)
        }
    }
}

/// Puts a frame back where nothing goes on with what it waits for.
pub fn stuck(stack: &mut Stack<Frame>, frame: Frame) -> Result<Mode, Memory>
    ensures { IfOk result (λ m. (ts : Types) (ps : Patterns) (fs : List Within) → mode_of m ts ps fs ≡ machine.Stuck) }
{
    stack.push(frame)?;
    Ok(Mode::Stuck)
}
