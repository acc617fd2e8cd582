// To which match a bar belongs.
ghost use Rattle.std.specs.Prelude.{◌≡◌, ◌∷◌, List};
ghost use Rattle.cg_parser_exprs_def.specs.Held.{Within};
ghost use Rattle.cg_parser_exprs_frames.specs.Stack.{frame_of, stack_of};
ghost use Rattle.cg_parser_exprs_bars.specs.Walk.{opens, linked, innermost, choice_of};
ghost use Rattle.cg_parser_exprs_def.specs.Bars.{inside_of, bar_choice};

use cg_parser_exprs_frames::frame::Frame;
use cg_parser_stack::Stack;

/// To which match a bar belongs: it opens one, belongs to the open match outside so many others, or stands at a wrong column.
#[derive(Clone, Copy)]
pub(crate) enum Choice {
    New,
    Joins(usize),
    Wrong,
}

/// What a frame says of the matches that are open below it: they end, they stay, or it is one more, whose first bar has this column.
#[derive(Clone, Copy)]
enum Link {
    Ends,
    Leaves,
    Bar(u32),
}

/// What a frame says of the matches that are open below it.
fn link_of(frame: &Frame) -> Link
    ensures { (fs : List Within) → opens (frame_of frame.now ∷ fs) ≡ linked result (opens fs) }
{
    match frame {
        Frame::Branch(open, _, _, _) => Link::Bar(open.column),
        Frame::Argument(_) => Link::Leaves,
        Frame::Payload(_, _) => Link::Leaves,
        Frame::Operand(_, _) => Link::Leaves,
        Frame::RightOf(_, _, _) => Link::Leaves,
        Frame::Body(_, _) => Link::Leaves,
        Frame::Else(_, _, _, _) => Link::Leaves,
        _ => Link::Ends,
    }
}

/// The column of the innermost open match.
fn innermost(stack: &Stack<Frame>) -> Option<u32>
    ensures { result ≡ innermost (opens (stack_of stack.now)) }
{
    let frames = stack.as_slice();
    for at in (0..frames.len()).rev() {
        match link_of(&frames[at]) {
            Link::Ends => return None,
            Link::Leaves => {}
            Link::Bar(column) => return Some(column),
        }
    }
    None
}

/// How many open matches stand inside the innermost one whose first bar has this column.
fn inside_of(stack: &Stack<Frame>, column: u32) -> Option<usize>
    ensures { result ≡ inside_of column (opens (stack_of stack.now)) }
{
    let mut inside = 0usize;
    let frames = stack.as_slice();
    for at in (0..frames.len()).rev() {
        match link_of(&frames[at]) {
            Link::Ends => return None,
            Link::Leaves => {}
            Link::Bar(bar) => {
                if bar == column {
                    return Some(inside);
                }
                inside += 1;
            }
        }
    }
    None
}

/// To which match a bar belongs that is first on its line, or isn't, and stands at this column.
#[tactic(auto, using(crate::proofs::Walk::chosen))]
pub(crate) fn bar_choice(stack: &Stack<Frame>, first: bool, column: u32) -> Choice
    ensures { choice_of result ≡ bar_choice first column (opens (stack_of stack.now)) }
{
    let Some(bar) = innermost(stack) else {
        return Choice::New;
    };
    if !first {
        return Choice::Joins(0);
    }
    match inside_of(stack, column) {
        Some(inside) => Choice::Joins(inside),
        None if bar < column => Choice::New,
        None => Choice::Wrong,
    }
}
