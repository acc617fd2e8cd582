// Where a type begins.
ghost use Rattle.std.specs.Prelude.{◌≡◌, List, ◌∷◌, IfOk};
ghost use Rattle.cg_parser_symbols.specs.Views.{symbol_view};
ghost use Rattle.cg_parser_types.specs.Bounded.{bounded};
ghost use Rattle.cg_parser_types.specs.Machine as machine;
ghost use Rattle.cg_parser_types.specs.Stack.{Open, frame_of, stack_of, mode_of};

use crate::close::room;
use crate::frame::Frame;
use crate::mode::Mode;
use crate::{build, lists};
use cg_base::{Memory, Name, Place};
use cg_parser_stack::Stack;
use cg_parser_symbols::Symbol;
use std::alloc::Global;

/// Whether a type begins with the symbol.
pub(crate) fn starts<'a>(symbol: Symbol<'a>) -> bool
    ensures { result ≡ machine.starts (symbol_view symbol.entry) }
{
    match symbol {
        Symbol::Lower(_) => true,
        Symbol::Upper(_) => true,
        Symbol::Opening => true,
        Symbol::Brace => true,
        Symbol::Unboxed => true,
        Symbol::Less(_) => true,
        _ => false,
    }
}

/// At the closing parenthesis of `()`.
fn on_empty(stack: &mut Stack<Frame>) -> Mode
    ensures { mode_of result (stack_of stack.new) ≡ machine.on_empty bounded (stack_of stack.old) }
{
    match stack.pop() {
        Some(frame) => frame.on_empty(),
        None => Mode::Stuck,
    }
}

/// At an upper name.
fn on_upper(
    alloc: Global,
    stack: &mut Stack<Frame>,
    place: Place,
    bytes: &[u8],
) -> Result<Mode, Memory>
    ensures { IfOk result (λ m. mode_of m (stack_of stack.new) ≡ machine.on_upper bounded place bytes.now (stack_of stack.old)) }
{
    let name = Name::new(alloc, bytes)?;
    if room(stack)? < 1 {
        return Ok(Mode::Alone(build::bare(alloc, place, name)));
    }
    Ok(Mode::Head(place, name))
}

/// At a lower name.
fn on_lower(alloc: Global, place: Place, bytes: &[u8]) -> Result<Mode, Memory>
    ensures { IfOk result (λ m. (fs : List Open) → mode_of m fs ≡ machine.Alone (machine.bare bounded place bytes.now) fs) }
{
    let name = Name::new(alloc, bytes)?;
    Ok(Mode::Alone(build::bare(alloc, place, name)))
}

/// Where a type is wanted.
pub(crate) fn start<'a>(
    alloc: Global,
    stack: &mut Stack<Frame>,
    symbol: Symbol<'a>,
    place: Place,
) -> Result<Mode, Memory>
    ensures { IfOk result (λ m. mode_of m (stack_of stack.new) ≡ machine.start bounded (symbol_view symbol.entry) place (stack_of stack.old)) }
{
    match symbol {
        Symbol::Lower(bytes) => on_lower(alloc, place, bytes),
        Symbol::Upper(bytes) => on_upper(alloc, stack, place, bytes),
        Symbol::Opening => {
            stack.push(Frame::InParen(place))?;
            Ok(Mode::Want)
        }
        Symbol::Closing => Ok(on_empty(stack)),
        Symbol::Brace => Ok(Mode::WantField(place, true, lists::no_fields(alloc))),
        Symbol::Unboxed => Ok(Mode::WantField(place, false, lists::no_fields(alloc))),
        Symbol::Less(_) => Ok(Mode::WantAlt(place, lists::no_alts(alloc))),
        _ => Ok(Mode::Stuck),
    }
}
