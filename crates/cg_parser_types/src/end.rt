// Behind a type, at a symbol that ends it.
ghost use Rattle.std.specs.Prelude.{◌≡◌, List, ◌∷◌, IfOk};
ghost use Rattle.cg_parser_symbols.specs.Views.{symbol_view};
ghost use Rattle.cg_parser_types.specs.Bounded.{bounded};
ghost use Rattle.cg_parser_types.specs.Machine as machine;
ghost use Rattle.cg_parser_types.specs.Stack.{Open, frame_of, stack_of, mode_of};
ghost use Rattle.cg_parser_types.specs.Views.{view_of};

use crate::built::BuiltType;
use crate::close::{close, room};
use crate::frame::Frame;
use crate::mode::Mode;
use crate::{build, lists};
use cg_base::{Memory, Place};
use cg_parser_stack::Stack;
use cg_parser_symbols::Symbol;
use std::alloc::Global;

/// At a closing parenthesis.
fn on_close(
    alloc: Global,
    stack: &mut Stack<Frame>,
    tree: Option<BuiltType>,
) -> Result<Mode, Memory>
    ensures { IfOk result (λ m. mode_of m (stack_of stack.new) ≡ machine.on_close bounded (view_of tree) (stack_of stack.old)) }
{
    match stack.pop() {
        Some(frame) => frame.on_close(alloc, tree),
        None => Ok(Mode::Stuck),
    }
}

/// At a comma.
fn on_comma(
    alloc: Global,
    stack: &mut Stack<Frame>,
    tree: Option<BuiltType>,
) -> Result<Mode, Memory>
    ensures { IfOk result (λ m. mode_of m (stack_of stack.new) ≡ machine.on_comma bounded (view_of tree) (stack_of stack.old)) }
{
    match stack.pop() {
        Some(frame) => frame.on_comma(alloc, stack, tree),
        None => Ok(Mode::Stuck),
    }
}

/// At a closing brace.
fn on_closing_brace(stack: &mut Stack<Frame>, tree: Option<BuiltType>) -> Result<Mode, Memory>
    ensures { IfOk result (λ m. mode_of m (stack_of stack.new) ≡ machine.on_closing_brace bounded (view_of tree) (stack_of stack.old)) }
{
    match stack.pop() {
        Some(frame) => frame.on_closing_brace(tree),
        None => Ok(Mode::Stuck),
    }
}

/// At a bar.
fn on_bar(stack: &mut Stack<Frame>, tree: Option<BuiltType>) -> Result<Mode, Memory>
    ensures { IfOk result (λ m. mode_of m (stack_of stack.new) ≡ machine.on_bar bounded (view_of tree) (stack_of stack.old)) }
{
    match stack.pop() {
        Some(frame) => frame.on_bar(tree),
        None => Ok(Mode::Stuck),
    }
}

/// At `>`.
fn on_greater(stack: &mut Stack<Frame>, tree: Option<BuiltType>) -> Result<Mode, Memory>
    ensures { IfOk result (λ m. mode_of m (stack_of stack.new) ≡ machine.on_greater bounded (view_of tree) (stack_of stack.old)) }
{
    match stack.pop() {
        Some(frame) => frame.on_greater(tree),
        None => Ok(Mode::Stuck),
    }
}

/// At `take`.
fn on_take(stack: &mut Stack<Frame>, place: Place, tree: Option<BuiltType>) -> Result<Mode, Memory>
    ensures { IfOk result (λ m. mode_of m (stack_of stack.new) ≡ machine.on_take bounded place (view_of tree) (stack_of stack.old)) }
{
    if room(stack)? < 2 {
        return Ok(Mode::Stuck);
    }
    Ok(Mode::AfterTake(place, tree))
}

/// At an arrow.
fn on_arrow(stack: &mut Stack<Frame>, tree: Option<BuiltType>) -> Result<Mode, Memory>
    ensures { IfOk result (λ m. mode_of m (stack_of stack.new) ≡ machine.on_arrow bounded (view_of tree) (stack_of stack.old)) }
{
    if room(stack)? < 3 {
        return Ok(Mode::Stuck);
    }
    stack.push(Frame::InArrow(tree))?;
    Ok(Mode::Want)
}

/// At a symbol that ends a type, with the frames closed that it closes.
fn on_end<'a>(
    alloc: Global,
    stack: &mut Stack<Frame>,
    symbol: Symbol<'a>,
    place: Place,
    tree: Option<BuiltType>,
) -> Result<Mode, Memory>
    ensures { IfOk result (λ m. mode_of m (stack_of stack.new) ≡ machine.on_end bounded (symbol_view symbol.entry) place (view_of tree) (stack_of stack.old)) }
{
    match symbol {
        Symbol::Take => on_take(stack, place, tree),
        Symbol::Arrow => on_arrow(stack, tree),
        Symbol::Closing => on_close(alloc, stack, tree),
        Symbol::Comma => on_comma(alloc, stack, tree),
        Symbol::ClosingBrace => on_closing_brace(stack, tree),
        Symbol::Bar(_) => on_bar(stack, tree),
        Symbol::Greater(_) => on_greater(stack, tree),
        _ => Ok(Mode::Stuck),
    }
}

/// How loose a type may be before the symbol.
fn strength<'a>(symbol: Symbol<'a>) -> u32
    ensures { result ≡ machine.strength (symbol_view symbol.entry) }
{
    match symbol {
        Symbol::Take => 2,
        Symbol::Arrow => 2,
        _ => 3,
    }
}

/// Behind a type, at a symbol that begins none.
pub(crate) fn go_past<'a>(
    alloc: Global,
    stack: &mut Stack<Frame>,
    symbol: Symbol<'a>,
    place: Place,
    tree: Option<BuiltType>,
) -> Result<Mode, Memory>
    ensures { IfOk result (λ m. mode_of m (stack_of stack.new) ≡ machine.go_past bounded (symbol_view symbol.entry) place (view_of tree) (stack_of stack.old)) }
{
    let tree = close(alloc, stack, strength(symbol), tree)?;
    on_end(alloc, stack, symbol, place, tree)
}
