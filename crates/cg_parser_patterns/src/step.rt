// Reading a pattern, one symbol at a time.
ghost use Rattle.std.specs.Prelude.{◌≡◌, List, IfOk};
ghost use Rattle.cg_parser_symbols.specs.Views.{symbol_view};
ghost use Rattle.cg_parser_patterns.specs.Machine as machine;
ghost use Rattle.cg_parser_patterns.specs.Bounded.{bounded};
ghost use Rattle.cg_parser_patterns.specs.Views.{view_of, fields_of};
ghost use Rattle.cg_parser_patterns.specs.Stack.{Open, opener_of, stack_of, mode_of};

use crate::build;
use crate::built::{BuiltFields, BuiltPattern};
use crate::frame::Frame;
use crate::mode::Mode;
use crate::opener::{Opener, opened};
use cg_base::{Memory, Name, Place};
use cg_core::At;
use cg_parser_stack::Stack;
use cg_parser_symbols::Symbol;
use std::alloc::Global;

/// At a closing parenthesis.
fn on_close(
    alloc: Global,
    stack: &mut Stack<Frame>,
    pattern: Option<BuiltPattern>,
) -> Result<Mode, Memory>
    ensures { IfOk result (λ m. mode_of m (stack_of stack.new) ≡ machine.on_close bounded (view_of pattern) (stack_of stack.old)) }
{
    match stack.pop() {
        Some(frame) => frame.on_close(alloc, pattern),
        None => Ok(Mode::Stuck),
    }
}

/// At a comma.
fn on_comma(
    alloc: Global,
    stack: &mut Stack<Frame>,
    pattern: Option<BuiltPattern>,
) -> Result<Mode, Memory>
    ensures { IfOk result (λ m. mode_of m (stack_of stack.new) ≡ machine.on_comma bounded (view_of pattern) (stack_of stack.old)) }
{
    match stack.pop() {
        Some(frame) => frame.on_comma(alloc, stack, pattern),
        None => Ok(Mode::Stuck),
    }
}

/// At a closing brace.
fn on_brace(stack: &mut Stack<Frame>, pattern: Option<BuiltPattern>) -> Result<Mode, Memory>
    ensures { IfOk result (λ m. mode_of m (stack_of stack.new) ≡ machine.on_brace bounded (view_of pattern) (stack_of stack.old)) }
{
    match stack.pop() {
        Some(frame) => frame.on_brace(pattern),
        None => Ok(Mode::Stuck),
    }
}

/// Behind a pattern.
pub(crate) fn go_on<'a>(
    alloc: Global,
    stack: &mut Stack<Frame>,
    symbol: Symbol<'a>,
    pattern: Option<BuiltPattern>,
) -> Result<Mode, Memory>
    ensures { IfOk result (λ m. mode_of m (stack_of stack.new) ≡ machine.go_on bounded (symbol_view symbol.entry) (view_of pattern) (stack_of stack.old)) }
{
    match symbol {
        Symbol::Closing => on_close(alloc, stack, pattern),
        Symbol::Comma => on_comma(alloc, stack, pattern),
        Symbol::ClosingBrace => on_brace(stack, pattern),
        _ => Ok(Mode::Stuck),
    }
}

/// Behind a name, which `{` makes that of a record.
pub(crate) fn name_on<'a>(
    alloc: Global,
    stack: &mut Stack<Frame>,
    symbol: Symbol<'a>,
    place: Place,
    name: Name,
) -> Result<Mode, Memory>
    ensures { IfOk result (λ m. mode_of m (stack_of stack.new) ≡ machine.name_on bounded (symbol_view symbol.entry) place name (stack_of stack.old)) }
{
    match symbol {
        Symbol::Brace => Ok(Mode::WantField(Opener::Taken(place, name), build::no_fields(alloc))),
        _ => go_on(alloc, stack, symbol, build::name(place, name)),
    }
}

/// At the closing parenthesis of `()`.
fn on_empty(stack: &mut Stack<Frame>) -> Mode
    ensures { mode_of result (stack_of stack.new) ≡ machine.on_empty bounded (stack_of stack.old) }
{
    match stack.pop() {
        Some(frame) => frame.on_empty(),
        None => Mode::Stuck,
    }
}

/// Where a pattern is wanted.
pub(crate) fn start<'a>(
    alloc: Global,
    stack: &mut Stack<Frame>,
    symbol: Symbol<'a>,
    place: Place,
) -> Result<Mode, Memory>
    ensures { IfOk result (λ m. mode_of m (stack_of stack.new) ≡ machine.start bounded (symbol_view symbol.entry) place (stack_of stack.old)) }
{
    match symbol {
        Symbol::Lower(name) => Ok(Mode::Head(place, Name::new(alloc, name)?)),
        Symbol::Wildcard => Ok(Mode::Have(build::any(place))),
        Symbol::Opening => {
            stack.push(Frame::InParen(place))?;
            Ok(Mode::Want)
        }
        Symbol::Closing => Ok(on_empty(stack)),
        Symbol::Unboxed => Ok(Mode::WantField(Opener::Unboxed(place), build::no_fields(alloc))),
        _ => Ok(Mode::Stuck),
    }
}

/// Where a field is wanted.
pub(crate) fn field<'a>(
    alloc: Global,
    symbol: Symbol<'a>,
    place: Place,
    opener: Opener,
    before: Option<BuiltFields>,
) -> Result<Mode, Memory>
    ensures { IfOk result (λ m. (fs : List Open) → mode_of m fs ≡ machine.field bounded (symbol_view symbol.entry) place (opener_of opener) (fields_of before) fs) }
{
    match symbol {
        Symbol::Lower(name) => {
            let name = Name::new(alloc, name)?;
            Ok(Mode::AfterField(opener, before, At { place, name }))
        }
        _ => Ok(Mode::Stuck),
    }
}

/// A field more that is written alone: it is bound to its own name.
fn alone(alloc: Global, before: Option<BuiltFields>, at: At) -> Result<Option<BuiltFields>, Memory>
    ensures { IfOk result (λ fs. fields_of fs ≡ machine.alone bounded (fields_of before) at) }
{
    let pattern = build::name(at.place, at.name.copy(alloc)?);
    build::and_field(before, at, pattern)
}

/// Behind a field's name.
pub(crate) fn field_on<'a>(
    alloc: Global,
    stack: &mut Stack<Frame>,
    symbol: Symbol<'a>,
    opener: Opener,
    before: Option<BuiltFields>,
    at: At,
) -> Result<Mode, Memory>
    ensures { IfOk result (λ m. mode_of m (stack_of stack.new) ≡ machine.field_on bounded (symbol_view symbol.entry) (opener_of opener) (fields_of before) at (stack_of stack.old)) }
{
    match symbol {
        Symbol::Equals => {
            stack.push(Frame::InField(opener, before, at))?;
            Ok(Mode::Want)
        }
        Symbol::Comma => Ok(Mode::WantField(opener, alone(alloc, before, at)?)),
        Symbol::ClosingBrace => Ok(Mode::Have(opened(opener, alone(alloc, before, at)?))),
        _ => Ok(Mode::Stuck),
    }
}
