// Where an expression begins.
ghost use Rattle.std.specs.Prelude.{◌≡◌, IfOk};
ghost use Rattle.cg_parser_exprs_def.specs.Machine as machine;
ghost use Rattle.cg_parser_symbols.specs.Views.{symbol_view};
ghost use Rattle.cg_parser_build.specs.Bounded.{bounded};
ghost use Rattle.cg_parser_exprs_def.specs.Held.{types, patterns, Types, Patterns};
ghost use Rattle.cg_parser_exprs_frames.specs.Stack.{prefix_of, stack_of, mode_of, stage_of};

use cg_base::{Memory, Name, Place};
use cg_core::Op;
use cg_parser_build::{build, lists};
use cg_parser_exprs_frames::frame::{Frame, Mode, Owner, Prefix};
use cg_parser_exprs_frames::readers::Parts;
use cg_parser_exprs_frames::room::{room, stuck};
use cg_parser_stack::Stack;
use cg_parser_symbols::Symbol;
use std::alloc::Global;

/// At an upper name: where there is room it may have a payload.
fn on_upper(
    alloc: Global,
    stack: &mut Stack<Frame>,
    place: Place,
    bytes: &[u8],
) -> Result<Mode, Memory>
    ensures { IfOk result (λ m. (ts : Types) (ps : Patterns) → mode_of m ts ps (stack_of stack.new) ≡ machine.on_upper types patterns bounded place bytes.now (stack_of stack.old)) }
{
    let name = Name::new(alloc, bytes)?;
    if room(stack)? < 1 {
        return Ok(Mode::Have(build::con(place, name)));
    }
    Ok(Mode::AfterUpper(place, name))
}

/// At an operator with one operand.
fn on_prefix(stack: &mut Stack<Frame>, place: Place, prefix: Prefix) -> Result<Mode, Memory>
    ensures { IfOk result (λ m. (ts : Types) (ps : Patterns) → mode_of m ts ps (stack_of stack.new) ≡ machine.on_prefix types patterns bounded place (prefix_of prefix) (stack_of stack.old)) }
{
    if room(stack)? < 2 {
        return Ok(Mode::Stuck);
    }
    stack.push(Frame::Operand(place, prefix))?;
    Ok(Mode::Want)
}

/// At `let`.
fn on_let(
    alloc: Global,
    stack: &mut Stack<Frame>,
    parts: &mut Parts,
    place: Place,
) -> Result<Mode, Memory>
    ensures { IfOk result (λ m. stage_of m parts.new (stack_of stack.new) ≡ machine.on_let types patterns bounded place (stack_of stack.old)) }
{
    if room(stack)? < 12 {
        return Ok(Mode::Stuck);
    }
    parts.patterns.begin(alloc);
    Ok(Mode::InPattern(place, lists::no_binds(alloc)))
}

/// At `if`.
fn on_if(stack: &mut Stack<Frame>, place: Place) -> Result<Mode, Memory>
    ensures { IfOk result (λ m. (ts : Types) (ps : Patterns) → mode_of m ts ps (stack_of stack.new) ≡ machine.on_if types patterns bounded place (stack_of stack.old)) }
{
    if room(stack)? < 12 {
        return Ok(Mode::Stuck);
    }
    stack.push(Frame::Condition(place))?;
    Ok(Mode::Want)
}

/// At the closing parenthesis of `()`.
fn on_empty(stack: &mut Stack<Frame>) -> Result<Mode, Memory>
    ensures { IfOk result (λ m. (ts : Types) (ps : Patterns) → mode_of m ts ps (stack_of stack.new) ≡ machine.on_empty types patterns bounded (stack_of stack.old)) }
{
    match stack.pop() {
        None => Ok(Mode::Stuck),
        Some(Frame::InParen(place)) => Ok(Mode::Have(build::unit(place))),
        Some(frame) => stuck(stack, frame),
    }
}

/// Where an expression is wanted.
pub fn start<'a>(
    alloc: Global,
    stack: &mut Stack<Frame>,
    parts: &mut Parts,
    symbol: Symbol<'a>,
    place: Place,
) -> Result<Mode, Memory>
    ensures { IfOk result (λ m. stage_of m parts.new (stack_of stack.new) ≡ machine.start types patterns bounded (symbol_view symbol.entry) place (stack_of stack.old)) }
{
    match symbol {
        Symbol::Lower(bytes) => Ok(Mode::AfterLower(place, Name::new(alloc, bytes)?)),
        Symbol::Upper(bytes) => on_upper(alloc, stack, place, bytes),
        Symbol::Number(value) => Ok(Mode::Have(build::number(place, value))),
        Symbol::True => Ok(Mode::Have(build::boolean(place, true))),
        Symbol::False => Ok(Mode::Have(build::boolean(place, false))),
        Symbol::Opening => {
            stack.push(Frame::InParen(place))?;
            Ok(Mode::Want)
        }
        Symbol::Closing => on_empty(stack),
        Symbol::Unboxed => Ok(Mode::WantField(Owner::Record(place), lists::no_fields(alloc))),
        Symbol::Not => on_prefix(stack, place, Prefix::Operation(Op::Not)),
        Symbol::Complement => on_prefix(stack, place, Prefix::Operation(Op::Complement)),
        Symbol::Upcast => on_prefix(stack, place, Prefix::Upcast),
        Symbol::Let => on_let(alloc, stack, parts, place),
        Symbol::If => on_if(stack, place),
        _ => Ok(Mode::Stuck),
    }
}
