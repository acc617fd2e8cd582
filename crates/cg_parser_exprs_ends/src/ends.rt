// Behind an expression, at a symbol that ends it.
ghost use Rattle.std.specs.Prelude.{◌≡◌, IfOk};
ghost use Rattle.cg_parser_exprs_def.specs.Machine as machine;
ghost use Rattle.cg_parser_symbols.specs.Views.{symbol_view};
ghost use Rattle.cg_parser_build.specs.Bounded.{bounded};
ghost use Rattle.cg_parser_exprs_def.specs.Held.{types, patterns, Types, Patterns};
ghost use Rattle.cg_parser_exprs_frames.specs.Stack.{stack_of, mode_of, stage_of};
ghost use Rattle.cg_parser_build.specs.Views.{view_of};

use cg_base::{Items, Memory};
use cg_core::At;
use cg_parser_build::{BuiltExpr, build, lists};
use cg_parser_exprs_frames::frame::{Frame, Mode};
use cg_parser_exprs_frames::readers::Parts;
use cg_parser_exprs_frames::room::stuck;
use cg_parser_stack::Stack;
use cg_parser_symbols::Symbol;
use std::alloc::Global;

/// At a closing parenthesis.
fn on_close(
    alloc: Global,
    stack: &mut Stack<Frame>,
    tree: Option<BuiltExpr>,
) -> Result<Mode, Memory>
    ensures { IfOk result (λ m. (ts : Types) (ps : Patterns) → mode_of m ts ps (stack_of stack.new) ≡ machine.on_close types patterns bounded (view_of tree) (stack_of stack.old)) }
{
    match stack.pop() {
        None => Ok(Mode::Stuck),
        Some(Frame::InParen(place)) => Ok(Mode::Have(build::paren(alloc, place, tree)?)),
        Some(Frame::InTuple(place, exprs)) => {
            let exprs = lists::and_expr(exprs, tree)?;
            Ok(Mode::Have(build::tuple(place, exprs)))
        }
        Some(frame) => stuck(stack, frame),
    }
}

/// At a comma.
fn on_comma(
    alloc: Global,
    stack: &mut Stack<Frame>,
    tree: Option<BuiltExpr>,
) -> Result<Mode, Memory>
    ensures { IfOk result (λ m. (ts : Types) (ps : Patterns) → mode_of m ts ps (stack_of stack.new) ≡ machine.on_comma types patterns bounded (view_of tree) (stack_of stack.old)) }
{
    match stack.pop() {
        None => Ok(Mode::Stuck),
        Some(Frame::InParen(place)) => {
            let exprs = lists::and_expr(lists::no_exprs(alloc), tree)?;
            stack.push(Frame::InTuple(place, exprs))?;
            Ok(Mode::Want)
        }
        Some(Frame::InTuple(place, exprs)) => {
            let exprs = lists::and_expr(exprs, tree)?;
            stack.push(Frame::InTuple(place, exprs))?;
            Ok(Mode::Want)
        }
        Some(Frame::InField(owner, fields, at)) => {
            let fields = lists::and_field(fields, at, tree)?;
            Ok(Mode::WantField(owner, fields))
        }
        Some(frame) => stuck(stack, frame),
    }
}

/// At a closing brace.
fn on_brace(
    alloc: Global,
    stack: &mut Stack<Frame>,
    tree: Option<BuiltExpr>,
) -> Result<Mode, Memory>
    ensures { IfOk result (λ m. (ts : Types) (ps : Patterns) → mode_of m ts ps (stack_of stack.new) ≡ machine.on_brace types patterns bounded (view_of tree) (stack_of stack.old)) }
{
    match stack.pop() {
        None => Ok(Mode::Stuck),
        Some(Frame::InField(owner, fields, at)) => {
            let fields = lists::and_field(fields, at, tree)?;
            Ok(Mode::Have(owner.owned(alloc, fields)?))
        }
        Some(frame) => stuck(stack, frame),
    }
}

/// At a colon, behind which a type is read.
fn on_colon(
    alloc: Global,
    stack: &mut Stack<Frame>,
    parts: &mut Parts,
    tree: Option<BuiltExpr>,
) -> Result<Mode, Memory>
    ensures { IfOk result (λ m. stage_of m parts.new (stack_of stack.new) ≡ machine.on_colon types patterns bounded (view_of tree) (stack_of stack.old)) }
{
    match stack.pop() {
        None => Ok(Mode::Stuck),
        Some(Frame::InParen(place)) => {
            parts.types.begin(alloc);
            Ok(Mode::InSig(place, tree))
        }
        Some(frame) => stuck(stack, frame),
    }
}

/// At `in`.
pub fn on_in(
    stack: &mut Stack<Frame>,
    seen: Items<At>,
    tree: Option<BuiltExpr>,
) -> Result<Mode, Memory>
    ensures { IfOk result (λ m. (ts : Types) (ps : Patterns) → mode_of m ts ps (stack_of stack.new) ≡ machine.on_in types patterns bounded seen (view_of tree) (stack_of stack.old)) }
{
    match stack.pop() {
        None => Ok(Mode::Stuck),
        Some(Frame::Bound(place, binds, pattern)) => {
            let binds = lists::and_bind(binds, pattern, tree, seen)?;
            stack.push(Frame::Body(place, binds))?;
            Ok(Mode::Want)
        }
        Some(frame) => stuck(stack, frame),
    }
}

/// At `and`, behind which another pattern is read.
pub fn on_and(
    alloc: Global,
    stack: &mut Stack<Frame>,
    parts: &mut Parts,
    seen: Items<At>,
    tree: Option<BuiltExpr>,
) -> Result<Mode, Memory>
    ensures { IfOk result (λ m. stage_of m parts.new (stack_of stack.new) ≡ machine.on_and types patterns bounded seen (view_of tree) (stack_of stack.old)) }
{
    match stack.pop() {
        None => Ok(Mode::Stuck),
        Some(Frame::Bound(place, binds, pattern)) => {
            let binds = lists::and_bind(binds, pattern, tree, seen)?;
            parts.patterns.begin(alloc);
            Ok(Mode::InPattern(place, binds))
        }
        Some(frame) => stuck(stack, frame),
    }
}

/// At `then`.
pub fn on_then(
    stack: &mut Stack<Frame>,
    seen: Items<At>,
    tree: Option<BuiltExpr>,
) -> Result<Mode, Memory>
    ensures { IfOk result (λ m. (ts : Types) (ps : Patterns) → mode_of m ts ps (stack_of stack.new) ≡ machine.on_then types patterns bounded seen (view_of tree) (stack_of stack.old)) }
{
    match stack.pop() {
        None => Ok(Mode::Stuck),
        Some(Frame::Condition(place)) => {
            stack.push(Frame::Then(place, tree, seen))?;
            Ok(Mode::Want)
        }
        Some(frame) => stuck(stack, frame),
    }
}

/// At `else`.
fn on_else(stack: &mut Stack<Frame>, tree: Option<BuiltExpr>) -> Result<Mode, Memory>
    ensures { IfOk result (λ m. (ts : Types) (ps : Patterns) → mode_of m ts ps (stack_of stack.new) ≡ machine.on_else types patterns bounded (view_of tree) (stack_of stack.old)) }
{
    match stack.pop() {
        None => Ok(Mode::Stuck),
        Some(Frame::Then(place, condition, seen)) => {
            stack.push(Frame::Else(place, condition, seen, tree))?;
            Ok(Mode::Want)
        }
        Some(frame) => stuck(stack, frame),
    }
}

/// At a word or a sign that ends an expression, with the frames closed that it closes.
pub fn on_end<'a>(
    alloc: Global,
    stack: &mut Stack<Frame>,
    parts: &mut Parts,
    symbol: Symbol<'a>,
    tree: Option<BuiltExpr>,
) -> Result<Mode, Memory>
    ensures { IfOk result (λ m. stage_of m parts.new (stack_of stack.new) ≡ machine.on_end types patterns bounded (symbol_view symbol.entry) (view_of tree) (stack_of stack.old)) }
{
    match symbol {
        Symbol::Closing => on_close(alloc, stack, tree),
        Symbol::Comma => on_comma(alloc, stack, tree),
        Symbol::ClosingBrace => on_brace(alloc, stack, tree),
        Symbol::Colon => on_colon(alloc, stack, parts, tree),
        Symbol::In => on_in(stack, Items::new(alloc), tree),
        Symbol::And => on_and(alloc, stack, parts, Items::new(alloc), tree),
        Symbol::Then => on_then(stack, Items::new(alloc), tree),
        Symbol::Else => on_else(stack, tree),
        _ => Ok(Mode::Stuck),
    }
}
