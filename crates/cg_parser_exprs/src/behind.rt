// Behind an expression.
ghost use Rattle.std.specs.Prelude.{◌≡◌, List, IfOk};
ghost use Rattle.cg_parser_exprs_def.specs.Machine as machine;
ghost use Rattle.cg_parser_symbols.specs.Views.{symbol_view};
ghost use Rattle.cg_parser_build.specs.Bounded.{bounded};
ghost use Rattle.cg_parser_exprs_def.specs.Held.{types, patterns, Types, Patterns, Within};
ghost use Rattle.cg_parser_exprs_frames.specs.Stack.{stack_of, mode_of, stage_of};
ghost use Rattle.cg_parser_exprs.specs.Behind.{behind};
ghost use Rattle.cg_parser_build.specs.Views.{view_of};

use cg_base::{Items, Memory, Name, Place};
use cg_core::At;
use cg_parser_build::{BuiltExpr, build, lists};
use cg_parser_exprs_bars::matches::on_bar;
use cg_parser_exprs_ends::ends::{on_and, on_end, on_in, on_then};
use cg_parser_exprs_frames::close::close;
use cg_parser_exprs_frames::frame::{Angle, Frame, Mode, Owner};
use cg_parser_exprs_frames::levels::left_of;
use cg_parser_exprs_frames::readers::Parts;
use cg_parser_exprs_start::operands::{on_argument, on_op};
use cg_parser_exprs_start::operators::{operator, starts_atom};
use cg_parser_exprs_start::start::start;
use cg_parser_stack::Stack;
use cg_parser_symbols::Symbol;
use std::alloc::Global;

/// At a symbol that is no operator and begins no atom.
fn go_past<'a>(
    alloc: Global,
    stack: &mut Stack<Frame>,
    parts: &mut Parts,
    symbol: Symbol<'a>,
    place: Place,
    tree: Option<BuiltExpr>,
) -> Result<Mode, Memory>
    ensures { IfOk result (λ m. stage_of m parts.new (stack_of stack.new) ≡ machine.go_past types patterns bounded (symbol_view symbol.entry) place (view_of tree) (stack_of stack.old)) }
{
    match symbol {
        Symbol::Less(_) => Ok(Mode::AfterAngle(Angle::ToLeft, place, tree)),
        Symbol::Greater(_) => Ok(Mode::AfterAngle(Angle::ToRight, place, tree)),
        Symbol::Bang => {
            let tree = close(alloc, stack, 11, tree)?;
            Ok(Mode::AfterBang(tree, Items::new(alloc)))
        }
        Symbol::Bar(first) => on_bar(alloc, stack, first, place, Items::new(alloc), tree),
        _ => {
            let tree = close(alloc, stack, 12, tree)?;
            on_end(alloc, stack, parts, symbol, tree)
        }
    }
}

/// Behind an expression that takes no argument at this symbol.
fn go_on<'a>(
    alloc: Global,
    stack: &mut Stack<Frame>,
    parts: &mut Parts,
    symbol: Symbol<'a>,
    place: Place,
    tree: Option<BuiltExpr>,
) -> Result<Mode, Memory>
    ensures { IfOk result (λ m. stage_of m parts.new (stack_of stack.new) ≡ machine.go_on types patterns bounded (symbol_view symbol.entry) place (view_of tree) (stack_of stack.old)) }
{
    match operator(symbol) {
        Some(op) => {
            let left = close(alloc, stack, left_of(op), tree)?;
            on_op(stack, op, place, left)
        }
        None => go_past(alloc, stack, parts, symbol, place, tree),
    }
}

/// Behind an atom with what is behind it, at neither a dot nor a brace.
fn have_more<'a>(
    alloc: Global,
    stack: &mut Stack<Frame>,
    parts: &mut Parts,
    symbol: Symbol<'a>,
    place: Place,
    tree: Option<BuiltExpr>,
) -> Result<Mode, Memory>
    ensures { IfOk result (λ m. stage_of m parts.new (stack_of stack.new) ≡ behind (symbol_view symbol.entry) place (view_of tree) (stack_of stack.old)) }
{
    if starts_atom(symbol) {
        let function = close(alloc, stack, 1, tree)?;
        on_argument(alloc, stack, parts, symbol, place, function)
    } else {
        go_on(alloc, stack, parts, symbol, place, tree)
    }
}

/// Behind an atom with what is behind it.
pub(crate) fn have<'a>(
    alloc: Global,
    stack: &mut Stack<Frame>,
    parts: &mut Parts,
    symbol: Symbol<'a>,
    place: Place,
    tree: Option<BuiltExpr>,
) -> Result<Mode, Memory>
    ensures { IfOk result (λ m. stage_of m parts.new (stack_of stack.new) ≡ machine.have types patterns bounded (symbol_view symbol.entry) place (view_of tree) (stack_of stack.old)) }
{
    match symbol {
        Symbol::Dot => Ok(Mode::AfterDot(tree)),
        Symbol::Brace => Ok(Mode::WantField(Owner::Put(tree), lists::no_fields(alloc))),
        _ => have_more(alloc, stack, parts, symbol, place, tree),
    }
}

/// Behind a name.
pub(crate) fn after_lower<'a>(
    alloc: Global,
    stack: &mut Stack<Frame>,
    parts: &mut Parts,
    symbol: Symbol<'a>,
    place: Place,
    head: Place,
    name: Name,
) -> Result<Mode, Memory>
    ensures { IfOk result (λ m. stage_of m parts.new (stack_of stack.new) ≡ machine.after_lower types patterns bounded (symbol_view symbol.entry) place head name (stack_of stack.old)) }
{
    match symbol {
        Symbol::Bracket => {
            parts.types.begin(alloc);
            Ok(Mode::InArgs(head, name, lists::no_args(alloc)))
        }
        _ => {
            let tree = build::name(head, name, lists::no_args(alloc));
            have(alloc, stack, parts, symbol, place, tree)
        }
    }
}

/// Behind a constructor at the head of an expression.
pub(crate) fn after_upper<'a>(
    alloc: Global,
    stack: &mut Stack<Frame>,
    parts: &mut Parts,
    symbol: Symbol<'a>,
    place: Place,
    head: Place,
    name: Name,
) -> Result<Mode, Memory>
    ensures { IfOk result (λ m. stage_of m parts.new (stack_of stack.new) ≡ machine.after_upper types patterns bounded (symbol_view symbol.entry) place head name (stack_of stack.old)) }
{
    if starts_atom(symbol) {
        stack.push(Frame::Payload(head, name))?;
        start(alloc, stack, parts, symbol, place)
    } else {
        let tree = build::con(head, name);
        go_on(alloc, stack, parts, symbol, place, tree)
    }
}

/// Behind the sign of an observed variable.
pub(crate) fn after_bang<'a>(
    alloc: Global,
    symbol: Symbol<'a>,
    place: Place,
    tree: Option<BuiltExpr>,
    seen: Items<At>,
) -> Result<Mode, Memory>
    ensures { IfOk result (λ m. (ts : Types) (ps : Patterns) (fs : List Within) → mode_of m ts ps fs ≡ machine.after_bang types patterns bounded (symbol_view symbol.entry) place (view_of tree) seen fs) }
{
    match symbol {
        Symbol::Lower(bytes) => {
            let name = Name::new(alloc, bytes)?;
            let mut seen = seen;
            seen.push(At { place, name })?;
            Ok(Mode::Observed(tree, seen))
        }
        _ => Ok(Mode::Stuck),
    }
}

/// Behind an observed variable.
pub(crate) fn observed<'a>(
    alloc: Global,
    stack: &mut Stack<Frame>,
    parts: &mut Parts,
    symbol: Symbol<'a>,
    place: Place,
    tree: Option<BuiltExpr>,
    seen: Items<At>,
) -> Result<Mode, Memory>
    ensures { IfOk result (λ m. stage_of m parts.new (stack_of stack.new) ≡ machine.observed types patterns bounded (symbol_view symbol.entry) place (view_of tree) seen (stack_of stack.old)) }
{
    match symbol {
        Symbol::Bang => Ok(Mode::AfterBang(tree, seen)),
        Symbol::Bar(first) => on_bar(alloc, stack, first, place, seen, tree),
        Symbol::In => {
            let tree = close(alloc, stack, 12, tree)?;
            on_in(stack, seen, tree)
        }
        Symbol::And => {
            let tree = close(alloc, stack, 12, tree)?;
            on_and(alloc, stack, parts, seen, tree)
        }
        Symbol::Then => {
            let tree = close(alloc, stack, 12, tree)?;
            on_then(stack, seen, tree)
        }
        _ => Ok(Mode::Stuck),
    }
}
