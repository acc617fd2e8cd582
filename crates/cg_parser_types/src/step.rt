// One symbol more of a type.
ghost use Rattle.std.specs.Prelude.{◌≡◌, List, ◌∷◌, IfOk};
ghost use Rattle.cg_parser_symbols.specs.Views.{symbol_view};
ghost use Rattle.cg_parser_types.specs.Bounded.{bounded};
ghost use Rattle.cg_parser_types.specs.Machine as machine;
ghost use Rattle.cg_parser_types.specs.Stack.{Open, frame_of, stack_of, mode_of};
ghost use Rattle.cg_parser_types.specs.Views.{view_of, fields_view, alts_view};

use crate::built::{BuiltAlts, BuiltFields, BuiltType};
use crate::end::go_past;
use crate::frame::Frame;
use crate::mode::Mode;
use crate::start::{start, starts};
use crate::taking::{after_take, take_dots, take_more, take_name, take_open};
use crate::{build, lists};
use cg_base::{Memory, Name, Place};
use cg_core::At;
use cg_parser_stack::Stack;
use cg_parser_symbols::Symbol;
use std::alloc::Global;

/// At a symbol that begins an argument, behind one.
fn next_argument<'a>(
    alloc: Global,
    stack: &mut Stack<Frame>,
    symbol: Symbol<'a>,
    place: Place,
    tree: Option<BuiltType>,
) -> Result<Mode, Memory>
    ensures { IfOk result (λ m. mode_of m (stack_of stack.new) ≡ machine.next_argument bounded (symbol_view symbol.entry) place (view_of tree) (stack_of stack.old)) }
{
    match stack.pop() {
        Some(frame) => frame.next_argument(alloc, stack, symbol, place, tree),
        None => Ok(Mode::Stuck),
    }
}

/// Behind a type that stands alone, at a symbol that begins none.
fn behind_alone<'a>(
    alloc: Global,
    stack: &mut Stack<Frame>,
    symbol: Symbol<'a>,
    place: Place,
    tree: Option<BuiltType>,
) -> Result<Mode, Memory>
    ensures { IfOk result (λ m. mode_of m (stack_of stack.new) ≡ machine.behind_alone bounded (symbol_view symbol.entry) place (view_of tree) (stack_of stack.old)) }
{
    match symbol {
        Symbol::Bang => Ok(Mode::Alone(build::bang(alloc, tree)?)),
        _ => go_past(alloc, stack, symbol, place, tree),
    }
}

/// Behind a type that stands alone.
pub(crate) fn go_on<'a>(
    alloc: Global,
    stack: &mut Stack<Frame>,
    symbol: Symbol<'a>,
    place: Place,
    tree: Option<BuiltType>,
) -> Result<Mode, Memory>
    ensures { IfOk result (λ m. mode_of m (stack_of stack.new) ≡ machine.go_on bounded (symbol_view symbol.entry) place (view_of tree) (stack_of stack.old)) }
{
    if starts(symbol) {
        next_argument(alloc, stack, symbol, place, tree)
    } else {
        behind_alone(alloc, stack, symbol, place, tree)
    }
}

/// Behind a name that may have arguments.
pub(crate) fn after_head<'a>(
    alloc: Global,
    stack: &mut Stack<Frame>,
    symbol: Symbol<'a>,
    place: Place,
    head: Place,
    name: Name,
) -> Result<Mode, Memory>
    ensures { IfOk result (λ m. mode_of m (stack_of stack.new) ≡ machine.after_head bounded (symbol_view symbol.entry) place head name (stack_of stack.old)) }
{
    if starts(symbol) {
        stack.push(Frame::InArgs(head, name, lists::no_types(alloc)))?;
        start(alloc, stack, symbol, place)
    } else {
        let tree = build::bare(alloc, head, name);
        behind_alone(alloc, stack, symbol, place, tree)
    }
}

/// Where a field is wanted.
pub(crate) fn field_name<'a>(
    alloc: Global,
    symbol: Symbol<'a>,
    place: Place,
    head: Place,
    boxed: bool,
    fields: Option<BuiltFields>,
) -> Result<Mode, Memory>
    ensures { IfOk result (λ m. (fs : List Open) → mode_of m fs ≡ machine.field_name bounded (symbol_view symbol.entry) place head boxed (fields_view fields) fs) }
{
    match symbol {
        Symbol::Lower(bytes) => {
            let name = Name::new(alloc, bytes)?;
            Ok(Mode::AfterField(head, boxed, fields, At { place, name }))
        }
        _ => Ok(Mode::Stuck),
    }
}

/// Behind a field's name.
pub(crate) fn field_type<'a>(
    stack: &mut Stack<Frame>,
    symbol: Symbol<'a>,
    head: Place,
    boxed: bool,
    fields: Option<BuiltFields>,
    at: At,
) -> Result<Mode, Memory>
    ensures { IfOk result (λ m. mode_of m (stack_of stack.new) ≡ machine.field_type bounded (symbol_view symbol.entry) head boxed (fields_view fields) at (stack_of stack.old)) }
{
    match symbol {
        Symbol::Colon => {
            stack.push(Frame::InField(head, boxed, fields, at))?;
            Ok(Mode::Want)
        }
        _ => Ok(Mode::Stuck),
    }
}

/// Where an alternative is wanted.
pub(crate) fn alt_name<'a>(
    alloc: Global,
    symbol: Symbol<'a>,
    place: Place,
    variant: Place,
    alts: Option<BuiltAlts>,
) -> Result<Mode, Memory>
    ensures { IfOk result (λ m. (fs : List Open) → mode_of m fs ≡ machine.alt_name bounded (symbol_view symbol.entry) place variant (alts_view alts) fs) }
{
    match symbol {
        Symbol::Upper(bytes) => {
            let name = Name::new(alloc, bytes)?;
            Ok(Mode::AfterAlt(variant, alts, At { place, name }))
        }
        _ => Ok(Mode::Stuck),
    }
}

/// Behind an alternative's name.
pub(crate) fn after_alt<'a>(
    alloc: Global,
    stack: &mut Stack<Frame>,
    symbol: Symbol<'a>,
    place: Place,
    variant: Place,
    alts: Option<BuiltAlts>,
    at: At,
) -> Result<Mode, Memory>
    ensures { IfOk result (λ m. mode_of m (stack_of stack.new) ≡ machine.after_alt bounded (symbol_view symbol.entry) place variant (alts_view alts) at (stack_of stack.old)) }
{
    match symbol {
        Symbol::Bar(_) => Ok(Mode::WantAlt(variant, lists::and_plain(alts, at)?)),
        Symbol::Greater(_) => {
            let alts = lists::and_plain(alts, at)?;
            Ok(Mode::Alone(build::variant(variant, alts)))
        }
        _ => {
            stack.push(Frame::InAlt(variant, alts, at))?;
            start(alloc, stack, symbol, place)
        }
    }
}
