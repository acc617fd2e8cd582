// Where in a type the reader stands, and how it goes on.
ghost use Rattle.std.specs.Prelude.{◌≡◌, IfOk};
ghost use Rattle.cg_parser_symbols.specs.Views.{symbol_view};
ghost use Rattle.cg_parser_types.specs.Bounded.{bounded};
ghost use Rattle.cg_parser_types.specs.Machine as machine;
ghost use Rattle.cg_parser_types.specs.Stack.{stack_of, mode_of};
ghost use Rattle.cg_parser_types.specs.States.{end_of};

use crate::build;
use crate::built::{BuiltAlts, BuiltFields, BuiltType};
use crate::end::go_past;
use crate::frame::Frame;
use crate::reader::{TypeEnd, end_whole};
use crate::start::start;
use crate::step::{after_alt, after_head, alt_name, field_name, field_type, go_on};
use crate::taking::{after_take, take_dots, take_more, take_name, take_open};
use cg_base::{Items, Memory, Name, Place};
use cg_core::At;
use cg_parser_stack::Stack;
use cg_parser_symbols::Symbol;
use std::alloc::Global;

/// Where in a type the reader stands: before a type, behind one that stands alone, behind a name that may have arguments,
/// behind a type of which fields are taken, before a field and behind its name, before an alternative and behind its name,
/// behind `take` and in its parentheses, or where nothing goes on.
pub(crate) enum Mode {
    Want,
    Alone(Option<BuiltType>),
    Head(Place, Name),
    Taken(Option<BuiltType>),
    WantField(Place, bool, Option<BuiltFields>),
    AfterField(Place, bool, Option<BuiltFields>, At),
    WantAlt(Place, Option<BuiltAlts>),
    AfterAlt(Place, Option<BuiltAlts>, At),
    AfterTake(Place, Option<BuiltType>),
    TakeOpen(Place, Option<BuiltType>),
    TakeDots(Place, Option<BuiltType>),
    TakeName(Option<BuiltType>, Items<At>),
    TakeMore(Option<BuiltType>, Items<At>),
    Stuck,
}

impl Drop for Mode {
    fn drop(self) {
        match self {
            Mode::Want => {}
            Mode::Alone(tree) => drop(tree),
            Mode::Head(_, name) => drop(name),
            Mode::Taken(tree) => drop(tree),
            Mode::WantField(_, _, fields) => drop(fields),
            Mode::AfterField(_, _, fields, at) => {
                drop(fields);
                drop(at);
            }
            Mode::WantAlt(_, alts) => drop(alts),
            Mode::AfterAlt(_, alts, at) => {
                drop(alts);
                drop(at);
            }
            Mode::AfterTake(_, tree) => drop(tree),
            Mode::TakeOpen(_, tree) => drop(tree),
            Mode::TakeDots(_, tree) => drop(tree),
            Mode::TakeName(tree, names) => {
                drop(tree);
                drop(names);
            }
            Mode::TakeMore(tree, names) => {
                drop(tree);
                drop(names);
            }
            Mode::Stuck => {}
        }
    }
}

impl Mode {
    /// One symbol more.
    pub(crate) fn step<'a>(
        self,
        alloc: Global,
        stack: &mut Stack<Frame>,
        symbol: Symbol<'a>,
        place: Place,
    ) -> Result<Mode, Memory>
        ensures { IfOk result (λ m. mode_of m (stack_of stack.new) ≡ machine.mode_step bounded (mode_of self (stack_of stack.old)) (symbol_view symbol.entry) place) }
    {
        match self {
            Mode::Want => start(alloc, stack, symbol, place),
            Mode::Alone(tree) => go_on(alloc, stack, symbol, place, tree),
            Mode::Head(head, name) => after_head(alloc, stack, symbol, place, head, name),
            Mode::Taken(tree) => go_past(alloc, stack, symbol, place, tree),
            Mode::WantField(at, boxed, fields) => field_name(
                alloc, symbol, place, at, boxed, fields,
            ),
            Mode::AfterField(at, boxed, fields, name) => field_type(
                stack, symbol, at, boxed, fields, name,
            ),
            Mode::WantAlt(at, alts) => alt_name(alloc, symbol, place, at, alts),
            Mode::AfterAlt(at, alts, name) => after_alt(
                alloc, stack, symbol, place, at, alts, name,
            ),
            Mode::AfterTake(word, tree) => Ok(after_take(symbol, word, tree)),
            Mode::TakeOpen(word, tree) => take_open(alloc, symbol, place, word, tree),
            Mode::TakeDots(word, tree) => take_dots(alloc, symbol, word, tree),
            Mode::TakeName(tree, names) => take_name(alloc, symbol, tree, names),
            Mode::TakeMore(tree, names) => take_more(alloc, symbol, place, tree, names),
            Mode::Stuck => Ok(Mode::Stuck),
        }
    }

    /// The type that ends there, if one can.
    pub(crate) fn end(self, alloc: Global, stack: &mut Stack<Frame>) -> Result<TypeEnd, Memory>
        ensures { IfOk result (λ e. end_of e ≡ machine.mode_end bounded (mode_of self (stack_of stack.old))) }
    {
        match self {
            Mode::Alone(tree) => end_whole(alloc, stack, tree),
            Mode::Head(place, name) => {
                let tree = build::bare(alloc, place, name);
                end_whole(alloc, stack, tree)
            }
            Mode::Taken(tree) => end_whole(alloc, stack, tree),
            _ => Ok(TypeEnd::Unfinished),
        }
    }
}
