// Where in a pattern the reader stands, and how it goes on.
ghost use Rattle.std.specs.Prelude.{◌≡◌, IfOk};
ghost use Rattle.cg_parser_symbols.specs.Views.{symbol_view};
ghost use Rattle.cg_parser_patterns.specs.Machine as machine;
ghost use Rattle.cg_parser_patterns.specs.Bounded.{bounded};
ghost use Rattle.cg_parser_patterns.specs.Stack.{stack_of, mode_of};
ghost use Rattle.cg_parser_patterns.specs.Views.{end_of};

use crate::build;
use crate::built::{BuiltFields, BuiltPattern, PatternEnd};
use crate::frame::Frame;
use crate::opener::Opener;
use crate::reader::end_whole;
use crate::step::{field, field_on, go_on, name_on, start};
use cg_base::{Memory, Name, Place};
use cg_core::At;
use cg_parser_stack::Stack;
use cg_parser_symbols::Symbol;
use std::alloc::Global;

/// Where in a pattern the reader stands: before a pattern, behind one, behind a name, before a field, behind a field's name,
/// or where nothing goes on.
pub(crate) enum Mode {
    Want,
    Have(Option<BuiltPattern>),
    Head(Place, Name),
    WantField(Opener, Option<BuiltFields>),
    AfterField(Opener, Option<BuiltFields>, At),
    Stuck,
}

impl Drop for Mode {
    fn drop(self) {
        match self {
            Mode::Want => {}
            Mode::Have(pattern) => drop(pattern),
            Mode::Head(_, name) => drop(name),
            Mode::WantField(opener, before) => {
                drop(opener);
                drop(before);
            }
            Mode::AfterField(opener, before, at) => {
                drop(opener);
                drop(before);
                drop(at);
            }
            Mode::Stuck => {}
        }
    }
}

impl Mode {
    /// One symbol more.
    pub(crate) fn step<'a>(
        self,
        alloc: Global,
        stack: &mut Stack<Frame>,
        symbol: Symbol<'a>,
        place: Place,
    ) -> Result<Mode, Memory>
        ensures { IfOk result (λ m. mode_of m (stack_of stack.new) ≡ machine.mode_step bounded (mode_of self (stack_of stack.old)) (symbol_view symbol.entry) place) }
    {
        match self {
            Mode::Want => start(alloc, stack, symbol, place),
            Mode::Have(pattern) => go_on(alloc, stack, symbol, pattern),
            Mode::Head(at, name) => name_on(alloc, stack, symbol, at, name),
            Mode::WantField(opener, before) => field(alloc, symbol, place, opener, before),
            Mode::AfterField(opener, before, at) => field_on(
                alloc, stack, symbol, opener, before, at,
            ),
            Mode::Stuck => Ok(Mode::Stuck),
        }
    }

    /// The pattern that ends there, if one can.
    pub(crate) fn end(self, stack: &mut Stack<Frame>) -> PatternEnd
        ensures { end_of result ≡ machine.finish bounded (mode_of self (stack_of stack.old)) }
    {
        match self {
            Mode::Have(pattern) => end_whole(stack, pattern),
            Mode::Head(place, name) => end_whole(stack, build::name(place, name)),
            _ => PatternEnd::Unfinished,
        }
    }
}
