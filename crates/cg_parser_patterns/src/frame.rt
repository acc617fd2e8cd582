// What is open where a pattern is read, and what is made of it.
ghost use Rattle.std.specs.Prelude.{◌≡◌, List, ◌∷◌, IfOk};
ghost use Rattle.cg_parser_patterns.specs.Machine as machine;
ghost use Rattle.cg_parser_patterns.specs.Bounded.{bounded};
ghost use Rattle.cg_parser_patterns.specs.Views.{view_of};
ghost use Rattle.cg_parser_patterns.specs.Stack.{Open, frame_of, stack_of, mode_of};

use crate::build;
use crate::built::{BuiltFields, BuiltPattern, BuiltPatterns};
use crate::mode::Mode;
use crate::opener::{Opener, opened};
use cg_base::{Memory, Place};
use cg_core::At;
use cg_parser_stack::Stack;
use std::alloc::Global;

/// What is open in a pattern: a parenthesis before its first comma, one behind a comma, with the patterns before, and a
/// field's `=`, with the fields before. Its methods take it apart.
pub(crate) enum Frame {
    InParen(Place),
    InTuple(Place, Option<BuiltPatterns>),
    InField(Opener, Option<BuiltFields>, At),
}

impl Drop for Frame {
    fn drop(self) {
        match self {
            Frame::InParen(_) => {}
            Frame::InTuple(_, before) => drop(before),
            Frame::InField(opener, before, at) => {
                drop(opener);
                drop(before);
                drop(at);
            }
        }
    }
}

impl Default for Frame {
    fn default() -> Frame {
        Frame::InParen(Place { line: 0, column: 0 })
    }
}

impl Frame {
    /// At the closing parenthesis of `()`.
    pub(crate) fn on_empty(self) -> Mode
        ensures { (fs : List Open) → mode_of result fs ≡ machine.on_empty bounded (frame_of self ∷ fs) }
    {
        match self {
            Frame::InParen(place) => Mode::Have(build::unit(place)),
            _ => Mode::Stuck,
        }
    }

    /// At a closing parenthesis.
    pub(crate) fn on_close(
        self,
        alloc: Global,
        pattern: Option<BuiltPattern>,
    ) -> Result<Mode, Memory>
        ensures { IfOk result (λ m. (fs : List Open) → mode_of m fs ≡ machine.on_close bounded (view_of pattern) (frame_of self ∷ fs)) }
    {
        match self {
            Frame::InParen(place) => Ok(Mode::Have(build::paren(alloc, place, pattern)?)),
            Frame::InTuple(place, before) => {
                let patterns = build::and_pattern(before, pattern)?;
                Ok(Mode::Have(build::tuple(place, patterns)))
            }
            _ => Ok(Mode::Stuck),
        }
    }

    /// At a comma.
    pub(crate) fn on_comma(
        self,
        alloc: Global,
        stack: &mut Stack<Frame>,
        pattern: Option<BuiltPattern>,
    ) -> Result<Mode, Memory>
        ensures { IfOk result (λ m. mode_of m (stack_of stack.new) ≡ machine.on_comma bounded (view_of pattern) (frame_of self ∷ stack_of stack.old)) }
    {
        match self {
            Frame::InParen(place) => {
                let patterns = build::and_pattern(build::no_patterns(alloc), pattern)?;
                stack.push(Frame::InTuple(place, patterns))?;
                Ok(Mode::Want)
            }
            Frame::InTuple(place, before) => {
                let patterns = build::and_pattern(before, pattern)?;
                stack.push(Frame::InTuple(place, patterns))?;
                Ok(Mode::Want)
            }
            Frame::InField(opener, before, at) => {
                let fields = build::and_field(before, at, pattern)?;
                Ok(Mode::WantField(opener, fields))
            }
        }
    }

    /// At a closing brace.
    pub(crate) fn on_brace(self, pattern: Option<BuiltPattern>) -> Result<Mode, Memory>
        ensures { IfOk result (λ m. (fs : List Open) → mode_of m fs ≡ machine.on_brace bounded (view_of pattern) (frame_of self ∷ fs)) }
    {
        match self {
            Frame::InField(opener, before, at) => {
                let fields = build::and_field(before, at, pattern)?;
                Ok(Mode::Have(opened(opener, fields)))
            }
            _ => Ok(Mode::Stuck),
        }
    }
}
