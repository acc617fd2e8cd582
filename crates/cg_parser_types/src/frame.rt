// What is open where a type is read, and what is made of it.
ghost use Rattle.std.specs.Prelude.{◌≡◌, List, ◌∷◌, IfOk};
ghost use Rattle.cg_parser_symbols.specs.Views.{symbol_view};
ghost use Rattle.cg_parser_types.specs.Bounded.{bounded};
ghost use Rattle.cg_parser_types.specs.Machine as machine;
ghost use Rattle.cg_parser_types.specs.Stack.{Open, frame_of, stack_of, mode_of};
ghost use Rattle.cg_parser_types.specs.Views.{view_of};

use crate::built::{BuiltAlts, BuiltFields, BuiltType, BuiltTypes};
use crate::mode::Mode;
use crate::start::start;
use crate::{build, lists};
use cg_base::{Memory, Name, Place};
use cg_core::At;
use cg_parser_stack::Stack;
use cg_parser_symbols::Symbol;
use std::alloc::Global;

/// What is open in a type: a parenthesis, one with types before a comma, a field, the payload of an alternative, an argument
/// with those before it, and what stands behind an arrow. Its methods take it apart.
pub(crate) enum Frame {
    InParen(Place),
    InTuple(Place, Option<BuiltTypes>),
    InField(Place, bool, Option<BuiltFields>, At),
    InAlt(Place, Option<BuiltAlts>, At),
    InArgs(Place, Name, Option<BuiltTypes>),
    InArrow(Option<BuiltType>),
}

impl Drop for Frame {
    fn drop(self) {
        match self {
            Frame::InParen(_) => {}
            Frame::InTuple(_, types) => drop(types),
            Frame::InField(_, _, fields, at) => {
                drop(fields);
                drop(at);
            }
            Frame::InAlt(_, alts, at) => {
                drop(alts);
                drop(at);
            }
            Frame::InArgs(_, name, args) => {
                drop(name);
                drop(args);
            }
            Frame::InArrow(from) => drop(from),
        }
    }
}

impl Default for Frame {
    fn default() -> Frame {
        Frame::InParen(Place { line: 0, column: 0 })
    }
}

impl Frame {
    /// The type of a frame that needs no token to be closed, with its hole filled.
    pub(crate) fn fill(
        self,
        alloc: Global,
        tree: Option<BuiltType>,
    ) -> Result<Option<BuiltType>, Memory>
        ensures { IfOk result (λ t. view_of t ≡ machine.fill bounded (frame_of self) (view_of tree)) }
    {
        match self {
            Frame::InArgs(place, name, args) => {
                let args = lists::and_type(args, tree)?;
                Ok(build::named(place, name, args))
            }
            Frame::InArrow(from) => build::arrow(alloc, from, tree),
            _ => Ok(tree),
        }
    }

    /// At the closing parenthesis of `()`.
    pub(crate) fn on_empty(self) -> Mode
        ensures { (fs : List Open) → mode_of result fs ≡ machine.on_empty bounded (frame_of self ∷ fs) }
    {
        match self {
            Frame::InParen(place) => Mode::Alone(build::unit(place)),
            _ => Mode::Stuck,
        }
    }

    /// At a closing parenthesis.
    pub(crate) fn on_close(self, alloc: Global, tree: Option<BuiltType>) -> Result<Mode, Memory>
        ensures { IfOk result (λ m. (fs : List Open) → mode_of m fs ≡ machine.on_close bounded (view_of tree) (frame_of self ∷ fs)) }
    {
        match self {
            Frame::InParen(place) => Ok(Mode::Alone(build::paren(alloc, place, tree)?)),
            Frame::InTuple(place, types) => {
                let types = lists::and_type(types, tree)?;
                Ok(Mode::Alone(build::tuple(place, types)))
            }
            _ => Ok(Mode::Stuck),
        }
    }

    /// At a comma.
    pub(crate) fn on_comma(
        self,
        alloc: Global,
        stack: &mut Stack<Frame>,
        tree: Option<BuiltType>,
    ) -> Result<Mode, Memory>
        ensures { IfOk result (λ m. mode_of m (stack_of stack.new) ≡ machine.on_comma bounded (view_of tree) (frame_of self ∷ stack_of stack.old)) }
    {
        match self {
            Frame::InParen(place) => {
                let types = lists::and_type(lists::no_types(alloc), tree)?;
                stack.push(Frame::InTuple(place, types))?;
                Ok(Mode::Want)
            }
            Frame::InTuple(place, types) => {
                let types = lists::and_type(types, tree)?;
                stack.push(Frame::InTuple(place, types))?;
                Ok(Mode::Want)
            }
            Frame::InField(place, boxed, fields, at) => {
                let fields = lists::and_field(fields, at, tree)?;
                Ok(Mode::WantField(place, boxed, fields))
            }
            _ => Ok(Mode::Stuck),
        }
    }

    /// At a closing brace.
    pub(crate) fn on_closing_brace(self, tree: Option<BuiltType>) -> Result<Mode, Memory>
        ensures { IfOk result (λ m. (fs : List Open) → mode_of m fs ≡ machine.on_closing_brace bounded (view_of tree) (frame_of self ∷ fs)) }
    {
        match self {
            Frame::InField(place, boxed, fields, at) => {
                let fields = lists::and_field(fields, at, tree)?;
                Ok(Mode::Alone(build::fields(place, boxed, fields)))
            }
            _ => Ok(Mode::Stuck),
        }
    }

    /// At a bar.
    pub(crate) fn on_bar(self, tree: Option<BuiltType>) -> Result<Mode, Memory>
        ensures { IfOk result (λ m. (fs : List Open) → mode_of m fs ≡ machine.on_bar bounded (view_of tree) (frame_of self ∷ fs)) }
    {
        match self {
            Frame::InAlt(place, alts, at) => {
                let alts = lists::and_alt(alts, at, tree)?;
                Ok(Mode::WantAlt(place, alts))
            }
            _ => Ok(Mode::Stuck),
        }
    }

    /// At `>`.
    pub(crate) fn on_greater(self, tree: Option<BuiltType>) -> Result<Mode, Memory>
        ensures { IfOk result (λ m. (fs : List Open) → mode_of m fs ≡ machine.on_greater bounded (view_of tree) (frame_of self ∷ fs)) }
    {
        match self {
            Frame::InAlt(place, alts, at) => {
                let alts = lists::and_alt(alts, at, tree)?;
                Ok(Mode::Alone(build::variant(place, alts)))
            }
            _ => Ok(Mode::Stuck),
        }
    }

    /// At a symbol that begins an argument, behind one.
    pub(crate) fn next_argument<'a>(
        self,
        alloc: Global,
        stack: &mut Stack<Frame>,
        symbol: Symbol<'a>,
        place: Place,
        tree: Option<BuiltType>,
    ) -> Result<Mode, Memory>
        ensures { IfOk result (λ m. mode_of m (stack_of stack.new) ≡ machine.next_argument bounded (symbol_view symbol.entry) place (view_of tree) (frame_of self ∷ stack_of stack.old)) }
    {
        match self {
            Frame::InArgs(head, name, args) => {
                let args = lists::and_type(args, tree)?;
                stack.push(Frame::InArgs(head, name, args))?;
                start(alloc, stack, symbol, place)
            }
            _ => Ok(Mode::Stuck),
        }
    }
}
