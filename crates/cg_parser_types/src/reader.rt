// The reader of types.
#![tactic(auto, unfolding(crate::specs::States::reader_state))]

ghost use Rattle.std.specs.Prelude.{◌≡◌, List, IfOk, OnOk, is_some};
ghost use Rattle.cg_parser_symbols.specs.Views.{symbol_view};
ghost use Rattle.cg_parser_types.specs.Bounded.{bounded, bounded_reader};
ghost use Rattle.cg_parser_types.specs.Machine as machine;
ghost use Rattle.cg_parser_types.specs.Stack.{Open, stack_of, mode_of};
ghost use Rattle.cg_parser_types.specs.States.{end_of, reader_state};
ghost use Rattle.cg_parser_types.specs.Views.{view_of};

use crate::build;
use crate::built::BuiltType;
use crate::close::{all_close, close};
use crate::frame::Frame;
use crate::mode::Mode;
use cg_base::{Memory, Place};
use cg_parser_stack::Stack;
use cg_parser_symbols::Symbol;
use std::alloc::Global;

/// What ends where the reader stands: no type, one that is too deep, or a type. docs/LANGUAGE.md, "Types" and "Limits".
#[derive(Drop)]
pub enum TypeEnd {
    Unfinished,
    TooDeep,
    Whole(BuiltType),
}

/// A reader of a type: docs/LANGUAGE.md, "Types". It takes one symbol at a time and keeps the types that it has read.
#[derive(Drop)]
pub struct TypeReader {
    stack: Stack<Frame>,
    mode: Mode,
}

/// Whether a type may still come of it.
fn mode_is_open(mode: &Mode) -> bool
    ensures { (fs : List Open) → result ≡ machine.mode_is_open (mode_of mode.now fs) }
{
    match mode {
        Mode::Stuck => false,
        _ => true,
    }
}

/// The type, with all frames closed that need no token; no frame may be left.
pub(crate) fn end_whole(
    alloc: Global,
    stack: &mut Stack<Frame>,
    tree: Option<BuiltType>,
) -> Result<TypeEnd, Memory>
    ensures { IfOk result (λ e. end_of e ≡ machine.end_whole bounded (view_of tree) (stack_of stack.old)) }
{
    let tree = close(alloc, stack, 3, tree)?;
    if let Some(_) = stack.pop() {
        return Ok(TypeEnd::Unfinished);
    }
    match tree {
        None => Ok(TypeEnd::TooDeep),
        Some(whole) => Ok(TypeEnd::Whole(whole)),
    }
}

impl TypeReader {
    /// A reader before the first symbol of a type: docs/LANGUAGE.md, "Types". It takes no memory.
    pub fn new(alloc: Global) -> TypeReader
        ensures { reader_state result ≡ bounded_reader.begin }
    {
        TypeReader {
            stack: Stack::new(alloc),
            mode: Mode::Want,
        }
    }

    /// Starts over, before the first symbol of another type: docs/LANGUAGE.md, "Types".
    pub fn begin(&mut self, alloc: Global)
        ensures { reader_state self.new ≡ bounded_reader.begin }
    {
        drop(std::mem::replace(&mut self.stack, Stack::new(alloc)));
        drop(std::mem::replace(&mut self.mode, Mode::Want));
    }

    /// One symbol more, at its place: docs/LANGUAGE.md, "Types". Want of memory is its one refusal; a symbol with which no
    /// type goes on closes the reader.
    pub fn step<'a>(
        &mut self,
        alloc: Global,
        symbol: Symbol<'a>,
        place: Place,
    ) -> Result<(), Memory>
        ensures { OnOk result (reader_state self.new ≡ bounded_reader.step (reader_state self.old) (record { symbol = symbol_view symbol.entry; place = place })) }
    {
        let mode = std::mem::replace(&mut self.mode, Mode::Stuck);
        let next = mode.step(alloc, &mut self.stack, symbol, place)?;
        drop(std::mem::replace(&mut self.mode, next));
        Ok(())
    }

    /// Whether some type begins with the symbols read: docs/LANGUAGE.md, "Types".
    pub fn is_open(&self) -> bool
        ensures { result ≡ bounded_reader.is_open (reader_state self.now) }
    {
        mode_is_open(&self.mode)
    }

    /// Whether the symbols read spell a type: docs/LANGUAGE.md, "Types".
    #[tactic(auto, using(crate::proofs::Whole::whole_closes), unfolding(crate::specs::States::reader_state))]
    pub fn is_whole(&self) -> bool
        ensures { result ≡ is_some (bounded_reader.finish (reader_state self.now)) }
    {
        match self.mode {
            Mode::Alone(_) | Mode::Head(_, _) | Mode::Taken(_) => all_close(&self.stack),
            _ => false,
        }
    }

    /// The type that the symbols read spell, if they spell one: docs/LANGUAGE.md, "Types". It is `TooDeep` where its depth
    /// passes that of docs/LANGUAGE.md, "Limits". Want of memory is its one refusal. The reader is to begin anew then.
    pub fn finish(&mut self, alloc: Global) -> Result<TypeEnd, Memory>
        ensures { IfOk result (λ e. end_of e ≡ bounded_reader.finish (reader_state self.old)) }
    {
        let mode = std::mem::replace(&mut self.mode, Mode::Stuck);
        mode.end(alloc, &mut self.stack)
    }
}
