// The reader of patterns.
ghost use Rattle.std.specs.Prelude.{◌≡◌, OnOk, IfOk, is_some};
ghost use Rattle.cg_parser_symbols.specs.Views.{symbol_view};
ghost use Rattle.cg_parser_patterns.specs.Bounded.{bounded, bounded_reader};
ghost use Rattle.cg_parser_patterns.specs.Views.{end_of, view_of};
ghost use Rattle.cg_parser_patterns.specs.Machine as machine;
ghost use Rattle.cg_parser_patterns.specs.Stack.{stack_of};
ghost use Rattle.cg_parser_patterns.specs.State.{reader_state};

use crate::built::{BuiltPattern, PatternEnd};
use crate::frame::Frame;
use crate::mode::Mode;
use cg_base::{Memory, Place};
use cg_parser_stack::Stack;
use cg_parser_symbols::Symbol;
use std::alloc::Global;

/// Where in a pattern a reader stands: docs/LANGUAGE.md, "Patterns".
#[derive(Drop)]
pub struct PatternReader {
    stack: Stack<Frame>,
    mode: Mode,
}

/// The pattern that ends there; no frame may be left.
pub(crate) fn end_whole(stack: &mut Stack<Frame>, pattern: Option<BuiltPattern>) -> PatternEnd
    ensures { end_of result ≡ machine.whole bounded (view_of pattern) (stack_of stack.old) }
{
    if let Some(_) = stack.pop() {
        return PatternEnd::Unfinished;
    }
    match pattern {
        Some(built) => PatternEnd::Whole(built),
        None => PatternEnd::TooDeep,
    }
}

impl PatternReader {
    /// A reader before the first token of a pattern (docs/LANGUAGE.md, "Patterns"). It takes no memory.
    pub fn new(alloc: Global) -> PatternReader
        ensures { reader_state result ≡ bounded_reader.begin }
    {
        PatternReader {
            stack: Stack::new(alloc),
            mode: Mode::Want,
        }
    }

    /// Starts over, before the first token of a pattern (docs/LANGUAGE.md, "Patterns"). It takes no memory.
    pub fn begin(&mut self, alloc: Global)
        ensures { reader_state self.new ≡ bounded_reader.begin }
    {
        drop(std::mem::replace(&mut self.stack, Stack::new(alloc)));
        drop(std::mem::replace(&mut self.mode, Mode::Want));
    }

    /// Reads one token more (docs/LANGUAGE.md, "Patterns"). Want of memory is its one refusal; behind it the reader has to
    /// start over.
    pub fn step<'a>(
        &mut self,
        alloc: Global,
        symbol: Symbol<'a>,
        place: Place,
    ) -> Result<(), Memory>
        ensures { OnOk result (reader_state self.new ≡ bounded_reader.step (reader_state self.old) (record { symbol = symbol_view symbol.entry; place = place })) }
    {
        let mode = std::mem::replace(&mut self.mode, Mode::Stuck);
        let next = mode.step(alloc, &mut self.stack, symbol, place)?;
        drop(std::mem::replace(&mut self.mode, next));
        Ok(())
    }

    /// Whether a pattern begins with what has been read (docs/LANGUAGE.md, "Patterns").
    pub fn is_open(&self) -> bool
        ensures { result ≡ bounded_reader.is_open (reader_state self.now) }
    {
        match self.mode {
            Mode::Stuck => false,
            _ => true,
        }
    }

    /// Whether what has been read is a whole pattern (docs/LANGUAGE.md, "Patterns").
    #[tactic(auto, using(crate::proofs::Ends::whole_is))]
    pub fn is_whole(&self) -> bool
        ensures { result ≡ is_some (bounded_reader.finish (reader_state self.now)) }
    {
        match self.mode {
            Mode::Have(_) | Mode::Head(_, _) => self.stack.is_empty(),
            _ => false,
        }
    }

    /// The pattern that has been read (docs/LANGUAGE.md, "Patterns"). Behind it the reader has to start over. It takes no
    /// memory, and refuses nothing.
    pub fn finish(&mut self, _alloc: Global) -> Result<PatternEnd, Memory>
        ensures { IfOk result (λ e. end_of e ≡ bounded_reader.finish (reader_state self.old)) }
    {
        let mode = std::mem::replace(&mut self.mode, Mode::Stuck);
        Ok(mode.end(&mut self.stack))
    }
}
