// The reader of expressions.
#![tactic(auto, using(crate::proofs::Whole::whole_is), unfolding(crate::specs::State::reader_state))]

ghost use Rattle.std.specs.Prelude.{◌≡◌, List, IfOk, OnOk};
ghost use Rattle.cg_parser_exprs_def.specs.Machine as machine;
ghost use Rattle.cg_parser_symbols.specs.Views.{symbol_view};
ghost use Rattle.cg_parser_build.specs.Bounded.{bounded};
ghost use Rattle.cg_parser_exprs_def.specs.Held.{types, patterns, Types, Patterns, Within, bounded_exprs, is_wrong_bar};
ghost use Rattle.cg_parser_exprs_frames.specs.Stack.{stack_of, mode_of, stage_of};
ghost use Rattle.cg_parser_exprs.specs.State.{end_of, end_whole, reader_state};
ghost use Rattle.cg_parser_build.specs.Views.{view_of};

use crate::step::mode_step;
use cg_base::{Memory, Place};
use cg_parser_build::{BuiltExpr, build, lists};
use cg_parser_exprs_frames::close::close;
use cg_parser_exprs_frames::frame::{Frame, Mode};
use cg_parser_exprs_frames::readers::Parts;
use cg_parser_stack::Stack;
use cg_parser_symbols::Symbol;
use std::alloc::Global;

/// What ends where the reader stands: no expression, one that is too deep, or an expression. docs/LANGUAGE.md, "Expressions"
/// and "Limits".
#[derive(Drop)]
pub enum ExprEnd {
    Unfinished,
    TooDeep,
    Whole(BuiltExpr),
}

/// A reader of an expression: docs/LANGUAGE.md, "Expressions" and "Bars". It takes one symbol at a time and keeps the expressions
/// that it has read.
pub struct ExprReader {
    stack: Stack<Frame>,
    mode: Mode,
    parts: Parts,
}

impl Drop for ExprReader {
    fn drop(self) {
        let ExprReader { stack, mode, parts } = self;
        drop(stack);
        drop(mode);
        drop(parts);
    }
}

/// Whether an expression may still come of it.
fn mode_is_open(mode: &Mode, parts: &Parts) -> bool
    ensures { (fs : List Within) → result ≡ machine.is_open types patterns bounded (stage_of mode.now parts.now fs) }
{
    match mode {
        Mode::InArgs(_, _, _) => parts.types.is_open(),
        Mode::InSig(_, _) => parts.types.is_open(),
        Mode::InPattern(_, _) => parts.patterns.is_open(),
        Mode::InAltPattern(_, _, _) => parts.patterns.is_open(),
        Mode::Stuck => false,
        Mode::WrongBar => false,
        _ => true,
    }
}

/// The expression, with all frames closed that need no token; no frame may be left.
fn end_whole(
    alloc: Global,
    stack: &mut Stack<Frame>,
    tree: Option<BuiltExpr>,
) -> Result<ExprEnd, Memory>
    ensures { IfOk result (λ e. end_of e ≡ end_whole (view_of tree) (stack_of stack.old)) }
{
    let tree = close(alloc, stack, 12, tree)?;
    if !stack.is_empty() {
        return Ok(ExprEnd::Unfinished);
    }
    match tree {
        None => Ok(ExprEnd::TooDeep),
        Some(whole) => Ok(ExprEnd::Whole(whole)),
    }
}

/// The expression that ends there, if one can.
fn mode_end(alloc: Global, stack: &mut Stack<Frame>, mode: Mode) -> Result<ExprEnd, Memory>
    ensures { IfOk result (λ e. (ts : Types) (ps : Patterns) → end_of e ≡ machine.mode_end types patterns bounded (mode_of mode ts ps (stack_of stack.old))) }
{
    match mode {
        Mode::Have(tree) => end_whole(alloc, stack, tree),
        Mode::AfterLower(place, name) => {
            let tree = build::name(place, name, lists::no_args(alloc));
            end_whole(alloc, stack, tree)
        }
        Mode::AfterUpper(place, name) => end_whole(alloc, stack, build::con(place, name)),
        mode => {
            drop(mode);
            Ok(ExprEnd::Unfinished)
        }
    }
}

impl ExprReader {
    /// A reader before the first symbol of an expression: docs/LANGUAGE.md, "Expressions". It takes no memory.
    pub fn new(alloc: Global) -> ExprReader
        ensures { reader_state result ≡ bounded_exprs.begin }
    {
        ExprReader {
            stack: Stack::new(alloc),
            mode: Mode::Want,
            parts: Parts::new(alloc),
        }
    }

    /// Starts over, before the first symbol of another expression: docs/LANGUAGE.md, "Expressions".
    pub fn begin(&mut self, alloc: Global)
        ensures { reader_state self.new ≡ bounded_exprs.begin }
    {
        drop(std::mem::replace(&mut self.stack, Stack::new(alloc)));
        drop(std::mem::replace(&mut self.mode, Mode::Want));
    }

    /// One symbol more, at its place: docs/LANGUAGE.md, "Expressions" and "Bars". Want of memory is its one refusal; a symbol
    /// with which no expression goes on closes the reader.
    pub fn step<'a>(
        &mut self,
        alloc: Global,
        symbol: Symbol<'a>,
        place: Place,
    ) -> Result<(), Memory>
        ensures { OnOk result (reader_state self.new ≡ bounded_exprs.step (reader_state self.old) (record { symbol = symbol_view symbol.entry; place = place })) }
    {
        let mode = std::mem::replace(&mut self.mode, Mode::Stuck);
        let next = mode_step(alloc, &mut self.stack, &mut self.parts, mode, symbol, place)?;
        drop(std::mem::replace(&mut self.mode, next));
        Ok(())
    }

    /// Whether some expression begins with the symbols read: docs/LANGUAGE.md, "Expressions".
    pub fn is_open(&self) -> bool
        ensures { result ≡ bounded_exprs.is_open (reader_state self.now) }
    {
        mode_is_open(&self.mode, &self.parts)
    }

    /// Whether the last symbol is a bar that is first on its line and stands at a wrong column: docs/LANGUAGE.md, "Bars".
    pub fn is_wrong_bar(&self) -> bool
        ensures { result ≡ is_wrong_bar (reader_state self.now) }
    {
        match self.mode {
            Mode::WrongBar => true,
            _ => false,
        }
    }

    /// The expression that the symbols read spell, if they spell one: docs/LANGUAGE.md, "Expressions". It is `TooDeep` where
    /// its depth passes that of docs/LANGUAGE.md, "Limits". Want of memory is its one refusal. The reader is to begin anew then.
    pub fn finish(&mut self, alloc: Global) -> Result<ExprEnd, Memory>
        ensures { IfOk result (λ e. end_of e ≡ bounded_exprs.finish (reader_state self.old)) }
    {
        let mode = std::mem::replace(&mut self.mode, Mode::Stuck);
        mode_end(alloc, &mut self.stack, mode)
    }
}
