// The heads of alternatives.
ghost use Rattle.std.specs.Prelude.{◌≡◌, List, IfOk};
ghost use Rattle.cg_parser_exprs_def.specs.Machine as machine;
ghost use Rattle.cg_parser_symbols.specs.Views.{symbol_view};
ghost use Rattle.cg_parser_build.specs.Bounded.{bounded};
ghost use Rattle.cg_parser_exprs_def.specs.Held.{types, patterns, Types, Patterns, Within};
ghost use Rattle.cg_parser_exprs_frames.specs.Stack.{open_of, stack_of, mode_of, stage_of};
ghost use Rattle.cg_parser_build.specs.Views.{pattern_view};

use cg_base::{Memory, Name, Place};
use cg_parser_build::patterns;
use cg_parser_exprs_frames::frame::{Frame, Mode, Open};
use cg_parser_exprs_frames::readers::Parts;
use cg_parser_patterns::BuiltPattern;
use cg_parser_stack::Stack;
use cg_parser_symbols::Symbol;
use std::alloc::Global;

/// Where an alternative is wanted.
pub fn want_alt<'a>(
    alloc: Global,
    symbol: Symbol<'a>,
    place: Place,
    before: Open,
) -> Result<Mode, Memory>
    ensures { IfOk result (λ m. (ts : Types) (ps : Patterns) (fs : List Within) → mode_of m ts ps fs ≡ machine.want_alt types patterns bounded (symbol_view symbol.entry) place (open_of before) fs) }
{
    match symbol {
        Symbol::Upper(bytes) => Ok(Mode::AfterCon(before, place, Name::new(alloc, bytes)?)),
        Symbol::Lower(bytes) => {
            let pattern = patterns::pattern_name(place, Name::new(alloc, bytes)?);
            Ok(Mode::WantArrow(before, place, pattern))
        }
        Symbol::Wildcard => Ok(Mode::WantArrow(before, place, patterns::pattern_any(place))),
        _ => Ok(Mode::Stuck),
    }
}

/// Behind the constructor of an alternative.
pub fn after_con<'a>(
    alloc: Global,
    stack: &mut Stack<Frame>,
    parts: &mut Parts,
    symbol: Symbol<'a>,
    place: Place,
    before: Open,
    head: Place,
    con: Name,
) -> Result<Mode, Memory>
    ensures { IfOk result (λ m. stage_of m parts.new (stack_of stack.new) ≡ machine.after_con types patterns bounded (symbol_view symbol.entry) place (open_of before) head con (stack_of stack.old)) }
{
    match symbol {
        Symbol::Arrow => {
            let pattern = patterns::pattern_unit(head);
            stack.push(Frame::Branch(before, head, Some(con), pattern))?;
            Ok(Mode::Want)
        }
        _ => {
            parts.patterns.begin(alloc);
            parts.patterns.step(alloc, symbol, place)?;
            Ok(Mode::InAltPattern(before, head, con))
        }
    }
}

/// Behind the name or the wildcard of an alternative.
pub fn want_arrow<'a>(
    stack: &mut Stack<Frame>,
    symbol: Symbol<'a>,
    before: Open,
    head: Place,
    pattern: Option<BuiltPattern>,
) -> Result<Mode, Memory>
    ensures { IfOk result (λ m. (ts : Types) (ps : Patterns) → mode_of m ts ps (stack_of stack.new) ≡ machine.want_arrow types patterns bounded (symbol_view symbol.entry) (open_of before) head (pattern_view pattern) (stack_of stack.old)) }
{
    match symbol {
        Symbol::Arrow => {
            stack.push(Frame::Branch(before, head, None, pattern))?;
            Ok(Mode::Want)
        }
        _ => Ok(Mode::Stuck),
    }
}
