// In the types and patterns of an expression.
ghost use Rattle.std.specs.Prelude.{◌≡◌, List, Some, None, IfOk, MatchOption};
ghost use Rattle.cg_parser_exprs_def.specs.Machine as machine;
ghost use Rattle.cg_parser_symbols.specs.Symbols as symbols;
ghost use Rattle.cg_parser_symbols.specs.Views.{symbol_view};
ghost use Rattle.cg_parser_build.specs.Bounded.{bounded};
ghost use Rattle.cg_parser_exprs_def.specs.Held.{types, patterns, Within};
ghost use Rattle.cg_parser_exprs_frames.specs.Stack.{types_at, patterns_at, open_of, stack_of, stage_of};
ghost use Rattle.cg_parser_build.specs.Views.{view_of, pattern_view, type_view, args_view, binds_view};
ghost use Rattle.cg_parser_types.specs.States.{reader_state as type_state};
ghost use Rattle.cg_parser_patterns.specs.State.{reader_state as pattern_state};

use cg_base::{Memory, Name, Place};
use cg_parser_build::{BuiltArgs, BuiltBinds, BuiltExpr, build, lists};
use cg_parser_exprs_frames::frame::{Frame, Mode, Open};
use cg_parser_exprs_frames::readers::Parts;
use cg_parser_patterns::{BuiltPattern, PatternEnd, PatternReader};
use cg_parser_stack::Stack;
use cg_parser_symbols::Symbol;
use cg_parser_types::{BuiltType, TypeEnd, TypeReader};
use std::alloc::Global;

/// The type that ends where a reader stands, if one does; otherwise the reader stays.
fn whole_type(alloc: Global, reader: &mut TypeReader) -> Result<Option<Option<BuiltType>>, Memory>
    ensures { IfOk result (λ end. MatchOption end
        ((types.finish (type_state reader.old) ≡ None) × (type_state reader.new ≡ type_state reader.old))
        (λ t. types.finish (type_state reader.old) ≡ Some (type_view t))) }
{
    if !reader.is_whole() {
        return Ok(None);
    }
    match reader.finish(alloc)? {
        TypeEnd::Whole(built) => Ok(Some(Some(built))),
        _ => Ok(Some(None)),
    }
}

/// The pattern that ends where a reader stands, if one does; otherwise the reader stays.
fn whole_pattern(
    alloc: Global,
    reader: &mut PatternReader,
) -> Result<Option<Option<BuiltPattern>>, Memory>
    ensures { IfOk result (λ end. MatchOption end
        ((patterns.finish (pattern_state reader.old) ≡ None) × (pattern_state reader.new ≡ pattern_state reader.old))
        (λ x. patterns.finish (pattern_state reader.old) ≡ Some (pattern_view x))) }
{
    if !reader.is_whole() {
        return Ok(None);
    }
    match reader.finish(alloc)? {
        PatternEnd::Whole(built) => Ok(Some(Some(built))),
        _ => Ok(Some(None)),
    }
}

/// At a comma in type arguments.
fn args_more(
    alloc: Global,
    parts: &mut Parts,
    place: Place,
    head: Place,
    name: Name,
    args: Option<BuiltArgs>,
) -> Result<Mode, Memory>
    ensures { IfOk result (λ m. (fs : List Within) → stage_of m parts.new fs ≡ machine.in_args types patterns bounded symbols.comma place head name (args_view args) (types_at parts.old) fs) }
{
    match whole_type(alloc, &mut parts.types)? {
        None => {
            parts.types.step(alloc, Symbol::Comma, place)?;
            Ok(Mode::InArgs(head, name, args))
        }
        Some(ty) => {
            parts.types.begin(alloc);
            Ok(Mode::InArgs(head, name, lists::and_arg(args, ty)?))
        }
    }
}

/// At a closing bracket in type arguments.
fn args_end(
    alloc: Global,
    parts: &mut Parts,
    place: Place,
    head: Place,
    name: Name,
    args: Option<BuiltArgs>,
) -> Result<Mode, Memory>
    ensures { IfOk result (λ m. (fs : List Within) → stage_of m parts.new fs ≡ machine.in_args types patterns bounded symbols.closing_bracket place head name (args_view args) (types_at parts.old) fs) }
{
    match whole_type(alloc, &mut parts.types)? {
        None => {
            parts.types.step(alloc, Symbol::ClosingBracket, place)?;
            Ok(Mode::InArgs(head, name, args))
        }
        Some(ty) => {
            let args = lists::and_arg(args, ty)?;
            Ok(Mode::Have(build::name(head, name, args)))
        }
    }
}

/// In type arguments.
pub fn in_args<'a>(
    alloc: Global,
    parts: &mut Parts,
    symbol: Symbol<'a>,
    place: Place,
    head: Place,
    name: Name,
    args: Option<BuiltArgs>,
) -> Result<Mode, Memory>
    ensures { IfOk result (λ m. (fs : List Within) → stage_of m parts.new fs ≡ machine.in_args types patterns bounded (symbol_view symbol.entry) place head name (args_view args) (types_at parts.old) fs) }
{
    match symbol {
        Symbol::Comma => args_more(alloc, parts, place, head, name, args),
        Symbol::ClosingBracket => args_end(alloc, parts, place, head, name, args),
        _ => {
            parts.types.step(alloc, symbol, place)?;
            Ok(Mode::InArgs(head, name, args))
        }
    }
}

/// At a closing parenthesis in the type of an annotation.
fn sig_end(
    alloc: Global,
    parts: &mut Parts,
    place: Place,
    head: Place,
    tree: Option<BuiltExpr>,
) -> Result<Mode, Memory>
    ensures { IfOk result (λ m. (fs : List Within) → stage_of m parts.new fs ≡ machine.in_sig types patterns bounded symbols.closing place head (view_of tree) (types_at parts.old) fs) }
{
    match whole_type(alloc, &mut parts.types)? {
        None => {
            parts.types.step(alloc, Symbol::Closing, place)?;
            Ok(Mode::InSig(head, tree))
        }
        Some(ty) => Ok(Mode::Have(build::sig(alloc, head, tree, ty)?)),
    }
}

/// In the type of an annotation.
pub fn in_sig<'a>(
    alloc: Global,
    parts: &mut Parts,
    symbol: Symbol<'a>,
    place: Place,
    head: Place,
    tree: Option<BuiltExpr>,
) -> Result<Mode, Memory>
    ensures { IfOk result (λ m. (fs : List Within) → stage_of m parts.new fs ≡ machine.in_sig types patterns bounded (symbol_view symbol.entry) place head (view_of tree) (types_at parts.old) fs) }
{
    match symbol {
        Symbol::Closing => sig_end(alloc, parts, place, head, tree),
        _ => {
            parts.types.step(alloc, symbol, place)?;
            Ok(Mode::InSig(head, tree))
        }
    }
}

/// At `=` in the pattern of a binding.
fn pattern_end(
    alloc: Global,
    stack: &mut Stack<Frame>,
    parts: &mut Parts,
    place: Place,
    head: Place,
    binds: Option<BuiltBinds>,
) -> Result<Mode, Memory>
    ensures { IfOk result (λ m. stage_of m parts.new (stack_of stack.new) ≡ machine.in_pattern types patterns bounded symbols.equals place head (binds_view binds) (patterns_at parts.old) (stack_of stack.old)) }
{
    match whole_pattern(alloc, &mut parts.patterns)? {
        None => {
            parts.patterns.step(alloc, Symbol::Equals, place)?;
            Ok(Mode::InPattern(head, binds))
        }
        Some(pattern) => {
            stack.push(Frame::Bound(head, binds, pattern))?;
            Ok(Mode::Want)
        }
    }
}

/// In the pattern of a binding.
pub fn in_pattern<'a>(
    alloc: Global,
    stack: &mut Stack<Frame>,
    parts: &mut Parts,
    symbol: Symbol<'a>,
    place: Place,
    head: Place,
    binds: Option<BuiltBinds>,
) -> Result<Mode, Memory>
    ensures { IfOk result (λ m. stage_of m parts.new (stack_of stack.new) ≡ machine.in_pattern types patterns bounded (symbol_view symbol.entry) place head (binds_view binds) (patterns_at parts.old) (stack_of stack.old)) }
{
    match symbol {
        Symbol::Equals => pattern_end(alloc, stack, parts, place, head, binds),
        _ => {
            parts.patterns.step(alloc, symbol, place)?;
            Ok(Mode::InPattern(head, binds))
        }
    }
}

/// At an arrow in the pattern of an alternative.
fn alt_end(
    alloc: Global,
    stack: &mut Stack<Frame>,
    parts: &mut Parts,
    place: Place,
    before: Open,
    head: Place,
    con: Name,
) -> Result<Mode, Memory>
    ensures { IfOk result (λ m. stage_of m parts.new (stack_of stack.new) ≡ machine.in_alt_pattern types patterns bounded symbols.arrow place (open_of before) head con (patterns_at parts.old) (stack_of stack.old)) }
{
    match whole_pattern(alloc, &mut parts.patterns)? {
        None => {
            parts.patterns.step(alloc, Symbol::Arrow, place)?;
            Ok(Mode::InAltPattern(before, head, con))
        }
        Some(pattern) => {
            stack.push(Frame::Branch(before, head, Some(con), pattern))?;
            Ok(Mode::Want)
        }
    }
}

/// In the pattern of an alternative.
pub fn in_alt_pattern<'a>(
    alloc: Global,
    stack: &mut Stack<Frame>,
    parts: &mut Parts,
    symbol: Symbol<'a>,
    place: Place,
    before: Open,
    head: Place,
    con: Name,
) -> Result<Mode, Memory>
    ensures { IfOk result (λ m. stage_of m parts.new (stack_of stack.new) ≡ machine.in_alt_pattern types patterns bounded (symbol_view symbol.entry) place (open_of before) head con (patterns_at parts.old) (stack_of stack.old)) }
{
    match symbol {
        Symbol::Arrow => alt_end(alloc, stack, parts, place, before, head, con),
        _ => {
            parts.patterns.step(alloc, symbol, place)?;
            Ok(Mode::InAltPattern(before, head, con))
        }
    }
}
