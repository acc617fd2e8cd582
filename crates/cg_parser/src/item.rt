// Reading items, one token at a time.
ghost use Rattle.std.specs.Prelude.{◌≡◌, List, Option, Some, None, IfOk, if◌then◌else◌};
ghost use Rattle.cg_lexer.specs.Tokens.{lexeme};
ghost use Rattle.cg_surface.specs.Programs.{Entry};
ghost use Rattle.cg_parser_symbols.specs.Symbols.{equals, seen};
ghost use Rattle.cg_parser_symbols.specs.Views.{symbol_view};
ghost use Rattle.cg_parser_exprs_def.specs.Held.{types, patterns};
ghost use Rattle.cg_parser_def.specs.Bounded.{bounded};
ghost use Rattle.cg_parser_def.specs.Held.{exprs};
ghost use Rattle.cg_parser_def.specs.Machine as machine;
ghost use Rattle.cg_parser_items.specs.Views.{items_of, pat_of, state_of};
ghost use Rattle.cg_parser.specs.Views.{parts_of, expr_end};
ghost use Rattle.cg_parser_items.specs.declared.phase.Phase.TheVariants.{InSynonym, InSignature, InBody};

use crate::readers::Parts;
use cg_base::{Items, Memory, Name, Place};
use cg_core::At;
use cg_lexer::Token;
use cg_parser_exprs::ExprEnd;
use cg_parser_items::add::{add, end_signature, end_synonym};
use cg_parser_items::heads::{after_colon, after_name, after_type, in_params};
use cg_parser_items::phase::{Phase, Vars};
use cg_parser_items::vars::{after_all, after_kinds, after_var, want_dot, want_kinds, want_var};
use cg_parser_patterns::PatternEnd;
use cg_parser_symbols::{Symbol, symbol_at};
use cg_surface::{Item, Pat, Program};
use std::alloc::Global;

/// Ends a definition, where its body can end.
fn end_body(
    done: &mut Option<Program>,
    at: At,
    param: Option<Pat>,
    end: ExprEnd,
) -> Result<bool, Memory>
    ensures { IfOk result (λ b. machine.end_body types patterns exprs bounded (items_of done.old) at (pat_of param) (expr_end end) ≡ (if b then Some (items_of done.new) else None)) }
{
    let item = match (param, end) {
        (_, ExprEnd::Unfinished) => return Ok(false),
        (Some(param), ExprEnd::Whole(built)) => Some(Item::Define {
            at,
            param,
            body: built.tree,
        }),
        _ => None,
    };
    add(done, item)?;
    Ok(true)
}

/// Ends the last item, where it can end.
pub(crate) fn finish(
    alloc: Global,
    done: &mut Option<Program>,
    parts: &mut Parts,
    phase: Phase,
) -> Result<bool, Memory>
    ensures { IfOk result (λ b. machine.finish types patterns exprs bounded (state_of (items_of done.old) phase (parts_of parts.old)) ≡ (if b then Some (items_of done.new) else None)) }
{
    match phase {
        Phase::Between => Ok(true),
        Phase::InParams(at, params) => {
            add(done, Some(Item::Abstract { at, params }))?;
            Ok(true)
        }
        Phase::InSynonym(at, params) => {
            let end = parts.types.finish(alloc)?;
            end_synonym(done, at, params, end)
        }
        Phase::InSignature(at, vars) => {
            let end = parts.types.finish(alloc)?;
            end_signature(done, at, vars, end)
        }
        Phase::InBody(at, param) => {
            let end = parts.exprs.finish(alloc)?;
            end_body(done, at, param, end)
        }
        phase => {
            drop(phase);
            Ok(false)
        }
    }
}

/// At a token of column 1: the item before must end there, and this token begins the next one.
fn head<'a>(
    alloc: Global,
    done: &mut Option<Program>,
    parts: &mut Parts,
    phase: Phase,
    symbol: Symbol<'a>,
    place: Place,
) -> Result<Phase, Memory>
    ensures { IfOk result (λ m. state_of (items_of done.new) m (parts_of parts.new) ≡ machine.on_head types patterns exprs bounded (machine.finish types patterns exprs bounded (state_of (items_of done.old) phase (parts_of parts.old))) (symbol_view symbol.entry) place) }
{
    if !finish(alloc, done, parts, phase)? {
        return Ok(Phase::Failed);
    }
    match symbol {
        Symbol::Lower(name) => {
            let name = Name::new(alloc, name)?;
            Ok(Phase::AfterName(At { place, name }))
        }
        Symbol::TypeWord => Ok(Phase::AfterType),
        _ => Ok(Phase::Failed),
    }
}

/// At `=` in a parameter: behind a whole pattern the body begins.
fn on_equals(alloc: Global, parts: &mut Parts, at: At, place: Place) -> Result<Phase, Memory>
    ensures { IfOk result (λ m. (done : Option (List Entry)) → state_of done m (parts_of parts.new) ≡ machine.in_param types patterns exprs bounded done at (parts_of parts.old).patterns equals place) }
{
    if !parts.patterns.is_whole() {
        parts.patterns.step(alloc, Symbol::Equals, place)?;
        return Ok(Phase::InParam(at));
    }
    let param = match parts.patterns.finish(alloc)? {
        PatternEnd::Whole(built) => Some(built.tree),
        _ => None,
    };
    parts.exprs.begin(alloc);
    Ok(Phase::InBody(at, param))
}

/// In a parameter.
fn in_param<'a>(
    alloc: Global,
    parts: &mut Parts,
    at: At,
    symbol: Symbol<'a>,
    place: Place,
) -> Result<Phase, Memory>
    ensures { IfOk result (λ m. (done : Option (List Entry)) → state_of done m (parts_of parts.new) ≡ machine.in_param types patterns exprs bounded done at (parts_of parts.old).patterns (symbol_view symbol.entry) place) }
{
    match symbol {
        Symbol::Equals => on_equals(alloc, parts, at, place),
        _ => {
            parts.patterns.step(alloc, symbol, place)?;
            Ok(Phase::InParam(at))
        }
    }
}

/// In the type of a synonym.
fn in_synonym<'a>(
    alloc: Global,
    parts: &mut Parts,
    at: At,
    params: Items<At>,
    symbol: Symbol<'a>,
    place: Place,
) -> Result<Phase, Memory>
    ensures { IfOk result (λ m. (done : Option (List Entry)) → state_of done m (parts_of parts.new) ≡ machine.inside types patterns exprs bounded (state_of done (InSynonym at params) (parts_of parts.old)) (symbol_view symbol.entry) place) }
{
    parts.types.step(alloc, symbol, place)?;
    Ok(Phase::InSynonym(at, params))
}

/// In the type of a signature.
fn in_signature<'a>(
    alloc: Global,
    parts: &mut Parts,
    at: At,
    vars: Vars,
    symbol: Symbol<'a>,
    place: Place,
) -> Result<Phase, Memory>
    ensures { IfOk result (λ m. (done : Option (List Entry)) → state_of done m (parts_of parts.new) ≡ machine.inside types patterns exprs bounded (state_of done (InSignature at vars) (parts_of parts.old)) (symbol_view symbol.entry) place) }
{
    parts.types.step(alloc, symbol, place)?;
    Ok(Phase::InSignature(at, vars))
}

/// In a body.
fn in_body<'a>(
    alloc: Global,
    parts: &mut Parts,
    at: At,
    param: Option<Pat>,
    symbol: Symbol<'a>,
    place: Place,
) -> Result<Phase, Memory>
    ensures { IfOk result (λ m. (done : Option (List Entry)) → state_of done m (parts_of parts.new) ≡ machine.inside types patterns exprs bounded (state_of done (InBody at param) (parts_of parts.old)) (symbol_view symbol.entry) place) }
{
    parts.exprs.step(alloc, symbol, place)?;
    Ok(Phase::InBody(at, param))
}

/// At a token past column 1.
fn inside<'a>(
    alloc: Global,
    parts: &mut Parts,
    phase: Phase,
    symbol: Symbol<'a>,
    place: Place,
) -> Result<Phase, Memory>
    ensures { IfOk result (λ m. (done : Option (List Entry)) → state_of done m (parts_of parts.new) ≡ machine.inside types patterns exprs bounded (state_of done phase (parts_of parts.old)) (symbol_view symbol.entry) place) }
{
    match phase {
        Phase::Between | Phase::Failed => Ok(Phase::Failed),
        Phase::AfterType => after_type(alloc, symbol, place),
        Phase::InParams(at, params) => in_params(
            alloc,
            &mut parts.types,
            at,
            params,
            symbol,
            place,
        ),
        Phase::InSynonym(at, params) => in_synonym(alloc, parts, at, params, symbol, place),
        Phase::AfterName(at) => after_name(alloc, &mut parts.patterns, at, symbol, place),
        Phase::AfterColon(at) => after_colon(alloc, &mut parts.types, at, symbol, place),
        Phase::AfterAll(at) => after_all(alloc, at, symbol, place),
        Phase::WantVar(at, vars) => want_var(alloc, at, vars, symbol, place),
        Phase::AfterVar(at, vars, name, q) => after_var(at, vars, name, q, symbol),
        Phase::WantKinds(at, vars, name, q) => Ok(want_kinds(at, vars, name, q, symbol)),
        Phase::AfterKinds(at, vars, bound, q) => after_kinds(at, vars, bound, q, symbol),
        Phase::WantDot(at, vars) => Ok(want_dot(alloc, &mut parts.types, at, vars, symbol)),
        Phase::InSignature(at, vars) => in_signature(alloc, parts, at, vars, symbol, place),
        Phase::InParam(at) => in_param(alloc, parts, at, symbol, place),
        Phase::InBody(at, param) => in_body(alloc, parts, at, param, symbol, place),
    }
}

/// One token more.
pub(crate) fn step<'a>(
    alloc: Global,
    done: &mut Option<Program>,
    parts: &mut Parts,
    phase: Phase,
    token: &Token<'a>,
) -> Result<Phase, Memory>
    ensures { IfOk result (λ m. state_of (items_of done.new) m (parts_of parts.new) ≡ machine.step types patterns exprs bounded (state_of (items_of done.old) phase (parts_of parts.old)) (seen (lexeme token.now))) }
{
    let symbol = symbol_at(token);
    if token.place.column == 1 {
        head(alloc, done, parts, phase, symbol, token.place)
    } else {
        inside(alloc, parts, phase, symbol, token.place)
    }
}
