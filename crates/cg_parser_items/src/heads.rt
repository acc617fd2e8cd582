// The beginnings of items, one token at a time.
ghost use Rattle.std.specs.Prelude.{◌≡◌, List, Option, IfOk};
ghost use Rattle.cg_surface.specs.Programs.{Entry};
ghost use Rattle.cg_parser_symbols.specs.Views.{symbol_view};
ghost use Rattle.cg_parser_types.specs.States.{reader_state as type_state};
ghost use Rattle.cg_parser_patterns.specs.State.{reader_state as pattern_state};
ghost use Rattle.cg_parser_exprs_def.specs.Held.{types, patterns, Types, Patterns};
ghost use Rattle.cg_parser_def.specs.Bounded.{bounded};
ghost use Rattle.cg_parser_def.specs.Held.{Read, ExprHeld, exprs};
ghost use Rattle.cg_parser_def.specs.Machine as machine;
ghost use Rattle.cg_parser_items.specs.Views.{state_of};

use crate::phase::{Phase, Vars};
use cg_base::{Items, Memory, Name, Place};
use cg_core::At;
use cg_parser_patterns::PatternReader;
use cg_parser_symbols::Symbol;
use cg_parser_types::TypeReader;
use std::alloc::Global;

/// Behind the word `type`.
pub fn after_type<'a>(alloc: Global, symbol: Symbol<'a>, place: Place) -> Result<Phase, Memory>
    ensures { IfOk result (λ m. (done : Option (List Entry)) (parts : Read) → state_of done m parts ≡ machine.after_type types patterns exprs bounded done (symbol_view symbol.entry) place) }
{
    match symbol {
        Symbol::Upper(name) => {
            let name = Name::new(alloc, name)?;
            Ok(Phase::InParams(At { place, name }, Items::new(alloc)))
        }
        _ => Ok(Phase::Failed),
    }
}

/// Among the parameters of a type.
pub fn in_params<'a>(
    alloc: Global,
    reader: &mut TypeReader,
    at: At,
    params: Items<At>,
    symbol: Symbol<'a>,
    place: Place,
) -> Result<Phase, Memory>
    ensures { IfOk result (λ m. (done : Option (List Entry)) (ps : Patterns) (xs : ExprHeld) → state_of done m (record { types = type_state reader.new; patterns = ps; exprs = xs }) ≡ machine.in_params types patterns exprs bounded done at params (symbol_view symbol.entry) place) }
{
    match symbol {
        Symbol::Lower(name) => {
            let name = Name::new(alloc, name)?;
            let mut params = params;
            params.push(At { place, name })?;
            Ok(Phase::InParams(at, params))
        }
        Symbol::Equals => {
            reader.begin(alloc);
            Ok(Phase::InSynonym(at, params))
        }
        _ => Ok(Phase::Failed),
    }
}

/// Behind the name of an item: a colon, or else a parameter.
pub fn after_name<'a>(
    alloc: Global,
    reader: &mut PatternReader,
    at: At,
    symbol: Symbol<'a>,
    place: Place,
) -> Result<Phase, Memory>
    ensures { IfOk result (λ m. (done : Option (List Entry)) (ts : Types) (xs : ExprHeld) → state_of done m (record { types = ts; patterns = pattern_state reader.new; exprs = xs }) ≡ machine.after_name types patterns exprs bounded done at (symbol_view symbol.entry) place) }
{
    match symbol {
        Symbol::Colon => Ok(Phase::AfterColon(at)),
        _ => {
            reader.begin(alloc);
            reader.step(alloc, symbol, place)?;
            Ok(Phase::InParam(at))
        }
    }
}

/// Behind the colon of a signature: `all`, or else its type.
pub fn after_colon<'a>(
    alloc: Global,
    reader: &mut TypeReader,
    at: At,
    symbol: Symbol<'a>,
    place: Place,
) -> Result<Phase, Memory>
    ensures { IfOk result (λ m. (done : Option (List Entry)) (ps : Patterns) (xs : ExprHeld) → state_of done m (record { types = type_state reader.new; patterns = ps; exprs = xs }) ≡ machine.after_colon types patterns exprs bounded done at (symbol_view symbol.entry) place) }
{
    match symbol {
        Symbol::All => Ok(Phase::AfterAll(at)),
        _ => {
            reader.begin(alloc);
            reader.step(alloc, symbol, place)?;
            Ok(Phase::InSignature(at, Vars::new(alloc)))
        }
    }
}
