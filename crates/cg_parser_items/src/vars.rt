// The type variables of a signature, one token at a time.
ghost use Rattle.std.specs.Prelude.{◌≡◌, List, Option, IfOk};
ghost use Rattle.cg_surface.specs.Programs.{Entry};
ghost use Rattle.cg_parser_symbols.specs.Views.{symbol_view};
ghost use Rattle.cg_parser_types.specs.States.{reader_state as type_state};
ghost use Rattle.cg_parser_exprs_def.specs.Held.{types, patterns, Patterns};
ghost use Rattle.cg_parser_def.specs.Bounded.{bounded};
ghost use Rattle.cg_parser_def.specs.Held.{Read, ExprHeld, exprs};
ghost use Rattle.cg_parser_def.specs.Machine as machine;
ghost use Rattle.cg_parser_items.specs.Views.{state_of};

use crate::kinds::{are_letters, kinds_of, no_kinds};
use crate::phase::{Phase, Vars};
use cg_base::{Bound, Memory, Name, Place};
use cg_core::At;
use cg_parser_symbols::Symbol;
use cg_parser_types::TypeReader;
use std::alloc::Global;

/// Behind `all`: one type variable, or a parenthesis round some.
pub fn after_all<'a>(
    alloc: Global,
    at: At,
    symbol: Symbol<'a>,
    place: Place,
) -> Result<Phase, Memory>
    ensures { IfOk result (λ m. (done : Option (List Entry)) (parts : Read) → state_of done m parts ≡ machine.after_all types patterns exprs bounded done at (symbol_view symbol.entry) place) }
{
    match symbol {
        Symbol::Lower(name) => {
            let name = Name::new(alloc, name)?;
            let kinds = no_kinds();
            let vars = Vars::new(alloc).with(Bound { name, kinds }, place)?;
            Ok(Phase::WantDot(at, vars))
        }
        Symbol::Opening => Ok(Phase::WantVar(at, Vars::new(alloc))),
        _ => Ok(Phase::Failed),
    }
}

/// Where a type variable is wanted.
pub fn want_var<'a>(
    alloc: Global,
    at: At,
    vars: Vars,
    symbol: Symbol<'a>,
    place: Place,
) -> Result<Phase, Memory>
    ensures { IfOk result (λ m. (done : Option (List Entry)) (parts : Read) → state_of done m parts ≡ machine.want_var types patterns exprs bounded done at vars.bounds vars.places (symbol_view symbol.entry) place) }
{
    match symbol {
        Symbol::Lower(name) => Ok(Phase::AfterVar(at, vars, Name::new(alloc, name)?, place)),
        _ => Ok(Phase::Failed),
    }
}

/// Behind a type variable with its kinds.
pub fn after_kinds<'a>(
    at: At,
    vars: Vars,
    bound: Bound,
    place: Place,
    symbol: Symbol<'a>,
) -> Result<Phase, Memory>
    ensures { IfOk result (λ m. (done : Option (List Entry)) (parts : Read) → state_of done m parts ≡ machine.after_kinds types patterns exprs bounded done at vars.bounds vars.places bound place (symbol_view symbol.entry)) }
{
    match symbol {
        Symbol::Comma => Ok(Phase::WantVar(at, vars.with(bound, place)?)),
        Symbol::Closing => Ok(Phase::WantDot(at, vars.with(bound, place)?)),
        _ => Ok(Phase::Failed),
    }
}

/// Behind the name of a type variable.
pub fn after_var<'a>(
    at: At,
    vars: Vars,
    name: Name,
    place: Place,
    symbol: Symbol<'a>,
) -> Result<Phase, Memory>
    ensures { IfOk result (λ m. (done : Option (List Entry)) (parts : Read) → state_of done m parts ≡ machine.after_var types patterns exprs bounded done at vars.bounds vars.places name place (symbol_view symbol.entry)) }
{
    match symbol {
        Symbol::HasKinds => Ok(Phase::WantKinds(at, vars, name, place)),
        _ => {
            let kinds = no_kinds();
            after_kinds(at, vars, Bound { name, kinds }, place, symbol)
        }
    }
}

/// Behind `:<`.
pub fn want_kinds<'a>(at: At, vars: Vars, name: Name, place: Place, symbol: Symbol<'a>) -> Phase
    ensures { (done : Option (List Entry)) (parts : Read) → state_of done result parts ≡ machine.want_kinds types patterns exprs bounded done at vars.bounds vars.places name place (symbol_view symbol.entry) }
{
    match symbol {
        Symbol::Upper(letters) => {
            if !are_letters(letters) {
                return Phase::Failed;
            }
            let kinds = kinds_of(letters);
            Phase::AfterKinds(at, vars, Bound { name, kinds }, place)
        }
        _ => Phase::Failed,
    }
}

/// Behind the type variables.
pub fn want_dot<'a>(
    alloc: Global,
    reader: &mut TypeReader,
    at: At,
    vars: Vars,
    symbol: Symbol<'a>,
) -> Phase
    ensures { (done : Option (List Entry)) (ps : Patterns) (xs : ExprHeld) → state_of done result (record { types = type_state reader.new; patterns = ps; exprs = xs }) ≡ machine.want_dot types patterns exprs bounded done at vars.bounds vars.places (symbol_view symbol.entry) }
{
    match symbol {
        Symbol::Dot => {
            reader.begin(alloc);
            Phase::InSignature(at, vars)
        }
        _ => Phase::Failed,
    }
}
