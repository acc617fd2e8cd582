// Behind `take`.
ghost use Rattle.std.specs.Prelude.{◌≡◌, List, IfOk};
ghost use Rattle.cg_parser_symbols.specs.Views.{symbol_view};
ghost use Rattle.cg_parser_types.specs.Bounded.{bounded};
ghost use Rattle.cg_parser_types.specs.Machine as machine;
ghost use Rattle.cg_parser_types.specs.Stack.{Open, mode_of};
ghost use Rattle.cg_parser_types.specs.Views.{view_of};

use crate::build;
use crate::built::BuiltType;
use crate::mode::Mode;
use cg_base::{Items, Memory, Name, Place};
use cg_core::At;
use cg_parser_symbols::Symbol;
use std::alloc::Global;

/// Behind `take`.
pub(crate) fn after_take<'a>(symbol: Symbol<'a>, word: Place, tree: Option<BuiltType>) -> Mode
    ensures { (fs : List Open) → mode_of result fs ≡ machine.after_take bounded (symbol_view symbol.entry) word (view_of tree) fs }
{
    match symbol {
        Symbol::Opening => Mode::TakeOpen(word, tree),
        _ => Mode::Stuck,
    }
}

/// Behind the parenthesis of a `take`.
pub(crate) fn take_open<'a>(
    alloc: Global,
    symbol: Symbol<'a>,
    place: Place,
    word: Place,
    tree: Option<BuiltType>,
) -> Result<Mode, Memory>
    ensures { IfOk result (λ m. (fs : List Open) → mode_of m fs ≡ machine.take_open bounded (symbol_view symbol.entry) place word (view_of tree) fs) }
{
    match symbol {
        Symbol::Dots => Ok(Mode::TakeDots(word, tree)),
        Symbol::Lower(bytes) => {
            let name = Name::new(alloc, bytes)?;
            let mut names = Items::new(alloc);
            names.push(At { place, name })?;
            Ok(Mode::TakeName(tree, names))
        }
        _ => Ok(Mode::Stuck),
    }
}

/// Behind the dots of a `take`.
pub(crate) fn take_dots<'a>(
    alloc: Global,
    symbol: Symbol<'a>,
    word: Place,
    tree: Option<BuiltType>,
) -> Result<Mode, Memory>
    ensures { IfOk result (λ m. (fs : List Open) → mode_of m fs ≡ machine.take_dots bounded (symbol_view symbol.entry) word (view_of tree) fs) }
{
    match symbol {
        Symbol::Closing => Ok(Mode::Taken(build::take_all(alloc, tree, word)?)),
        _ => Ok(Mode::Stuck),
    }
}

/// Behind a name in a `take`.
pub(crate) fn take_name<'a>(
    alloc: Global,
    symbol: Symbol<'a>,
    tree: Option<BuiltType>,
    names: Items<At>,
) -> Result<Mode, Memory>
    ensures { IfOk result (λ m. (fs : List Open) → mode_of m fs ≡ machine.take_name bounded (symbol_view symbol.entry) (view_of tree) names fs) }
{
    match symbol {
        Symbol::Comma => Ok(Mode::TakeMore(tree, names)),
        Symbol::Closing => Ok(Mode::Taken(build::take_some(alloc, tree, names)?)),
        _ => Ok(Mode::Stuck),
    }
}

/// Behind a comma in a `take`.
pub(crate) fn take_more<'a>(
    alloc: Global,
    symbol: Symbol<'a>,
    place: Place,
    tree: Option<BuiltType>,
    names: Items<At>,
) -> Result<Mode, Memory>
    ensures { IfOk result (λ m. (fs : List Open) → mode_of m fs ≡ machine.take_more bounded (symbol_view symbol.entry) place (view_of tree) names fs) }
{
    match symbol {
        Symbol::Lower(bytes) => {
            let name = Name::new(alloc, bytes)?;
            let mut names = names;
            names.push(At { place, name })?;
            Ok(Mode::TakeName(tree, names))
        }
        _ => Ok(Mode::Stuck),
    }
}
