// Members, and fields in braces.
ghost use Rattle.std.specs.Prelude.{◌≡◌, List, IfOk};
ghost use Rattle.cg_parser_exprs_def.specs.Machine as machine;
ghost use Rattle.cg_parser_symbols.specs.Views.{symbol_view};
ghost use Rattle.cg_parser_build.specs.Bounded.{bounded};
ghost use Rattle.cg_parser_exprs_def.specs.Held.{types, patterns, Types, Patterns, Within};
ghost use Rattle.cg_parser_exprs_frames.specs.Stack.{owner_of, stack_of, mode_of};
ghost use Rattle.cg_parser_build.specs.Views.{view_of, fields_view};

use cg_base::{Memory, Name, Place};
use cg_core::At;
use cg_parser_build::{BuiltExpr, BuiltFields, build, lists};
use cg_parser_exprs_frames::frame::{Frame, Mode, Owner};
use cg_parser_stack::Stack;
use cg_parser_symbols::Symbol;
use std::alloc::Global;

/// Behind a dot.
pub fn after_dot<'a>(
    alloc: Global,
    symbol: Symbol<'a>,
    place: Place,
    tree: Option<BuiltExpr>,
) -> Result<Mode, Memory>
    ensures { IfOk result (λ m. (ts : Types) (ps : Patterns) (fs : List Within) → mode_of m ts ps fs ≡ machine.after_dot types patterns bounded (symbol_view symbol.entry) place (view_of tree) fs) }
{
    match symbol {
        Symbol::Lower(bytes) => {
            let name = Name::new(alloc, bytes)?;
            Ok(Mode::Have(build::member(alloc, tree, At { place, name })?))
        }
        _ => Ok(Mode::Stuck),
    }
}

/// Where a field is wanted.
pub fn want_field<'a>(
    alloc: Global,
    symbol: Symbol<'a>,
    place: Place,
    owner: Owner,
    fields: Option<BuiltFields>,
) -> Result<Mode, Memory>
    ensures { IfOk result (λ m. (ts : Types) (ps : Patterns) (fs : List Within) → mode_of m ts ps fs ≡ machine.want_field types patterns bounded (symbol_view symbol.entry) place (owner_of owner) (fields_view fields) fs) }
{
    match symbol {
        Symbol::Lower(bytes) => {
            let name = Name::new(alloc, bytes)?;
            Ok(Mode::AfterField(owner, fields, At { place, name }))
        }
        _ => Ok(Mode::Stuck),
    }
}

/// A field more that is written alone: it holds the variable of its name.
fn alone(alloc: Global, fields: Option<BuiltFields>, at: At) -> Result<Option<BuiltFields>, Memory>
    ensures { IfOk result (λ gs. fields_view gs ≡ machine.alone types patterns bounded (fields_view fields) at) }
{
    let tree = build::name(at.place, at.name.copy(alloc)?, lists::no_args(alloc));
    lists::and_field(fields, at, tree)
}

/// Behind a field's name.
pub fn after_field<'a>(
    alloc: Global,
    stack: &mut Stack<Frame>,
    symbol: Symbol<'a>,
    owner: Owner,
    fields: Option<BuiltFields>,
    at: At,
) -> Result<Mode, Memory>
    ensures { IfOk result (λ m. (ts : Types) (ps : Patterns) → mode_of m ts ps (stack_of stack.new) ≡ machine.after_field types patterns bounded (symbol_view symbol.entry) (owner_of owner) (fields_view fields) at (stack_of stack.old)) }
{
    match symbol {
        Symbol::Equals => {
            stack.push(Frame::InField(owner, fields, at))?;
            Ok(Mode::Want)
        }
        Symbol::Comma => Ok(Mode::WantField(owner, alone(alloc, fields, at)?)),
        Symbol::ClosingBrace => {
            let fields = alone(alloc, fields, at)?;
            Ok(Mode::Have(owner.owned(alloc, fields)?))
        }
        _ => Ok(Mode::Stuck),
    }
}
