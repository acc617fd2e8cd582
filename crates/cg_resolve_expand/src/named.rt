// Names of types, of variables and of components.
#![tactic(auto, using(std::proofs::lemmas::Grind::common_steps, crate::proofs::NamedSteps::named_steps))]

ghost use Rattle.std.specs.Prelude.{◌≡◌, map, IfOk, if◌then◌else◌};
ghost use Rattle.cg_base.specs.Types.{type_of};
ghost use Rattle.cg_base.specs.declared.kind.Sigil.TheVariants.{W, U};
ghost use Rattle.cg_resolve_declared.specs.Tables.{texts};
ghost use Rattle.cg_resolve_declared.specs.Views.{plain_of};
ghost use Rattle.cg_resolve_def.specs.Expand.{component, position_of};
ghost use Rattle.cg_resolve_expand.specs.Known.{known_of};
ghost use Rattle.cg_resolve_expand.specs.Pieces.{applied_type};

use crate::Synonyms;
use cg_base::{Items, Memory, Name, Sigil, Ty};
use cg_kinds::subst;
use cg_resolve_declared::{Plain, plain_type};
use std::alloc::Global;

/// The type of this name with these arguments: one that is declared beforehand, or what a synonym is for, or an abstract type
/// (docs/LANGUAGE.md, "Synonyms"). Want of memory is its one refusal.
pub(crate) fn applied(
    alloc: Global,
    synonyms: &Synonyms<'_>,
    name: &Name,
    args: Items<Ty>,
) -> Result<Ty, Memory>
    ensures { IfOk result (λ t. type_of t ≡ applied_type (known_of synonyms.now) name.now (map type_of args)) }
{
    if let Some(plain) = plain_type(name.bytes()) {
        return plain_as_type(alloc, plain);
    }
    match synonyms.body(name.bytes()) {
        Some(body) => subst(alloc, body, &args),
        None => Ok(Ty::Abs(name.copy(alloc)?, args, Sigil::W)),
    }
}

// A type that is declared beforehand.
fn plain_as_type(alloc: Global, plain: Plain) -> Result<Ty, Memory>
    ensures { IfOk result (λ t. type_of t ≡ plain_of plain) }
{
    match plain {
        Plain::Word(word) => Ok(Ty::Word(word)),
        Plain::Bool => Ok(Ty::Bool),
        Plain::SysState => {
            let name = Name::new(alloc, b"SysState")?;
            Ok(Ty::Abs(name, Items::new(alloc), Sigil::W))
        }
    }
}

/// The position of a type variable among these, and that behind them all where it isn't there. One that is no `u32` finds no
/// room in a type, as if memory failed.
pub(crate) fn position(vars: &[&[u8]], name: &[u8]) -> Result<u32, Memory>
    ensures { IfOk result (λ at. at ≡ position_of (texts vars.now) name.now) }
{
    let at = first_place(vars, name);
    if at <= u32::MAX as usize {
        Ok(at as u32)
    } else {
        Err(Memory)
    }
}

// The position of the first of these names that is this one, and that behind them all where there is none.
fn first_place(names: &[&[u8]], name: &[u8]) -> usize
    ensures { result ≡ position_of (texts names.now) name.now }
{
    for (at, other) in names.iter().enumerate() {
        if name == *other {
            return at;
        }
    }
    names.len()
}

/// The name of the component of a tuple that stands behind so many (docs/LANGUAGE.md, "Synonyms"). Want of memory is its one
/// refusal.
pub(crate) fn component(alloc: Global, before: usize) -> Result<Name, Memory>
    ensures { IfOk result (λ name. name ≡ component before) }
{
    let number = before.checked_add(1).ok_or(Memory)?;
    let text = format!(in alloc; "p{number}")?;
    Name::new(alloc, text.as_bytes())
}

/// The sigil of a record type that is written boxed or unboxed.
pub(crate) fn sigil(boxed: bool) -> Sigil
    ensures { result ≡ (if boxed then W else U) }
{
    if boxed { Sigil::W } else { Sigil::U }
}
