// Reading operands and paths, one symbol at a time.
ghost use Rattle.std.specs.Prelude.{◌≡◌, IfOk};
ghost use Rattle.cg_cread_parts.specs.Operands as machine;
ghost use Rattle.cg_cread_parts.specs.Views.{symbol_view};
ghost use Rattle.cg_cread_parts.specs.declared.operand.Operand.TheVariants.{Path};

use crate::symbol::Symbol;
use cg_base::{Items, Memory, Name};
use cg_ctree::{COpnd, CPath};
use std::alloc::Global;

/// Where in an operand the reader stands: before it; behind a number; behind a path, which may go on; behind the dot of a member;
/// behind an arrow; or where nothing goes on.
pub enum Operand {
    Wanted,
    Number(u64),
    Path(CPath),
    Dot(CPath),
    Arrow(Name),
    Stuck,
}

impl Drop for Operand {
    fn drop(self) {
        match self {
            Operand::Path(path) | Operand::Dot(path) => drop(path),
            Operand::Arrow(name) => drop(name),
            Operand::Wanted | Operand::Number(_) | Operand::Stuck => (),
        }
    }
}

// The path that is a name alone.
fn path_alone(alloc: Global, base: Name) -> CPath
    ensures { result ≡ machine.path_of base }
{
    CPath {
        base,
        arrow: false,
        members: Items::new(alloc),
    }
}

// Before an operand.
fn wanted<'a>(alloc: Global, symbol: Symbol<'a>) -> Result<Operand, Memory>
    ensures { IfOk result (λ m. m ≡ machine.on_wanted (symbol_view symbol.entry)) }
{
    match symbol {
        Symbol::Name(name) => Ok(Operand::Path(path_alone(alloc, Name::new(alloc, name)?))),
        Symbol::Number(number) => Ok(Operand::Number(number)),
        _ => Ok(Operand::Stuck),
    }
}

/// The name that a path is alone, where it is.
pub fn path_name(alloc: Global, path: &CPath) -> Result<Option<Name>, Memory>
    ensures { IfOk result (λ name. name ≡ machine.path_name path.now) }
{
    if path.arrow || path.members.len() != 0 {
        return Ok(None);
    }
    Ok(Some(path.base.copy(alloc)?))
}

// Behind a path.
fn behind_path<'a>(alloc: Global, path: CPath, symbol: Symbol<'a>) -> Result<Operand, Memory>
    ensures { IfOk result (λ m. m ≡ machine.on_path path (symbol_view symbol.entry)) }
{
    match symbol {
        Symbol::Dot => Ok(Operand::Dot(path)),
        Symbol::Arrow => match path_name(alloc, &path)? {
            Some(name) => Ok(Operand::Arrow(name)),
            None => Ok(Operand::Stuck),
        },
        _ => Ok(Operand::Stuck),
    }
}

// Behind the dot of a member.
fn behind_dot<'a>(alloc: Global, mut path: CPath, symbol: Symbol<'a>) -> Result<Operand, Memory>
    ensures { IfOk result (λ m. m ≡ machine.on_dot path (symbol_view symbol.entry)) }
{
    match symbol {
        Symbol::Name(name) => {
            let name = Name::new(alloc, name)?;
            path.members.push(name).and(Ok(Operand::Path(path)))
        }
        _ => Ok(Operand::Stuck),
    }
}

// Behind the path of a name, an arrow and a member.
fn arrow_path(alloc: Global, base: Name, member: Name) -> Result<Operand, Memory>
    ensures { IfOk result (λ m. m ≡ Path (machine.arrow_path base member)) }
{
    let mut members = Items::new(alloc);
    members.push(member).and(Ok(Operand::Path(CPath {
        base,
        arrow: true,
        members,
    })))
}

// Behind an arrow.
fn behind_arrow<'a>(alloc: Global, base: Name, symbol: Symbol<'a>) -> Result<Operand, Memory>
    ensures { IfOk result (λ m. m ≡ machine.on_arrow base (symbol_view symbol.entry)) }
{
    match symbol {
        Symbol::Name(name) => arrow_path(alloc, base, Name::new(alloc, name)?),
        _ => Ok(Operand::Stuck),
    }
}

impl Operand {
    /// One symbol more of an operand.
    pub fn step<'a>(self, alloc: Global, symbol: Symbol<'a>) -> Result<Operand, Memory>
        ensures { IfOk result (λ m. m ≡ machine.operand_step self (symbol_view symbol.entry)) }
    {
        match self {
            Operand::Wanted => wanted(alloc, symbol),
            Operand::Path(path) => behind_path(alloc, path, symbol),
            Operand::Dot(path) => behind_dot(alloc, path, symbol),
            Operand::Arrow(base) => behind_arrow(alloc, base, symbol),
            Operand::Number(_) | Operand::Stuck => Ok(Operand::Stuck),
        }
    }

    /// The operand that ends there, where one does.
    pub fn end(self) -> Option<COpnd>
        ensures { result ≡ machine.operand_end self }
    {
        match self {
            Operand::Number(number) => Some(COpnd::Number(number)),
            Operand::Path(path) => Some(COpnd::Path(path)),
            _ => None,
        }
    }

    /// The path that ends there, where one does.
    pub fn path(self) -> Option<CPath>
        ensures { result ≡ machine.path_end self }
    {
        match self {
            Operand::Path(path) => Some(path),
            _ => None,
        }
    }

    /// Whether an operand may still come of it.
    pub fn is_open(&self) -> bool
        ensures { result ≡ machine.operand_is_open self.now }
    {
        !matches!(self, Operand::Stuck)
    }
}

/// The function that an operand names, where it is a name alone.
pub fn function_name(alloc: Global, operand: &COpnd) -> Result<Option<Name>, Memory>
    ensures { IfOk result (λ name. name ≡ machine.function_name operand.now) }
{
    match operand {
        COpnd::Path(path) => path_name(alloc, path),
        COpnd::Number(_) => Ok(None),
    }
}
