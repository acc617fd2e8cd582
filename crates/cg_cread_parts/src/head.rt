// Reading the heads of functions, one symbol at a time.
ghost use Rattle.std.specs.Prelude.{◌≡◌, IfOk};
ghost use Rattle.cg_cread_parts.specs.Heads as machine;
ghost use Rattle.cg_cread_parts.specs.Views.{symbol_view};

use crate::declaration::Declaration;
use crate::symbol::Symbol;
use cg_base::{Items, Memory, Name};
use cg_ctree::{CBody, CDecl, CFun, CTy};
use std::alloc::Global;

/// A function's type and its name, and the parameters read.
pub struct Signature {
    pub ty: CTy,
    pub name: Name,
    pub params: Items<CDecl>,
}

impl Drop for Signature {
    fn drop(self) {
        let Signature { ty, name, params } = self;
        drop(ty);
        drop(name);
        drop(params);
    }
}

impl Signature {
    /// The function of this head.
    pub fn function(self, body: Option<CBody>) -> CFun
        ensures { result ≡ machine.function self body }
    {
        let Signature { ty, name, params } = self;
        CFun {
            ty,
            name,
            params,
            body,
        }
    }
}

/// Where in a function's head the reader stands: in its type and name; in a parameter; behind `)`; or where nothing goes on.
pub enum Head {
    InName(Declaration),
    InParam(Signature, Declaration),
    Closed(Signature),
    Stuck,
}

impl Drop for Head {
    fn drop(self) {
        match self {
            Head::InName(at) => drop(at),
            Head::InParam(signature, at) => {
                drop(signature);
                drop(at);
            }
            Head::Closed(signature) => drop(signature),
            Head::Stuck => (),
        }
    }
}

// Behind the `(`.
fn opened(alloc: Global, parts: Option<(CTy, Name)>) -> Head
    ensures { result ≡ machine.opened parts }
{
    match parts {
        Some((ty, name)) => {
            let params = Items::new(alloc);
            Head::InParam(Signature { ty, name, params }, Declaration::Wanted)
        }
        None => Head::Stuck,
    }
}

// In the type and the name.
fn in_name<'a>(alloc: Global, at: Declaration, symbol: Symbol<'a>) -> Result<Head, Memory>
    ensures { IfOk result (λ m. m ≡ machine.on_name at (symbol_view symbol.entry)) }
{
    match symbol {
        Symbol::Opening => Ok(opened(alloc, at.parts())),
        _ => Ok(Head::InName(at.step(alloc, symbol)?)),
    }
}

// Behind the comma of a parameter.
fn parted(mut signature: Signature, declaration: Option<CDecl>) -> Result<Head, Memory>
    ensures { IfOk result (λ m. m ≡ machine.parted signature declaration) }
{
    match declaration {
        Some(declaration) => {
            let pushed = signature.params.push(declaration);
            pushed.and(Ok(Head::InParam(signature, Declaration::Wanted)))
        }
        None => Ok(Head::Stuck),
    }
}

// Behind the `)`.
fn closed(mut signature: Signature, declaration: Option<CDecl>) -> Result<Head, Memory>
    ensures { IfOk result (λ m. m ≡ machine.closed signature declaration) }
{
    match declaration {
        Some(declaration) => {
            let pushed = signature.params.push(declaration);
            pushed.and(Ok(Head::Closed(signature)))
        }
        None => Ok(Head::Stuck),
    }
}

// In a parameter.
fn in_param<'a>(
    alloc: Global,
    signature: Signature,
    at: Declaration,
    symbol: Symbol<'a>,
) -> Result<Head, Memory>
    ensures { IfOk result (λ m. m ≡ machine.on_param signature at (symbol_view symbol.entry)) }
{
    match symbol {
        Symbol::Comma => parted(signature, at.end()),
        Symbol::Closing => closed(signature, at.end()),
        _ => {
            let at = at.step(alloc, symbol)?;
            Ok(Head::InParam(signature, at))
        }
    }
}

impl Head {
    /// One symbol more of a head, without the `{` or `;` behind it.
    pub fn step<'a>(self, alloc: Global, symbol: Symbol<'a>) -> Result<Head, Memory>
        ensures { IfOk result (λ m. m ≡ machine.head_step self (symbol_view symbol.entry)) }
    {
        match self {
            Head::InName(at) => in_name(alloc, at, symbol),
            Head::InParam(signature, at) => in_param(alloc, signature, at, symbol),
            Head::Closed(_) | Head::Stuck => Ok(Head::Stuck),
        }
    }

    /// The head behind which a `{` or `;` may stand, where it may.
    pub fn end(self) -> Option<Signature>
        ensures { result ≡ machine.head_end self }
    {
        match self {
            Head::Closed(signature) => Some(signature),
            _ => None,
        }
    }

    /// Whether a head is whole.
    pub fn is_whole(&self) -> bool
        ensures { result ≡ machine.head_is_whole self.now }
    {
        matches!(self, Head::Closed(_))
    }

    /// The struct whose members may be declared there, where one is named.
    pub fn names_struct(self) -> Option<Name>
        ensures { result ≡ machine.head_struct self }
    {
        match self {
            Head::InName(at) => at.names_struct(),
            _ => None,
        }
    }

    /// Whether a head may still come of it.
    pub fn is_open(&self) -> bool
        ensures { result ≡ machine.head_is_open self.now }
    {
        match self {
            Head::InName(at) | Head::InParam(_, at) => at.is_open(),
            Head::Closed(_) => true,
            Head::Stuck => false,
        }
    }
}
