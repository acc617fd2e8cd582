// Reading declarations, alone and in rows, one symbol at a time.
ghost use Rattle.std.specs.Prelude.{◌≡◌, [], IfOk};
ghost use Rattle.cg_cread_parts.specs.Declarations as machine;
ghost use Rattle.cg_cread_parts.specs.Views.{symbol_view};
ghost use Rattle.cg_cread_parts.specs.declared.declaration.Declaration.TheVariants.{Wanted};

use crate::symbol::{Keyword, Symbol};
use cg_base::{Items, Memory, Name};
use cg_ctree::{CDecl, COp, CTy};
use std::alloc::Global;

/// Where in a declaration the reader stands: before it; behind `struct`; behind its type, which may become a pointer; behind its
/// name; or where nothing goes on.
pub enum Declaration {
    Wanted,
    StructRead,
    Typed(CTy),
    Named(CTy, Name),
    Stuck,
}

impl Drop for Declaration {
    fn drop(self) {
        match self {
            Declaration::Typed(ty) => drop(ty),
            Declaration::Named(ty, name) => {
                drop(ty);
                drop(name);
            }
            Declaration::Wanted | Declaration::StructRead | Declaration::Stuck => (),
        }
    }
}

// Before a declaration.
fn wanted<'a>(symbol: Symbol<'a>) -> Declaration
    ensures { result ≡ machine.on_wanted (symbol_view symbol.entry) }
{
    match symbol {
        Symbol::Word(word) => Declaration::Typed(CTy::Word(word)),
        Symbol::Key(Keyword::Struct) => Declaration::StructRead,
        _ => Declaration::Stuck,
    }
}

// Behind `struct`.
fn struct_read<'a>(alloc: Global, symbol: Symbol<'a>) -> Result<Declaration, Memory>
    ensures { IfOk result (λ m. m ≡ machine.on_struct (symbol_view symbol.entry)) }
{
    match symbol {
        Symbol::Name(name) => Ok(Declaration::Typed(CTy::Struct(Name::new(alloc, name)?))),
        _ => Ok(Declaration::Stuck),
    }
}

// The type that a star makes of a type, where it makes one.
fn starred(ty: CTy) -> Declaration
    ensures { result ≡ machine.starred ty }
{
    match ty {
        CTy::Struct(name) => Declaration::Typed(CTy::Pointer(name)),
        other => {
            drop(other);
            Declaration::Stuck
        }
    }
}

// Behind a type.
fn typed<'a>(alloc: Global, ty: CTy, symbol: Symbol<'a>) -> Result<Declaration, Memory>
    ensures { IfOk result (λ m. m ≡ machine.on_typed ty (symbol_view symbol.entry)) }
{
    match symbol {
        Symbol::Name(name) => {
            let name = Name::new(alloc, name)?;
            Ok(Declaration::Named(ty, name))
        }
        Symbol::Op(COp::Mul) => Ok(starred(ty)),
        _ => {
            drop(ty);
            Ok(Declaration::Stuck)
        }
    }
}

// The name of a type that is a struct.
fn type_struct(ty: CTy) -> Option<Name>
    ensures { result ≡ machine.type_struct ty }
{
    match ty {
        CTy::Struct(name) => Some(name),
        other => {
            drop(other);
            None
        }
    }
}

impl Declaration {
    /// One symbol more of a declaration, without what follows it.
    pub fn step<'a>(self, alloc: Global, symbol: Symbol<'a>) -> Result<Declaration, Memory>
        ensures { IfOk result (λ m. m ≡ machine.declaration_step self (symbol_view symbol.entry)) }
    {
        match self {
            Declaration::Wanted => Ok(wanted(symbol)),
            Declaration::StructRead => struct_read(alloc, symbol),
            Declaration::Typed(ty) => typed(alloc, ty, symbol),
            other => {
                drop(other);
                Ok(Declaration::Stuck)
            }
        }
    }

    /// The declaration that ends there, where one does.
    pub fn end(self) -> Option<CDecl>
        ensures { result ≡ machine.declaration_end self }
    {
        match self {
            Declaration::Named(ty, name) => Some(CDecl { ty, name }),
            _ => None,
        }
    }

    /// Its type and its name, where it ends there.
    pub fn parts(self) -> Option<(CTy, Name)>
        ensures { result ≡ machine.declaration_parts self }
    {
        match self {
            Declaration::Named(ty, name) => Some((ty, name)),
            _ => None,
        }
    }

    /// The struct whose members may be declared there, where one is named.
    pub fn names_struct(self) -> Option<Name>
        ensures { result ≡ machine.declaration_struct self }
    {
        match self {
            Declaration::Typed(ty) => type_struct(ty),
            _ => None,
        }
    }

    /// Whether a declaration may still come of it.
    pub fn is_open(&self) -> bool
        ensures { result ≡ machine.declaration_is_open self.now }
    {
        !matches!(self, Declaration::Stuck)
    }

    // Whether nothing of it is begun.
    fn is_whole(&self) -> bool
        ensures { result ≡ machine.is_whole self.now }
    {
        matches!(self, Declaration::Wanted)
    }
}

/// Declarations, and where in the next one the reader stands.
pub struct Row {
    pub before: Items<CDecl>,
    pub at: Declaration,
}

impl Drop for Row {
    fn drop(self) {
        let Row { before, at } = self;
        drop(before);
        drop(at);
    }
}

// Behind the `;` of a declaration.
fn declared(mut before: Items<CDecl>, declaration: Option<CDecl>) -> Result<Row, Memory>
    ensures { IfOk result (λ row. row ≡ machine.declared before declaration) }
{
    match declaration {
        Some(declaration) => {
            let pushed = before.push(declaration);
            let at = Declaration::Wanted;
            pushed.and(Ok(Row { before, at }))
        }
        None => Ok(Row {
            before,
            at: Declaration::Stuck,
        }),
    }
}

impl Row {
    /// A row of no declaration.
    pub fn new(alloc: Global) -> Row
        ensures { result ≡ machine.row [] Wanted }
    {
        Row {
            before: Items::new(alloc),
            at: Declaration::Wanted,
        }
    }

    /// One symbol more of a row.
    pub fn step<'a>(self, alloc: Global, symbol: Symbol<'a>) -> Result<Row, Memory>
        ensures { IfOk result (λ row. row ≡ machine.row_step self (symbol_view symbol.entry)) }
    {
        let Row { before, at } = self;
        match symbol {
            Symbol::Semicolon => declared(before, at.end()),
            _ => {
                let at = at.step(alloc, symbol)?;
                Ok(Row { before, at })
            }
        }
    }

    /// The declarations of a row.
    pub fn declarations(self) -> Items<CDecl>
        ensures { result ≡ self.before }
    {
        let Row { before, at } = self;
        drop(at);
        before
    }

    /// Whether nothing of a declaration is begun.
    pub fn is_whole(&self) -> bool
        ensures { result ≡ machine.row_is_whole self.now }
    {
        self.at.is_whole()
    }

    /// Whether a row may still come of it.
    pub fn is_open(&self) -> bool
        ensures { result ≡ machine.row_is_open self.now }
    {
        self.at.is_open()
    }
}
