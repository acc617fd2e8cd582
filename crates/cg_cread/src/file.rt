// Reading a file, one token at a time.
ghost use Rattle.std.specs.Prelude.{◌≡◌, IfOk};
ghost use Rattle.std.specs.Option.{option_map};
ghost use Rattle.cg_cread_lexer.specs.Next.{lexeme};
ghost use Rattle.cg_cread_parts.specs.Views.{symbol_view};
ghost use Rattle.cg_ctree.specs.Trees.{function_of, program_of};
ghost use Rattle.cg_cread.specs.Bodies as bodies;
ghost use Rattle.cg_cread.specs.Machine as machine;
ghost use Rattle.cg_cread.specs.Views.{body_of, done_of, state_of, Concludes};

use crate::CFault;
use crate::body::Body;
use cg_base::{Items, Memory, Name, Place};
use cg_cread_lexer::Token;
use cg_cread_parts::{Declaration, Head, Row, Signature, Symbol, symbol_at};
use cg_ctree::{CDecl, CFun, CProgram, CStruct};
use std::alloc::Global;
use std::mem::drop;

/// The structs and functions that are read.
pub(crate) struct Done {
    pub(crate) structs: Items<CStruct>,
    pub(crate) funs: Items<CFun>,
}

impl Drop for Done {
    fn drop(self) {
        let Done { structs, funs } = self;
        drop(structs);
        drop(funs);
    }
}

impl Done {
    // Nothing is read.
    fn new(alloc: Global) -> Done
        ensures { done_of result ≡ machine.nothing }
    {
        Done {
            structs: Items::new(alloc),
            funs: Items::new(alloc),
        }
    }

    // Behind a struct more.
    fn with_struct(mut self, name: Name, members: Items<CDecl>) -> Result<Phase, Memory>
        ensures { IfOk result (λ s. state_of s ≡ machine.Between (machine.with_struct (done_of self) (record { name = name; members = members }))) }
    {
        let pushed = self.structs.push(CStruct { name, members });
        pushed.and(Ok(Phase::Between(self)))
    }

    // Behind a function more.
    fn with_function(mut self, function: CFun) -> Result<Phase, Memory>
        ensures { IfOk result (λ s. state_of s ≡ machine.Between (machine.with_function (done_of self) (function_of function))) }
    {
        let pushed = self.funs.push(function);
        pushed.and(Ok(Phase::Between(self)))
    }

    // The program of these.
    fn program(self) -> CProgram
        ensures { program_of result ≡ done_of self }
    {
        let Done { structs, funs } = self;
        CProgram { structs, funs }
    }
}

/// Where in a file the reader stands: at its beginning, behind the first include line, behind the second one, or, with the structs
/// and functions before, behind one of these, in a function's head or a struct's name, in the members of a struct, behind their
/// `}`, or in a function's body; or where nothing goes on.
pub(crate) enum Phase {
    Start,
    First,
    Second,
    Between(Done),
    InHead(Done, Head),
    InMembers(Done, Name, Row),
    MembersClosed(Done, Name, Items<CDecl>),
    InBody(Done, Body),
    Failed,
}

impl Drop for Phase {
    fn drop(self) {
        match self {
            Phase::Between(done) => drop(done),
            Phase::InHead(done, head) => {
                drop(done);
                drop(head);
            }
            Phase::InMembers(done, name, row) => {
                drop(done);
                drop(name);
                drop(row);
            }
            Phase::MembersClosed(done, name, members) => {
                drop(done);
                drop(name);
                drop(members);
            }
            Phase::InBody(done, body) => {
                drop(done);
                drop(body);
            }
            Phase::Start | Phase::First | Phase::Second | Phase::Failed => (),
        }
    }
}

// A function more, where there is one.
fn with_function(done: Done, function: Option<CFun>) -> Result<Phase, Memory>
    ensures { IfOk result (λ s. state_of s ≡ machine.closed (done_of done) (option_map function_of function)) }
{
    match function {
        Some(function) => done.with_function(function),
        None => Ok(Phase::Failed),
    }
}

// Before a struct or a function.
fn before_item<'a>(alloc: Global, done: Done, symbol: Symbol<'a>) -> Result<Phase, Memory>
    ensures { IfOk result (λ s. state_of s ≡ machine.on_item (done_of done) (symbol_view symbol.entry)) }
{
    let at = Declaration::Wanted.step(alloc, symbol)?;
    Ok(Phase::InHead(done, Head::InName(at)))
}

// At the `{` of a function.
fn defined(alloc: Global, done: Done, head: Option<Signature>) -> Phase
    ensures { state_of result ≡ machine.defined (done_of done) head }
{
    match head {
        Some(head) => Phase::InBody(done, Body::Locals(head, Row::new(alloc))),
        None => Phase::Failed,
    }
}

// At the `{` of a struct.
fn members(alloc: Global, done: Done, name: Option<Name>) -> Phase
    ensures { state_of result ≡ machine.members (done_of done) name }
{
    match name {
        Some(name) => Phase::InMembers(done, name, Row::new(alloc)),
        None => Phase::Failed,
    }
}

// At the `;` of a function without a body.
fn declared(done: Done, head: Option<Signature>) -> Result<Phase, Memory>
    ensures { IfOk result (λ s. state_of s ≡ machine.declared (done_of done) head) }
{
    match head {
        Some(head) => done.with_function(head.function(None)),
        None => Ok(Phase::Failed),
    }
}

// At the `{` of a function or of a struct.
fn begun(alloc: Global, done: Done, head: Head) -> Phase
    ensures { state_of result ≡ machine.on_begin (done_of done) head }
{
    if head.is_whole() {
        defined(alloc, done, head.end())
    } else {
        members(alloc, done, head.names_struct())
    }
}

// In a function's head, or in a struct's name.
fn in_head<'a>(alloc: Global, done: Done, head: Head, symbol: Symbol<'a>) -> Result<Phase, Memory>
    ensures { IfOk result (λ s. state_of s ≡ machine.on_head (done_of done) head (symbol_view symbol.entry)) }
{
    match symbol {
        Symbol::Begin => Ok(begun(alloc, done, head)),
        Symbol::Semicolon => declared(done, head.end()),
        _ => {
            let head = head.step(alloc, symbol)?;
            Ok(Phase::InHead(done, head))
        }
    }
}

// A struct of these members, of which there is one at least.
fn structured(done: Done, name: Name, members: Items<CDecl>) -> Phase
    ensures { state_of result ≡ machine.structured (done_of done) name members }
{
    if members.len() == 0 {
        return Phase::Failed;
    }
    Phase::MembersClosed(done, name, members)
}

// At the `}` of a struct.
fn members_end(done: Done, name: Name, row: Row) -> Phase
    ensures { state_of result ≡ machine.on_members_end (done_of done) name row }
{
    if row.is_whole() {
        structured(done, name, row.declarations())
    } else {
        Phase::Failed
    }
}

// In the members of a struct.
fn in_members<'a>(
    alloc: Global,
    done: Done,
    name: Name,
    row: Row,
    symbol: Symbol<'a>,
) -> Result<Phase, Memory>
    ensures { IfOk result (λ s. state_of s ≡ machine.on_members (done_of done) name row (symbol_view symbol.entry)) }
{
    match symbol {
        Symbol::End => Ok(members_end(done, name, row)),
        _ => {
            let row = row.step(alloc, symbol)?;
            Ok(Phase::InMembers(done, name, row))
        }
    }
}

// Behind the members of a struct.
fn members_closed<'a>(
    done: Done,
    name: Name,
    members: Items<CDecl>,
    symbol: Symbol<'a>,
) -> Result<Phase, Memory>
    ensures { IfOk result (λ s. state_of s ≡ machine.on_struct (done_of done) (record { name = name; members = members }) (symbol_view symbol.entry)) }
{
    match symbol {
        Symbol::Semicolon => done.with_struct(name, members),
        _ => Ok(Phase::Failed),
    }
}

// In a function's body, or behind it.
fn in_body<'a>(alloc: Global, done: Done, body: Body, symbol: Symbol<'a>) -> Result<Phase, Memory>
    ensures { IfOk result (λ s. state_of s ≡ machine.in_body (done_of done) (bodies.body_step (body_of body) (symbol_view symbol.entry))) }
{
    let body = body.step(alloc, symbol)?;
    if body.is_closed() {
        return with_function(done, body.end());
    }
    Ok(Phase::InBody(done, body))
}

// Behind the first include line.
fn first<'a>(symbol: Symbol<'a>, later: bool) -> Phase
    ensures { state_of result ≡ machine.at machine.First (symbol_view symbol.entry) later }
{
    match symbol {
        Symbol::SecondInclude if later => Phase::Second,
        _ => Phase::Failed,
    }
}

// Behind the second include line.
fn second<'a>(alloc: Global, symbol: Symbol<'a>, later: bool) -> Result<Phase, Memory>
    ensures { IfOk result (λ s. state_of s ≡ machine.at machine.Second (symbol_view symbol.entry) later) }
{
    if later {
        before_item(alloc, Done::new(alloc), symbol)
    } else {
        Ok(Phase::Failed)
    }
}

// At the beginning.
fn start<'a>(symbol: Symbol<'a>) -> Phase
    ensures { state_of result ≡ machine.on_start (symbol_view symbol.entry) }
{
    match symbol {
        Symbol::FirstInclude => Phase::First,
        _ => Phase::Failed,
    }
}

impl Phase {
    /// One token more.
    pub(crate) fn step<'a>(self, alloc: Global, token: &Token<'a>) -> Result<Phase, Memory>
        ensures { IfOk result (λ s. state_of s ≡ machine.step (state_of self) (lexeme token.now)) }
    {
        let symbol = symbol_at(token);
        match self {
            Phase::Start => Ok(start(symbol)),
            Phase::First => Ok(first(symbol, token.later)),
            Phase::Second => second(alloc, symbol, token.later),
            Phase::Between(done) => before_item(alloc, done, symbol),
            Phase::InHead(done, head) => in_head(alloc, done, head, symbol),
            Phase::InMembers(done, name, row) => in_members(alloc, done, name, row, symbol),
            Phase::MembersClosed(done, name, members) => {
                members_closed(done, name, members, symbol)
            }
            Phase::InBody(done, body) => in_body(alloc, done, body, symbol),
            Phase::Failed => Ok(Phase::Failed),
        }
    }

    /// Whether a program may still come of where the reader stands.
    pub(crate) fn is_open(&self) -> bool
        ensures { result ≡ machine.is_open (state_of self.now) }
    {
        match self {
            Phase::InHead(_, head) => head.is_open(),
            Phase::InMembers(_, _, row) => row.is_open(),
            Phase::InBody(_, body) => body.is_open(),
            Phase::Failed => false,
            _ => true,
        }
    }

    /// The program that ends behind the last token, which is at this place, where one does.
    pub(crate) fn conclude(self, alloc: Global, place: Place) -> Result<CProgram, CFault>
        ensures { Concludes (machine.finish (state_of self)) place result }
    {
        match self {
            Phase::Second => Ok(Done::new(alloc).program()),
            Phase::Between(done) => Ok(done.program()),
            _ => Err(CFault::Text(place)),
        }
    }
}
