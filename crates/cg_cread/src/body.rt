// Reading the bodies of functions, one symbol at a time, with what is open in a stack.
ghost use Rattle.std.specs.Prelude.{◌≡◌, IfOk};
ghost use Rattle.std.specs.Option.{option_map};
ghost use Rattle.cg_ctree.specs.Trees.{stmt_of, function_of};
ghost use Rattle.cg_cread_parts.specs.Views.{symbol_view};
ghost use Rattle.cg_cread.specs.Bodies as machine;
ghost use Rattle.cg_cread.specs.Views.{level_of, opened_of, gap_of, nest_of, body_of};

use crate::block::{Arms, Frame, Level, Opened, Stack};
use crate::gap::Gap;
use cg_base::{Items, Memory};
use cg_cread_parts::{Row, Signature, Symbol};
use cg_cread_pieces::{Line, Test};
use cg_ctree::{CBody, CCase, CDecl, CFun, COpnd, CStmt};
use std::alloc::Global;

/// A function as it is read: its head, its locals, what is open, and the block that is read.
pub(crate) struct Nest {
    pub(crate) head: Signature,
    pub(crate) locals: Items<CDecl>,
    pub(crate) frames: Stack<Frame>,
    pub(crate) level: Level,
}

impl Drop for Nest {
    fn drop(self) {
        let Nest {
            head,
            locals,
            frames,
            level,
        } = self;
        drop(head);
        drop(locals);
        drop(frames);
        drop(level);
    }
}

/// Where in a function's body the reader stands: in the locals or before the first statement; before a further statement or the end
/// of a block; in a statement up to its `;` or `{`; between the blocks of one; behind the body; or where nothing goes on. In a
/// statement it is said how many may be open in its blocks.
pub(crate) enum Body {
    Locals(Signature, Row),
    Statements(Nest),
    InLine(u32, Nest, Line),
    InGap(u32, Nest, Gap),
    Closed(CFun),
    Stuck,
}

impl Drop for Body {
    fn drop(self) {
        match self {
            Body::Locals(head, row) => {
                drop(head);
                drop(row);
            }
            Body::Statements(nest) => drop(nest),
            Body::InLine(_, nest, line) => {
                drop(nest);
                drop(line);
            }
            Body::InGap(_, nest, gap) => {
                drop(nest);
                drop(gap);
            }
            Body::Closed(function) => drop(function),
            Body::Stuck => (),
        }
    }
}

impl Nest {
    // A function of which the head and the locals are read.
    fn new(alloc: Global, head: Signature, locals: Items<CDecl>) -> Nest
        ensures { nest_of result ≡ machine.nest head locals }
    {
        Nest {
            head,
            locals,
            frames: Stack::new(alloc),
            level: Level {
                room: 4096,
                stmts: Items::new(alloc),
            },
        }
    }

    // The function that is read.
    fn function(self) -> CFun
        ensures { function_of result ≡ machine.function_at (nest_of self) }
    {
        let Nest {
            head,
            locals,
            frames,
            level,
        } = self;
        drop(frames);
        let stmts = level.statements();
        head.function(Some(CBody { locals, stmts }))
    }

    // Behind a statement more in the block that is read.
    fn with_statement(mut self, statement: CStmt) -> Result<Body, Memory>
        ensures { IfOk result (λ m. body_of m ≡ machine.Statements (machine.with_statement (nest_of self) (stmt_of statement))) }
    {
        self.level.stmts.push(statement)?;
        Ok(Body::Statements(self))
    }

    // At the beginning of a block more, in which so many statements may be open.
    fn opening(self, alloc: Global, room: u32, opened: Opened) -> Result<Body, Memory>
        ensures { IfOk result (λ m. body_of m ≡ machine.Statements (machine.opening room (nest_of self) (opened_of opened))) }
    {
        let Nest {
            head,
            locals,
            mut frames,
            level,
        } = self;
        let pushed = frames.push(Frame {
            opened,
            around: level,
        });
        let stmts = Items::new(alloc);
        pushed.and(Ok(Body::Statements(Nest {
            head,
            locals,
            frames,
            level: Level { room, stmts },
        })))
    }

    // The block that is read, and all with the block round it in its place.
    fn within(self, around: Level) -> (Level, Nest)
        ensures level { level_of result.0 ≡ (nest_of self).level }
        ensures nest { nest_of result.1 ≡ record (nest_of self) { level = level_of around } }
    {
        let Nest {
            head,
            locals,
            frames,
            level,
        } = self;
        let nest = Nest {
            head,
            locals,
            frames,
            level: around,
        };
        (level, nest)
    }
}

// Behind a statement, where there is one.
fn ended(nest: Nest, statement: Option<CStmt>) -> Result<Body, Memory>
    ensures { IfOk result (λ m. body_of m ≡ machine.ended (nest_of nest) (option_map stmt_of statement)) }
{
    match statement {
        Some(statement) => nest.with_statement(statement),
        None => Ok(Body::Stuck),
    }
}

// Behind the `{` of a block, where there is one.
fn opened(alloc: Global, room: u32, nest: Nest, opened: Option<Opened>) -> Result<Body, Memory>
    ensures { IfOk result (λ m. body_of m ≡ machine.opened room (nest_of nest) (option_map opened_of opened)) }
{
    match opened {
        Some(opened) => nest.opening(alloc, room, opened),
        None => Ok(Body::Stuck),
    }
}

// Behind a test and its `{`.
fn on_test(alloc: Global, room: u32, nest: Nest, test: Test, operand: COpnd) -> Result<Body, Memory>
    ensures { IfOk result (λ m. body_of m ≡ machine.on_test room (nest_of nest) test operand) }
{
    match test {
        Test::If => nest.opening(alloc, room, Opened::Yes(operand)),
        Test::While => nest.opening(alloc, room, Opened::Loop(operand)),
        Test::Switch => {
            let arms = Arms::new(alloc, operand);
            Ok(Body::InGap(room, nest, Gap::CaseWanted(arms)))
        }
    }
}

// Behind a test and its `{`, where there is one.
fn tested(alloc: Global, room: u32, nest: Nest, test: Option<(Test, COpnd)>) -> Result<Body, Memory>
    ensures { IfOk result (λ m. body_of m ≡ machine.tested room (nest_of nest) test) }
{
    match test {
        Some((test, operand)) => on_test(alloc, room, nest, test, operand),
        None => Ok(Body::Stuck),
    }
}

// In a statement, up to its `;` or `{`.
fn on_line<'a>(
    alloc: Global,
    room: u32,
    nest: Nest,
    line: Line,
    symbol: Symbol<'a>,
) -> Result<Body, Memory>
    ensures { IfOk result (λ m. body_of m ≡ machine.on_line room (nest_of nest) line (symbol_view symbol.entry)) }
{
    match symbol {
        Symbol::Semicolon => ended(nest, line.end()),
        Symbol::Begin => tested(alloc, room, nest, line.test()),
        _ => {
            let line = line.step(alloc, symbol)?;
            Ok(Body::InLine(room, nest, line))
        }
    }
}

// Between the blocks of a statement.
fn on_gap<'a>(
    alloc: Global,
    room: u32,
    nest: Nest,
    gap: Gap,
    symbol: Symbol<'a>,
) -> Result<Body, Memory>
    ensures { IfOk result (λ m. body_of m ≡ machine.on_gap room (nest_of nest) (gap_of gap) (symbol_view symbol.entry)) }
{
    match symbol {
        Symbol::Begin => opened(alloc, room, nest, gap.opens()),
        Symbol::End => ended(nest, gap.end()),
        _ => {
            let gap = gap.step(symbol)?;
            Ok(Body::InGap(room, nest, gap))
        }
    }
}

impl Opened {
    // Behind a block, with the one round it.
    fn closes(self, level: Level, nest: Nest) -> Result<Body, Memory>
        ensures { IfOk result (λ m. body_of m ≡ machine.closes (level_of level) (nest_of nest) (opened_of self)) }
    {
        let room = level.room;
        let stmts = level.statements();
        match self {
            Opened::Yes(operand) => Ok(Body::InGap(room, nest, Gap::BehindYes(operand, stmts))),
            Opened::No(operand, yes) => nest.with_statement(CStmt::If(operand, yes, stmts)),
            Opened::Loop(operand) => nest.with_statement(CStmt::While(operand, stmts)),
            Opened::Case(arms, tag) => {
                let case = CCase { tag, body: stmts };
                Ok(Body::InGap(room, nest, Gap::CaseClosed(arms, case)))
            }
        }
    }
}

// The end of a block, or of the body where none is open.
fn on_end(mut nest: Nest) -> Result<Body, Memory>
    ensures { IfOk result (λ m. body_of m ≡ machine.on_end (nest_of nest) (nest_of nest).frames) }
{
    match nest.frames.pop() {
        Some(frame) => {
            let (opened, around) = frame.parts();
            let (level, nest) = nest.within(around);
            opened.closes(level, nest)
        }
        None => Ok(Body::Closed(nest.function())),
    }
}

// A statement begins, where one more may be open.
fn on_statement<'a>(alloc: Global, nest: Nest, symbol: Symbol<'a>) -> Result<Body, Memory>
    ensures { IfOk result (λ m. body_of m ≡ machine.on_statement (nest_of nest) (symbol_view symbol.entry)) }
{
    if nest.level.room == 0 {
        return Ok(Body::Stuck);
    }
    let room = nest.level.room - 1;
    let line = Line::begin(alloc, symbol)?;
    Ok(Body::InLine(room, nest, line))
}

// Before a statement or the end of a block.
fn on_statements<'a>(alloc: Global, nest: Nest, symbol: Symbol<'a>) -> Result<Body, Memory>
    ensures { IfOk result (λ m. body_of m ≡ machine.on_statements (nest_of nest) (symbol_view symbol.entry)) }
{
    match symbol {
        Symbol::End => on_end(nest),
        _ => on_statement(alloc, nest, symbol),
    }
}

// In the locals, or before the first statement.
fn on_locals<'a>(
    alloc: Global,
    head: Signature,
    row: Row,
    symbol: Symbol<'a>,
) -> Result<Body, Memory>
    ensures { IfOk result (λ m. body_of m ≡ machine.on_locals head row (symbol_view symbol.entry)) }
{
    if row.is_whole() && !symbol.is_type() {
        let nest = Nest::new(alloc, head, row.declarations());
        return on_statements(alloc, nest, symbol);
    }
    let row = row.step(alloc, symbol)?;
    Ok(Body::Locals(head, row))
}

impl Body {
    /// One symbol more of a body.
    pub(crate) fn step<'a>(self, alloc: Global, symbol: Symbol<'a>) -> Result<Body, Memory>
        ensures { IfOk result (λ m. body_of m ≡ machine.body_step (body_of self) (symbol_view symbol.entry)) }
    {
        match self {
            Body::Locals(head, row) => on_locals(alloc, head, row, symbol),
            Body::Statements(nest) => on_statements(alloc, nest, symbol),
            Body::InLine(room, nest, line) => on_line(alloc, room, nest, line, symbol),
            Body::InGap(room, nest, gap) => on_gap(alloc, room, nest, gap, symbol),
            Body::Closed(_) | Body::Stuck => Ok(Body::Stuck),
        }
    }

    /// The function whose body ends there, where one does.
    pub(crate) fn end(self) -> Option<CFun>
        ensures { option_map function_of result ≡ machine.body_end (body_of self) }
    {
        match self {
            Body::Closed(function) => Some(function),
            _ => None,
        }
    }

    /// Whether a body has its end there.
    pub(crate) fn is_closed(&self) -> bool
        ensures { result ≡ machine.body_is_closed (body_of self.now) }
    {
        matches!(self, Body::Closed(_))
    }

    /// Whether a body may still come of it.
    pub(crate) fn is_open(&self) -> bool
        ensures { result ≡ machine.body_is_open (body_of self.now) }
    {
        match self {
            Body::Locals(_, row) => row.is_open(),
            Body::Statements(_) => true,
            Body::InLine(_, _, line) => line.is_open(),
            Body::InGap(_, _, gap) => gap.is_open(),
            Body::Closed(_) | Body::Stuck => false,
        }
    }
}
