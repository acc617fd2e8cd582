// Reading statements up to their `;`, or up to the `{` behind a test, one symbol at a time.
ghost use Rattle.std.specs.Prelude.{◌≡◌, ◌++◌, ◌∷◌, [], IfOk};
ghost use Rattle.std.specs.Option.{option_map};
ghost use Rattle.cg_ctree.specs.Trees.{stmt_of};
ghost use Rattle.cg_cread_pieces.specs.Lines as machine;
ghost use Rattle.cg_cread_parts.specs.Views.{symbol_view};

use crate::right::Right;
use cg_base::{Items, Memory, Name};
use cg_cread_parts::{Keyword, Operand, Symbol, path_name};
use cg_ctree::{COpnd, CPath, CStmt};
use std::alloc::Global;

/// What tests an operand.
#[derive(Clone, Copy)]
pub enum Test {
    If,
    While,
    Switch,
}

/// What an operand is to a statement: the path at its beginning, what is returned, an argument behind others, or what is tested.
pub enum Role {
    Target,
    Returned,
    Argument(Name, Items<COpnd>),
    Tested(Test),
}

impl Drop for Role {
    fn drop(self) {
        match self {
            Role::Argument(name, arguments) => {
                drop(name);
                drop(arguments);
            }
            Role::Target | Role::Returned | Role::Tested(_) => (),
        }
    }
}

/// Where in a statement the reader stands: in an operand; in the right side of an assignment; behind the `(` of a call or behind
/// its `)`; behind the word of a test or behind its `)`; or where nothing goes on.
pub enum Line {
    InOperand(Role, Operand),
    Assigned(CPath, Right),
    CallOpened(Name),
    CallClosed(Name, Items<COpnd>),
    TestRead(Test),
    TestClosed(Test, COpnd),
    Stuck,
}

impl Drop for Line {
    fn drop(self) {
        match self {
            Line::InOperand(role, operand) => {
                drop(role);
                drop(operand);
            }
            Line::Assigned(path, right) => {
                drop(path);
                drop(right);
            }
            Line::CallOpened(name) => drop(name),
            Line::CallClosed(name, arguments) => {
                drop(name);
                drop(arguments);
            }
            Line::TestClosed(_, operand) => drop(operand),
            Line::TestRead(_) | Line::Stuck => (),
        }
    }
}

// Behind the path that begins a statement.
fn on_target<'a>(alloc: Global, path: CPath, symbol: Symbol<'a>) -> Result<Line, Memory>
    ensures { IfOk result (λ m. m ≡ machine.on_target path (symbol_view symbol.entry)) }
{
    match symbol {
        Symbol::Equals => Ok(Line::Assigned(path, Right::Wanted)),
        Symbol::Opening => match path_name(alloc, &path)? {
            Some(name) => Ok(Line::CallOpened(name)),
            None => Ok(Line::Stuck),
        },
        _ => Ok(Line::Stuck),
    }
}

// Behind an argument.
fn on_argument<'a>(
    function: Name,
    mut arguments: Items<COpnd>,
    operand: COpnd,
    symbol: Symbol<'a>,
) -> Result<Line, Memory>
    ensures { IfOk result (λ m. m ≡ machine.on_argument function (arguments ++ operand ∷ []) (symbol_view symbol.entry)) }
{
    arguments.push(operand)?;
    match symbol {
        Symbol::Comma => Ok(Line::InOperand(Role::Argument(function, arguments), Operand::Wanted)),
        Symbol::Closing => Ok(Line::CallClosed(function, arguments)),
        _ => Ok(Line::Stuck),
    }
}

// Behind what is tested.
fn on_tested<'a>(test: Test, operand: COpnd, symbol: Symbol<'a>) -> Line
    ensures { result ≡ machine.on_tested test operand (symbol_view symbol.entry) }
{
    match symbol {
        Symbol::Closing => Line::TestClosed(test, operand),
        _ => Line::Stuck,
    }
}

// Behind the path that begins a statement, where there is one.
fn targeted<'a>(alloc: Global, path: Option<CPath>, symbol: Symbol<'a>) -> Result<Line, Memory>
    ensures { IfOk result (λ m. m ≡ machine.targeted path (symbol_view symbol.entry)) }
{
    match path {
        Some(path) => on_target(alloc, path, symbol),
        None => Ok(Line::Stuck),
    }
}

// Behind an argument, where there is one.
fn argued<'a>(
    function: Name,
    arguments: Items<COpnd>,
    operand: Option<COpnd>,
    symbol: Symbol<'a>,
) -> Result<Line, Memory>
    ensures { IfOk result (λ m. m ≡ machine.argued function arguments operand (symbol_view symbol.entry)) }
{
    match operand {
        Some(operand) => on_argument(function, arguments, operand, symbol),
        None => Ok(Line::Stuck),
    }
}

// Behind what is tested, where there is such an operand.
fn tested<'a>(test: Test, operand: Option<COpnd>, symbol: Symbol<'a>) -> Line
    ensures { result ≡ machine.tested test operand (symbol_view symbol.entry) }
{
    match operand {
        Some(operand) => on_tested(test, operand, symbol),
        None => Line::Stuck,
    }
}

impl Role {
    // Behind an operand.
    fn filled<'a>(self, alloc: Global, operand: Operand, symbol: Symbol<'a>) -> Result<Line, Memory>
        ensures { IfOk result (λ m. m ≡ machine.filled self operand (symbol_view symbol.entry)) }
    {
        match self {
            Role::Target => targeted(alloc, operand.path(), symbol),
            Role::Returned => Ok(Line::Stuck),
            Role::Argument(function, arguments) => {
                argued(function, arguments, operand.end(), symbol)
            }
            Role::Tested(test) => Ok(tested(test, operand.end(), symbol)),
        }
    }

    // The return of an operand, where there is one.
    fn returned(self, operand: Option<COpnd>) -> Option<CStmt>
        ensures { option_map stmt_of result ≡ machine.operand_line self operand }
    {
        match self {
            Role::Returned => Some(CStmt::Return(operand?)),
            _ => None,
        }
    }
}

// In an operand.
fn in_operand<'a>(
    alloc: Global,
    role: Role,
    operand: Operand,
    symbol: Symbol<'a>,
) -> Result<Line, Memory>
    ensures { IfOk result (λ m. m ≡ machine.on_operand role operand (symbol_view symbol.entry)) }
{
    if symbol.is_part() {
        let operand = operand.step(alloc, symbol)?;
        return Ok(Line::InOperand(role, operand));
    }
    role.filled(alloc, operand, symbol)
}

// Whether an operand of this role may still come of it: at the beginning stands a path.
fn fits(role: &Role, operand: &Operand) -> bool
    ensures { result ≡ machine.fits role.now operand.now }
{
    match (role, operand) {
        (Role::Target, Operand::Number(_)) => false,
        _ => operand.is_open(),
    }
}

// Behind the `(` of a call.
fn call_opened<'a>(alloc: Global, function: Name, symbol: Symbol<'a>) -> Result<Line, Memory>
    ensures { IfOk result (λ m. m ≡ machine.on_call function (symbol_view symbol.entry)) }
{
    match symbol {
        Symbol::Closing => Ok(Line::CallClosed(function, Items::new(alloc))),
        _ => {
            let operand = Operand::Wanted.step(alloc, symbol)?;
            let role = Role::Argument(function, Items::new(alloc));
            Ok(Line::InOperand(role, operand))
        }
    }
}

// Behind the word of a test.
fn test_read<'a>(test: Test, symbol: Symbol<'a>) -> Line
    ensures { result ≡ machine.on_test test (symbol_view symbol.entry) }
{
    match symbol {
        Symbol::Opening => Line::InOperand(Role::Tested(test), Operand::Wanted),
        _ => Line::Stuck,
    }
}

impl Line {
    /// Behind the first symbol of a statement.
    pub fn begin<'a>(alloc: Global, symbol: Symbol<'a>) -> Result<Line, Memory>
        ensures { IfOk result (λ m. m ≡ machine.line_begin (symbol_view symbol.entry)) }
    {
        match symbol {
            Symbol::Name(_) => in_operand(alloc, Role::Target, Operand::Wanted, symbol),
            Symbol::Key(Keyword::Return) => Ok(Line::InOperand(Role::Returned, Operand::Wanted)),
            Symbol::Key(Keyword::If) => Ok(Line::TestRead(Test::If)),
            Symbol::Key(Keyword::While) => Ok(Line::TestRead(Test::While)),
            Symbol::Key(Keyword::Switch) => Ok(Line::TestRead(Test::Switch)),
            _ => Ok(Line::Stuck),
        }
    }

    /// One symbol more of a statement, without the `;` or `{` that ends it.
    pub fn step<'a>(self, alloc: Global, symbol: Symbol<'a>) -> Result<Line, Memory>
        ensures { IfOk result (λ m. m ≡ machine.line_step self (symbol_view symbol.entry)) }
    {
        match self {
            Line::InOperand(role, operand) => in_operand(alloc, role, operand, symbol),
            Line::Assigned(path, right) => {
                let right = right.step(alloc, symbol)?;
                Ok(Line::Assigned(path, right))
            }
            Line::CallOpened(function) => call_opened(alloc, function, symbol),
            Line::TestRead(test) => Ok(test_read(test, symbol)),
            Line::CallClosed(_, _) | Line::TestClosed(_, _) | Line::Stuck => Ok(Line::Stuck),
        }
    }

    /// The statement that a `;` ends there, where it ends one.
    pub fn end(self) -> Option<CStmt>
        ensures { option_map stmt_of result ≡ machine.line_end self }
    {
        match self {
            Line::InOperand(role, operand) => role.returned(operand.end()),
            Line::Assigned(path, right) => Some(CStmt::Assign(path, right.end()?)),
            Line::CallClosed(function, arguments) => Some(CStmt::Call(function, arguments)),
            _ => None,
        }
    }

    /// The test behind which a `{` stands, where one may.
    pub fn test(self) -> Option<(Test, COpnd)>
        ensures { result ≡ machine.line_test self }
    {
        match self {
            Line::TestClosed(test, operand) => Some((test, operand)),
            _ => None,
        }
    }

    /// Whether a statement may still come of it.
    pub fn is_open(&self) -> bool
        ensures { result ≡ machine.line_is_open self.now }
    {
        match self {
            Line::InOperand(role, operand) => fits(role, operand),
            Line::Assigned(_, right) => right.is_open(),
            Line::Stuck => false,
            _ => true,
        }
    }
}
