// Statements, and what is left to print of those that are open: no statement is printed by a call within a call.
#![tactic(auto, using(crate::proofs::Waiting::waiting_steps, std::proofs::lemmas::Grind::common_steps))]

ghost use Rattle.std.specs.Prelude.{◌≡◌, [], ◌∷◌, ◌++◌, ◌+◌, ◌<◌, ◌≤◌, length, map, codes, decimal, OnOk};
ghost use Rattle.cg_ctree.specs.Trees.{assign, branch, while, switch, call as call_of, return', to_cases, stmt_of, case_of, block_of};
ghost use Rattle.cg_ctext.specs.Printed.{line_at, test_text, stmt_text, block_text, cases_text};
ghost use Rattle.cg_ctext.specs.Waiting.{case_text, else_text, task_text, waits};

use crate::operand::{call, operand, put_path, right_side};
use crate::put::{inner_level, on_line, put, put_line, put_number};
use cg_base::{Memory, Name};
use cg_ctree::{CCase, COpnd, CPath, CRhs, CStmt};
use std::alloc::Global;

/// What is left to print, each with the level of its lines.
#[derive(Clone, Copy)]
pub(crate) enum Task<'a> {
    /// These statements.
    Statements(u8, &'a [CStmt]),
    /// These cases.
    Cases(u8, &'a [CCase]),
    /// The brace that ends a statement.
    End(u8),
    /// The brace that ends the first part of an `if`, and then its other part.
    Else(u8, &'a [CStmt]),
    /// The brace that ends a case, and its `break`.
    Break(u8),
}

// An assignment.
fn assignment(text: &mut Vec<u8>, level: u8, path: &CPath, right: &CRhs) -> Result<(), Memory>
    ensures prints { OnOk result (text.new.items ≡ text.old.items ++ stmt_text level (assign path.now right.now)) }
    ensures longer { OnOk result (length text.old.items < length text.new.items) }
{
    put_line(text, level)?;
    put_path(text, path)?;
    put(text, b" = ")?;
    right_side(text, right)?;
    put(text, b";")
}

// A call.
fn calling(text: &mut Vec<u8>, level: u8, function: &Name, operands: &[COpnd]) -> Result<(), Memory>
    ensures prints { OnOk result (text.new.items ≡ text.old.items ++ stmt_text level (call_of function.now operands.now)) }
    ensures longer { OnOk result (length text.old.items < length text.new.items) }
{
    put_line(text, level)?;
    call(text, function, operands)?;
    put(text, b";")
}

// A return.
fn returning(text: &mut Vec<u8>, level: u8, value: &COpnd) -> Result<(), Memory>
    ensures prints { OnOk result (text.new.items ≡ text.old.items ++ stmt_text level (return' value.now)) }
    ensures longer { OnOk result (length text.old.items < length text.new.items) }
{
    put_line(text, level)?;
    operand(text, b"return ", value)?;
    put(text, b";")
}

// Two tasks more, of which the second comes first.
fn push_two<'a>(tasks: &mut Vec<Task<'a>>, later: Task<'a>, next: Task<'a>) -> Result<(), Memory>
    ensures { OnOk result (tasks.new.items ≡ (tasks.old.items ++ later.entry ∷ []) ++ next.entry ∷ []) }
{
    tasks.push(later)?;
    tasks.push(next)?;
    Ok(())
}

// A line that begins so, an operand, and the parenthesis and the brace behind it; then two tasks, of which the second comes first.
fn opening<'a>(
    text: &mut Vec<u8>,
    tasks: &mut Vec<Task<'a>>,
    level: u8,
    begin: &[u8],
    tested: &COpnd,
    later: Task<'a>,
    next: Task<'a>,
) -> Result<(), Memory>
    ensures line { OnOk result (text.new.items ≡ text.old.items ++ (line_at level ++ test_text begin.now tested.now)) }
    ensures tasks { OnOk result (tasks.new.items ≡ (tasks.old.items ++ later.entry ∷ []) ++ next.entry ∷ []) }
{
    put_line(text, level)?;
    operand(text, begin, tested)?;
    put(text, b") {")?;
    push_two(tasks, later, next)
}

// The beginning of an `if`.
fn begin_if<'a>(
    text: &mut Vec<u8>,
    tasks: &mut Vec<Task<'a>>,
    level: u8,
    tested: &COpnd,
    yes: &'a [CStmt],
    no: &'a [CStmt],
) -> Result<(), Memory>
    ensures prints { OnOk result (text.new.items ++ waits tasks.new.items ≡ text.old.items ++ stmt_text level (branch tested.now (block_of yes.now) (block_of no.now)) ++ waits tasks.old.items) }
    ensures grows { OnOk result (length text.old.items + length tasks.new.items < length text.new.items + length tasks.old.items) }
{
    let next = Task::Statements(inner_level(level), yes);
    opening(
        text,
        tasks,
        level,
        b"if (",
        tested,
        Task::Else(level, no),
        next,
    )
}

// The beginning of a `while`.
fn begin_while<'a>(
    text: &mut Vec<u8>,
    tasks: &mut Vec<Task<'a>>,
    level: u8,
    tested: &COpnd,
    body: &'a [CStmt],
) -> Result<(), Memory>
    ensures prints { OnOk result (text.new.items ++ waits tasks.new.items ≡ text.old.items ++ stmt_text level (while tested.now (block_of body.now)) ++ waits tasks.old.items) }
    ensures grows { OnOk result (length text.old.items + length tasks.new.items < length text.new.items + length tasks.old.items) }
{
    let next = Task::Statements(inner_level(level), body);
    opening(
        text,
        tasks,
        level,
        b"while (",
        tested,
        Task::End(level),
        next,
    )
}

// The beginning of a `switch`.
fn begin_switch<'a>(
    text: &mut Vec<u8>,
    tasks: &mut Vec<Task<'a>>,
    level: u8,
    tested: &COpnd,
    cases: &'a [CCase],
) -> Result<(), Memory>
    ensures prints { OnOk result (text.new.items ++ waits tasks.new.items ≡ text.old.items ++ stmt_text level (switch tested.now (to_cases (map case_of cases.now))) ++ waits tasks.old.items) }
    ensures grows { OnOk result (length text.old.items + length tasks.new.items < length text.new.items + length tasks.old.items) }
{
    let next = Task::Cases(inner_level(level), cases);
    opening(
        text,
        tasks,
        level,
        b"switch (",
        tested,
        Task::End(level),
        next,
    )
}

// A statement, or the beginning of one that stays open.
fn statement<'a>(
    text: &mut Vec<u8>,
    tasks: &mut Vec<Task<'a>>,
    level: u8,
    stmt: &'a CStmt,
) -> Result<(), Memory>
    ensures prints { OnOk result (text.new.items ++ waits tasks.new.items ≡ text.old.items ++ stmt_text level (stmt_of stmt.now) ++ waits tasks.old.items) }
    ensures grows { OnOk result (length text.old.items + length tasks.new.items < length text.new.items + length tasks.old.items) }
{
    match stmt {
        CStmt::Assign(path, right) => assignment(text, level, path, right),
        CStmt::If(tested, yes, no) => begin_if(
            text,
            tasks,
            level,
            tested,
            yes.as_slice(),
            no.as_slice(),
        ),
        CStmt::While(tested, body) => begin_while(text, tasks, level, tested, body.as_slice()),
        CStmt::Switch(tested, cases) => begin_switch(text, tasks, level, tested, cases.as_slice()),
        CStmt::Call(function, operands) => calling(text, level, function, operands.as_slice()),
        CStmt::Return(value) => returning(text, level, value),
    }
}

// The first of these statements, and the others later.
fn statements<'a>(
    text: &mut Vec<u8>,
    tasks: &mut Vec<Task<'a>>,
    level: u8,
    stmts: &'a [CStmt],
) -> Result<(), Memory>
    ensures prints { OnOk result (text.new.items ++ waits tasks.new.items ≡ text.old.items ++ block_text level (block_of stmts.now) ++ waits tasks.old.items) }
    ensures grows { OnOk result (length text.old.items + length tasks.new.items ≤ length text.new.items + length tasks.old.items) }
{
    match stmts {
        [] => Ok(()),
        [stmt, rest @ ..] => {
            tasks.push(Task::Statements(level, rest))?;
            statement(text, tasks, level, stmt)
        }
    }
}

// The line that a case begins with.
fn case_line(text: &mut Vec<u8>, level: u8, number: u64) -> Result<(), Memory>
    ensures { OnOk result (text.new.items ≡ text.old.items ++ (line_at level ++ codes "case " ++ decimal number ++ codes ": {")) }
{
    put_line(text, level)?;
    put_number(text, b"case ", number, b": {")
}

// The beginning of a case.
fn begin_case<'a>(
    text: &mut Vec<u8>,
    tasks: &mut Vec<Task<'a>>,
    level: u8,
    case: &'a CCase,
) -> Result<(), Memory>
    ensures prints { OnOk result (text.new.items ++ waits tasks.new.items ≡ text.old.items ++ case_text level (case_of case.now) ++ waits tasks.old.items) }
    ensures grows { OnOk result (length text.old.items + length tasks.new.items < length text.new.items + length tasks.old.items) }
{
    case_line(text, level, case.tag)?;
    push_two(
        tasks,
        Task::Break(level),
        Task::Statements(inner_level(level), case.body.as_slice()),
    )
}

// The beginning of the first of these cases, and the others later.
fn cases<'a>(
    text: &mut Vec<u8>,
    tasks: &mut Vec<Task<'a>>,
    level: u8,
    arms: &'a [CCase],
) -> Result<(), Memory>
    ensures prints { OnOk result (text.new.items ++ waits tasks.new.items ≡ text.old.items ++ cases_text level (to_cases (map case_of arms.now)) ++ waits tasks.old.items) }
    ensures grows { OnOk result (length text.old.items + length tasks.new.items ≤ length text.new.items + length tasks.old.items) }
{
    match arms {
        [] => Ok(()),
        [case, rest @ ..] => {
            tasks.push(Task::Cases(level, rest))?;
            begin_case(text, tasks, level, case)
        }
    }
}

// The brace that ends the first part of an `if`, and the other part later.
fn begin_else<'a>(
    text: &mut Vec<u8>,
    tasks: &mut Vec<Task<'a>>,
    level: u8,
    stmts: &'a [CStmt],
) -> Result<(), Memory>
    ensures prints { OnOk result (text.new.items ++ waits tasks.new.items ≡ text.old.items ++ else_text level (block_of stmts.now) ++ waits tasks.old.items) }
    ensures grows { OnOk result (length text.old.items + length tasks.new.items ≤ length text.new.items + length tasks.old.items) }
{
    on_line(text, level, b"} else {")?;
    push_two(
        tasks,
        Task::End(level),
        Task::Statements(inner_level(level), stmts),
    )
}

// The first part of what is left, which may leave more.
fn step<'a>(text: &mut Vec<u8>, tasks: &mut Vec<Task<'a>>, task: Task<'a>) -> Result<(), Memory>
    ensures prints { OnOk result (text.new.items ++ waits tasks.new.items ≡ text.old.items ++ task_text task.entry ++ waits tasks.old.items) }
    ensures grows { OnOk result (length text.old.items + length tasks.new.items ≤ length text.new.items + length tasks.old.items) }
{
    match task {
        Task::Statements(level, stmts) => statements(text, tasks, level, stmts),
        Task::Cases(level, arms) => cases(text, tasks, level, arms),
        Task::End(level) => on_line(text, level, b"}"),
        Task::Else(level, stmts) => begin_else(text, tasks, level, stmts),
        Task::Break(level) => on_line(text, level, b"} break;"),
    }
}

/// The statements of a body.
pub(crate) fn body_statements(
    alloc: Global,
    text: &mut Vec<u8>,
    stmts: &[CStmt],
) -> Result<(), Memory>
    ensures { OnOk result (text.new.items ≡ text.old.items ++ block_text 1 (block_of stmts.now)) }
{
    let mut tasks = Vec::new(alloc);
    tasks.push(Task::Statements(1, stmts))?;
    while let Some(task) = tasks.pop() {
        step(text, &mut tasks, task)?;
    }
    Ok(())
}
