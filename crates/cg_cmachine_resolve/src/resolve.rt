// The statements of a program, resolved.
#![tactic(auto)]

ghost use Rattle.std.specs.Prelude.{◌≡◌, ◌<◌, ◌++◌, List, [], ◌∷◌, length, map, IfOk, OnOk};
ghost use Rattle.std.specs.List.{AllZip};
ghost use Rattle.cg_cmachine_layout.specs.Kinds.{layout_of};
ghost use Rattle.cg_cmachine_resolve.specs.Lines.{Does, DoesForm};
ghost use Rattle.cg_cmachine_resolve.specs.Queues.{AreLines, HasBlocks, HasBody, HasPushed, HaveJoined, IsLineOf, IsNext, block_weight, cases_weight, statement_weight, waiting};
ghost use Rattle.cg_cmachine_resolve.specs.Resolutions.{IsCode};
ghost use Rattle.cg_cmachine_resolve.specs.Variables.{scope_at};
ghost use Rattle.cg_cmachine_def.specs.Layouts.{layout};
ghost use Rattle.cg_ctree.specs.declared.tree.CStmt.{CStmt as Statement};
ghost use Rattle.cg_ctree.specs.declared.tree.CStmt.TheOpen as form;
ghost use Rattle.cg_ctree.specs.Trees.{block_of, case_of, stmt_of, to_cases};

use crate::code::Code;
use crate::names::Named;
use crate::queue::{Queue, enqueue, enqueue_cases};
use crate::scope::Variables;
use crate::setting::Setting;
use crate::{Action, Line};
use cg_base::{Memory, Name};
use cg_cmachine_layout::{Kind, Structs};
use cg_ctree::{CBody, CCase, CDecl, CFun, COpnd, CPath, CRhs, CStmt};
use std::alloc::Global;

/// An assignment.
fn assign<'a>(
    alloc: Global,
    setting: &Setting<'_, 'a>,
    path: &'a CPath,
    right: &'a CRhs,
) -> Result<Action<'a>, Memory>
    ensures { IfOk result (λ action. (blocks : List (List Statement)) → DoesForm setting.now.whole (scope_at setting.now) blocks (form.Assign path.now right.now) action) }
{
    let place = setting.place(path);
    let right = setting.right(alloc, right)?;
    Ok(Action::Assign(place, right))
}

/// A choice between two blocks.
fn branch<'a>(
    setting: &Setting<'_, 'a>,
    queue: &mut Queue<'a>,
    operand: &'a COpnd,
    yes: &'a [CStmt],
    no: &'a [CStmt],
) -> Result<Action<'a>, Memory>
    ensures does { IfOk result (DoesForm setting.now.whole (scope_at setting.now) (waiting queue.new.items) (form.If operand.now yes.now no.now)) }
    ensures joins { OnOk result (waiting queue.new.items ≡ waiting queue.old.items ++ (yes.now ∷ no.now ∷ [])) }
{
    let yes = enqueue(queue, yes)?;
    let no = enqueue(queue, no)?;
    Ok(Action::If(setting.operand(operand), yes, no))
}

/// A loop.
fn repeat<'a>(
    setting: &Setting<'_, 'a>,
    queue: &mut Queue<'a>,
    operand: &'a COpnd,
    body: &'a [CStmt],
) -> Result<Action<'a>, Memory>
    ensures does { IfOk result (DoesForm setting.now.whole (scope_at setting.now) (waiting queue.new.items) (form.While operand.now body.now)) }
    ensures joins { OnOk result (waiting queue.new.items ≡ waiting queue.old.items ++ body.now ∷ []) }
{
    let body = enqueue(queue, body)?;
    Ok(Action::While(setting.operand(operand), body))
}

/// A choice between cases.
fn switch<'a>(
    alloc: Global,
    setting: &Setting<'_, 'a>,
    queue: &mut Queue<'a>,
    operand: &'a COpnd,
    arms: &'a [CCase],
) -> Result<Action<'a>, Memory>
    ensures does { IfOk result (DoesForm setting.now.whole (scope_at setting.now) (waiting queue.new.items) (form.Switch operand.now arms.now)) }
    ensures joins { OnOk result (HaveJoined (cases_weight (to_cases (map case_of arms.now))) (waiting queue.old.items) (waiting queue.new.items)) }
{
    let cases = enqueue_cases(alloc, queue, arms)?;
    Ok(Action::Switch(setting.operand(operand), cases))
}

/// A call whose value nobody takes.
fn call<'a>(
    alloc: Global,
    setting: &Setting<'_, 'a>,
    name: &Name,
    list: &'a [COpnd],
) -> Result<Action<'a>, Memory>
    ensures { IfOk result (λ action. (blocks : List (List Statement)) → DoesForm setting.now.whole (scope_at setting.now) blocks (form.Call name.now list.now) action) }
{
    let operands = setting.operands(alloc, list)?;
    Ok(Action::Call(setting.callee(name), operands))
}

/// What a statement does.
fn action<'a>(
    alloc: Global,
    setting: &Setting<'_, 'a>,
    queue: &mut Queue<'a>,
    stmt: &'a CStmt,
) -> Result<Action<'a>, Memory>
    ensures does { IfOk result (Does setting.now.whole (scope_at setting.now) (waiting queue.new.items) stmt.now) }
    ensures joins { OnOk result (HaveJoined (statement_weight (stmt_of stmt.now)) (waiting queue.old.items) (waiting queue.new.items)) }
{
    match stmt {
        CStmt::Assign(path, right) => assign(alloc, setting, path, right),
        CStmt::If(operand, yes, no) => {
            branch(setting, queue, operand, yes.as_slice(), no.as_slice())
        }
        CStmt::While(operand, body) => repeat(setting, queue, operand, body.as_slice()),
        CStmt::Switch(operand, arms) => { switch(alloc, setting, queue, operand, arms.as_slice()) }
        CStmt::Call(name, list) => call(alloc, setting, name, list.as_slice()),
        CStmt::Return(operand) => Ok(Action::Return(setting.operand(operand))),
    }
}

/// The statements of a block.
fn block<'a>(
    alloc: Global,
    setting: &Setting<'_, 'a>,
    queue: &mut Queue<'a>,
    stmts: &'a [CStmt],
) -> Result<Vec<Line<'a>>, Memory>
    ensures lines { IfOk result (λ lines. AreLines setting.now.whole (scope_at setting.now) (waiting queue.new.items) stmts.now lines.items) }
    ensures joins { OnOk result (HaveJoined (block_weight (block_of stmts.now)) (waiting queue.old.items) (waiting queue.new.items)) }
{
    let mut lines = Vec::new(alloc);
    for stmt in stmts {
        push_line(alloc, setting, queue, &mut lines, stmt)?;
    }
    Ok(lines)
}

/// A statement joins the lines of its block.
fn push_line<'a>(
    alloc: Global,
    setting: &Setting<'_, 'a>,
    queue: &mut Queue<'a>,
    lines: &mut Vec<Line<'a>>,
    stmt: &'a CStmt,
) -> Result<(), Memory>
    ensures line { OnOk result (HasPushed (IsLineOf setting.now.whole (scope_at setting.now) (waiting queue.new.items) stmt.now) lines.old.items lines.new.items) }
    ensures joins { OnOk result (HaveJoined (statement_weight (stmt_of stmt.now)) (waiting queue.old.items) (waiting queue.new.items)) }
{
    let action = action(alloc, setting, queue, stmt)?;
    lines.push(Line {
        source: stmt,
        action,
    })?;
    Ok(())
}

/// The blocks of a body, its own first.
fn blocks<'a>(
    alloc: Global,
    setting: &Setting<'_, 'a>,
    body: &'a CBody,
) -> Result<Vec<Vec<Line<'a>>>, Memory>
    ensures { IfOk result (λ blocks. HasBlocks setting.now.whole (scope_at setting.now) body.now.stmts (map (λ lines. lines.items) blocks.items)) }
{
    let mut queue: Queue<'a> = Vec::new(alloc);
    queue.push(body.stmts.as_slice())?;
    let mut blocks = Vec::new(alloc);
    while blocks.len() < queue.len() {
        push_block(alloc, setting, &mut queue, &mut blocks)?;
    }
    Ok(blocks)
}

/// The next block joins those that are resolved.
fn push_block<'a>(
    alloc: Global,
    setting: &Setting<'_, 'a>,
    queue: &mut Queue<'a>,
    blocks: &mut Vec<Vec<Line<'a>>>,
) -> Result<(), Memory>
    requires waits { length blocks.old.items < length queue.old.items }
    ensures { OnOk result (IsNext setting.now.whole (scope_at setting.now) (waiting queue.old.items) (waiting queue.new.items) (map (λ lines. lines.items) blocks.old.items) (map (λ lines. lines.items) blocks.new.items)) }
{
    let stmts = queue[blocks.len()];
    let lines = block(alloc, setting, queue, stmts)?;
    blocks.push(lines)?;
    Ok(())
}

/// The types of declarations.
fn kinds<'a>(
    alloc: Global,
    structs: &Structs<'a>,
    decls: &'a [CDecl],
) -> Result<Vec<Kind<'a>>, Memory>
    ensures { IfOk result (λ kinds. map layout_of kinds.items ≡ map (λ d. layout structs.now d.ty) decls.now) }
{
    let mut kinds = Vec::new(alloc);
    for decl in decls {
        kinds.push(structs.kind(&decl.ty))?;
    }
    Ok(kinds)
}

/// The blocks of a function, none where it has no body.
fn blocks_of<'a>(
    alloc: Global,
    setting: &Setting<'_, 'a>,
    function: &'a CFun,
) -> Result<Vec<Vec<Line<'a>>>, Memory>
    ensures { IfOk result (λ blocks. HasBody setting.now.whole (scope_at setting.now) function.now.body (map (λ lines. lines.items) blocks.items)) }
{
    match &function.body {
        None => Ok(Vec::new(alloc)),
        Some(body) => blocks(alloc, setting, body),
    }
}

/// A function.
fn code<'a>(
    alloc: Global,
    named: &Named<'a>,
    structs: &Structs<'a>,
    function: &'a CFun,
) -> Result<Code<'a>, Memory>
    requires { structs.now ≡ named.now.program.structs }
    ensures { IfOk result (IsCode named.now function.now) }
{
    let variables = Variables::new(alloc, structs, function)?;
    let params = kinds(alloc, structs, function.params.as_slice())?;
    let setting = Setting::new(&*named, &*structs, function, &variables);
    let blocks = blocks_of(alloc, &setting, function)?;
    Ok(Code {
        kind: structs.kind(&function.ty),
        params,
        slots: variables.slots,
        has_body: function.body.is_some(),
        blocks,
    })
}

/// All functions of a program, in order.
pub(crate) fn resolve_all<'a>(alloc: Global, named: &Named<'a>) -> Result<Vec<Code<'a>>, Memory>
    ensures { IfOk result (λ codes. AllZip (IsCode named.now) named.now.program.funs codes.items) }
{
    let program = named.program();
    let functions = program.funs.as_slice();
    let structs = Structs::new(alloc, program.structs.as_slice())?;
    let mut codes = Vec::new(alloc);
    for function in functions {
        push_code(alloc, named, &structs, &mut codes, function)?;
    }
    Ok(codes)
}

/// A function joins those that are resolved.
fn push_code<'a>(
    alloc: Global,
    named: &Named<'a>,
    structs: &Structs<'a>,
    codes: &mut Vec<Code<'a>>,
    function: &'a CFun,
) -> Result<(), Memory>
    requires { structs.now ≡ named.now.program.structs }
    ensures { OnOk result (HasPushed (IsCode named.now function.now) codes.old.items codes.new.items) }
{
    let code = code(alloc, named, structs, function)?;
    codes.push(code)?;
    Ok(())
}
