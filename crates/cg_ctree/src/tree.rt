// Programs of the C subset.
ghost use Rattle.std.specs.Prelude.{◌≡◌, ◌≤◌, []};
ghost use Rattle.cg_ctree.specs.declared.tree.CCase.{size-CCase};
ghost use Rattle.cg_ctree.specs.declared.tree.CStmt.{size-CStmt};
ghost use denote.Param.Weighed.{most};

use cg_base::{Items, Name, Word};

/// A type: an unsigned word, a struct, or a pointer to a struct.
#[derive(Drop)]
pub enum CTy {
    Word(Word),
    Struct(Name),
    Pointer(Name),
}

/// A declaration of a member, a parameter or a local.
pub struct CDecl {
    pub ty: CTy,
    pub name: Name,
}

impl Drop for CDecl {
    fn drop(self) {
        let CDecl { ty, name } = self;
        drop(ty);
        drop(name);
    }
}

/// A struct. The first of a name counts.
#[derive(Drop)]
pub struct CStruct {
    pub name: Name,
    pub members: Items<CDecl>,
}

/// A function, with a body where it is defined. The first of a name counts.
pub struct CFun {
    pub ty: CTy,
    pub name: Name,
    pub params: Items<CDecl>,
    pub body: Option<CBody>,
}

impl Drop for CFun {
    fn drop(self) {
        let CFun {
            ty,
            name,
            params,
            body,
        } = self;
        drop(ty);
        drop(name);
        drop(params);
        drop(body);
    }
}

/// A body: its locals, which begin unset, and its statements.
#[derive(Drop)]
pub struct CBody {
    pub locals: Items<CDecl>,
    pub stmts: Items<CStmt>,
}

/// A program.
#[derive(Drop)]
pub struct CProgram {
    pub structs: Items<CStruct>,
    pub funs: Items<CFun>,
}

/// A path: a variable, and members of it. The arrow stands before the first member.
pub struct CPath {
    pub base: Name,
    pub arrow: bool,
    pub members: Items<Name>,
}

impl Drop for CPath {
    fn drop(self) {
        let CPath {
            base,
            arrow: _,
            members,
        } = self;
        drop(base);
        drop(members);
    }
}

/// An operand: a number, or what stands at a path.
pub enum COpnd {
    Number(u64),
    Path(CPath),
}

impl Drop for COpnd {
    fn drop(self) {
        match self {
            COpnd::Number(_) => (),
            COpnd::Path(path) => drop(path),
        }
    }
}

/// An operation of two operands.
#[derive(Clone, Copy, Debug, PartialEq, Eq)]
pub enum COp {
    Add,
    Sub,
    Mul,
    Div,
    Rem,
    And,
    Or,
    Xor,
    Shl,
    Shr,
    Eq,
    Ne,
    Lt,
    Gt,
    Le,
    Ge,
}

/// What is assigned: an operand, `(w)o`, `(w)((v)l op (v)r)`, `(w)(~(v)o)`, `(uint8_t)(o == 0)`, a call, or
/// `cg_new(q, sizeof(struct S))`. In `Binary` and `Flip` the first word is the outer one.
pub enum CRhs {
    Opnd(COpnd),
    Conv(Word, COpnd),
    Binary(Word, Word, COp, COpnd, COpnd),
    Flip(Word, Word, COpnd),
    IsNull(COpnd),
    Call(Name, Items<COpnd>),
    New(COpnd, Name),
}

impl Drop for CRhs {
    fn drop(self) {
        match self {
            CRhs::Opnd(operand)
            | CRhs::Conv(_, operand)
            | CRhs::Flip(_, _, operand)
            | CRhs::IsNull(operand) => drop(operand),
            CRhs::Binary(_, _, _, left, right) => {
                drop(left);
                drop(right);
            }
            CRhs::Call(name, arguments) => {
                drop(name);
                drop(arguments);
            }
            CRhs::New(heap, name) => {
                drop(heap);
                drop(name);
            }
        }
    }
}

/// A statement.
#[cycle(statement)]
pub enum CStmt {
    Assign(CPath, CRhs),
    If(COpnd, Items<CStmt>, Items<CStmt>),
    While(COpnd, Items<CStmt>),
    Switch(COpnd, Items<CCase>),
    Call(Name, Items<COpnd>),
    Return(COpnd),
}

impl Drop for CStmt {
    #[cycle(statement)]
    fn drop(mut self) {
        empty(&mut self);
        match self {
            CStmt::Assign(path, right) => {
                drop(path);
                drop(right);
            }
            CStmt::If(operand, yes, no) => {
                drop(operand);
                drop(yes);
                drop(no);
            }
            CStmt::While(operand, body) => {
                drop(operand);
                drop(body);
            }
            CStmt::Switch(operand, arms) => {
                drop(operand);
                drop(arms);
            }
            CStmt::Call(name, arguments) => {
                drop(name);
                drop(arguments);
            }
            CStmt::Return(operand) => drop(operand),
        }
    }
}

// Empties the lists of a statement in place, so that its drop has no depth. A call holds no statement on the stack.
#[cycle(statement)]
fn empty(stmt: &mut CStmt)
    ensures { size-CStmt stmt.new ≤ size-CStmt stmt.old }
{
    match stmt {
        CStmt::If(_operand, yes, no) => {
            empty_list(yes);
            empty_list(no);
        }
        CStmt::While(_operand, body) => empty_list(body),
        CStmt::Switch(_operand, cases) => empty_cases(cases),
        _ => (),
    }
}

// Empties a list, the lists of its statements first.
#[cycle(statement)]
fn empty_list(list: &mut Items<CStmt>)
    ensures { list.new ≡ [] }
{
    let stmts = list.as_mut_slice();
    for i in 0..stmts.len() {
        empty(&mut stmts[i]);
    }
    clear(list);
}

// Drops the statements of a list, apart from its caller: here one of them is on the stack.
#[cycle(statement)]
#[inline(never)]
fn clear(list: &mut Items<CStmt>)
    ensures { list.new ≡ [] }
{
    while let Some(stmt) = list.pop() {
        drop(stmt);
    }
}

// Empties the lists of the cases of a switch.
#[cycle(statement)]
fn empty_cases(cases: &mut Items<CCase>)
    ensures { most size-CCase cases.new ≤ most size-CCase cases.old }
{
    let cases = cases.as_mut_slice();
    for i in 0..cases.len() {
        empty_list(&mut cases[i].body);
    }
}

/// A case of a switch: its number, and its statements.
#[cycle(statement)]
#[derive(Drop)]
pub struct CCase {
    pub tag: u64,
    pub body: Items<CStmt>,
}
