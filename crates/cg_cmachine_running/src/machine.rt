// The machine's state.
use cg_base::Name;
use cg_cmachine_builtins::Changes;
use cg_cmachine_layout::Kind;
use cg_cmachine_resolve::{Position, Resolved};
use cg_cmachine_values::CValue;
use cg_heap::Scalar;

/// What is run, and with how many steps at most. The program lives for `'a`, its resolved form for `'i`.
#[derive(Clone, Copy)]
pub struct Run<'i, 'a> {
    pub program: &'i Resolved<'a>,
    pub budget: u64,
}

/// A call of a function: where its next statement stands, its type, and the slots of its variables.
#[derive(Drop)]
pub struct Frame<'a> {
    pub at: Position,
    pub kind: Kind<'a>,
    pub slots: Vec<Scalar>,
}

/// What waits for the end of the statements at hand.
#[derive(Drop)]
pub enum Kont<'a> {
    /// The statements from a place of the same call on are next: the block, and the index in it.
    After(usize, usize),
    /// The call of the caller, which stands at the statement that called: what the function returns goes there.
    Return(Frame<'a>),
}

/// The call that runs, what waits, the innermost last, the steps that are left, and the cells that were made and freed.
#[derive(Drop)]
pub struct Machine<'a> {
    pub frame: Frame<'a>,
    pub stack: Vec<Kont<'a>>,
    pub left: u64,
    pub changes: Changes,
}

/// How a step ends: the statements go on, the function returns a value, or the statement at hand asks an abstract function, the one
/// that the program's function at a place is, by its name.
#[derive(Drop)]
pub enum Next<'a> {
    Goes,
    Back(CValue<'a>),
    Ask(usize, &'a Name, Vec<CValue<'a>>),
}
