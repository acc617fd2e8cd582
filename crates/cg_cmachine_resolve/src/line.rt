// Statements with all names resolved.
use cg_base::{Name, Word};
use cg_cmachine_builtins::BuiltIn;
use cg_cmachine_layout::Shape;
use cg_cmachine_values::{Operand, Place};
use cg_ctree::{COp, CStmt};

/// What is called.
#[derive(Clone, Copy)]
pub enum Callee<'a> {
    /// A function that `cogent.h` declares.
    BuiltIn(BuiltIn),
    /// The function at this place of the program's list, with a body or without.
    Own(usize),
    /// No function.
    Missing,
    /// The function at this place, which has no body, is the abstract function of this name.
    Linked(usize, &'a Name),
}

/// What is assigned.
pub enum Right<'a> {
    Operand(Operand<'a>),
    Convert(Word, Operand<'a>),
    Binary(Word, Word, COp, Operand<'a>, Operand<'a>),
    Flip(Word, Word, Operand<'a>),
    IsNull(Operand<'a>),
    Call(Callee<'a>, Vec<Operand<'a>>),
    /// `cg_new`: the allocator, and the struct by its name and its slots.
    New(Operand<'a>, &'a Name, Shape<'a>),
}

impl<'a> Drop for Right<'a> {
    fn drop(self) {
        match self {
            Right::Call(_, operands) => drop(operands),
            Right::Operand(_)
            | Right::Convert(_, _)
            | Right::Binary(_, _, _, _, _)
            | Right::Flip(_, _, _)
            | Right::IsNull(_)
            | Right::New(_, _, _) => (),
        }
    }
}

/// What a statement does. Blocks are given by their numbers among those of the function.
pub enum Action<'a> {
    Assign(Place<'a>, Right<'a>),
    If(Operand<'a>, usize, usize),
    While(Operand<'a>, usize),
    /// The cases' numbers, each with its block.
    Switch(Operand<'a>, Vec<(u64, usize)>),
    Call(Callee<'a>, Vec<Operand<'a>>),
    Return(Operand<'a>),
}

impl<'a> Drop for Action<'a> {
    fn drop(self) {
        match self {
            Action::Assign(_, right) => drop(right),
            Action::Switch(_, cases) => drop(cases),
            Action::Call(_, operands) => drop(operands),
            Action::If(_, _, _) | Action::While(_, _) | Action::Return(_) => (),
        }
    }
}

/// A statement, and what it does.
pub struct Line<'a> {
    /// The statement, of which contracts speak.
    pub source: &'a CStmt,
    pub action: Action<'a>,
}

impl<'a> Drop for Line<'a> {
    fn drop(self) {
        let Line { source: _, action } = self;
        drop(action);
    }
}
