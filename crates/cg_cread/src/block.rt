// What is open where statements are read.
ghost use Rattle.std.specs.Prelude.{◌≡◌, [], ◌∷◌, OnOk, MatchOption};
ghost use Rattle.std.specs.Option.{option_map};
ghost use Rattle.cg_ctree.specs.Trees.{stmt_of};
ghost use Rattle.cg_cread.specs.Blocks as machine;
ghost use Rattle.cg_cread.specs.Views.{arms_of};

use cg_base::{Items, Memory};
use cg_ctree::{CCase, COpnd, CStmt};
use std::alloc::Global;
use std::marker::Model;

/// A block as it is read: how many statements may be open inside each other in it, and its statements.
pub(crate) struct Level {
    pub(crate) room: u32,
    pub(crate) stmts: Items<CStmt>,
}

impl Drop for Level {
    fn drop(self) {
        let Level { room: _, stmts } = self;
        drop(stmts);
    }
}

impl Level {
    /// The statements of a block.
    pub(crate) fn statements(self) -> Items<CStmt>
        ensures { result ≡ self.stmts }
    {
        let Level { room: _, stmts } = self;
        stmts
    }
}

/// A `switch` as it is read: its operand and its cases.
pub(crate) struct Arms {
    pub(crate) operand: COpnd,
    pub(crate) cases: Items<CCase>,
}

impl Drop for Arms {
    fn drop(self) {
        let Arms { operand, cases } = self;
        drop(operand);
        drop(cases);
    }
}

impl Arms {
    /// A `switch` without a case.
    pub(crate) fn new(alloc: Global, operand: COpnd) -> Arms
        ensures { arms_of result ≡ machine.no_case operand }
    {
        Arms {
            operand,
            cases: Items::new(alloc),
        }
    }

    /// The statement of these cases, where there is one.
    pub(crate) fn statement(self) -> Option<CStmt>
        ensures { option_map stmt_of result ≡ machine.switched (arms_of self).operand (arms_of self).cases }
    {
        let Arms { operand, cases } = self;
        if cases.len() == 0 {
            return None;
        }
        Some(CStmt::Switch(operand, cases))
    }
}

/// What a block belongs to: the first part of an `if`; the second one, behind the statements of the first; a `while`; or a case of
/// a `switch`, with its number.
#[derive(Drop)]
pub(crate) enum Opened {
    Yes(COpnd),
    No(COpnd, Items<CStmt>),
    Loop(COpnd),
    Case(Arms, u64),
}

/// An open statement, with the block that it stands in.
pub(crate) struct Frame {
    pub(crate) opened: Opened,
    pub(crate) around: Level,
}

impl Drop for Frame {
    fn drop(self) {
        let Frame { opened, around } = self;
        drop(opened);
        drop(around);
    }
}

impl Frame {
    /// What it is of, and the block round it.
    pub(crate) fn parts(self) -> (Opened, Level)
        ensures opened { result.0 ≡ self.opened }
        ensures around { result.1 ≡ self.around }
    {
        let Frame { opened, around } = self;
        (opened, around)
    }
}

/// What is open, which contracts see as a list, the innermost first.
pub(crate) struct Stack<T> {
    items: Vec<T>,
}

impl<T> Model for Stack<T> {
    ghost use Rattle.std.specs.Prelude.{List, reverse};
    ghost use Rattle.std.specs.Coded.{coded_list};

    ghost Value = { List T };

    ghost coded = { coded_list T.code };

    ghost view = { λ stack. reverse stack.items.items };
}

impl<T: Drop> Drop for Stack<T> {
    fn drop(self) {
        let Stack { items } = self;
        drop(items);
    }
}

impl<T: Drop> Stack<T> {
    /// Nothing is open.
    pub(crate) fn new(alloc: Global) -> Stack<T>
        ensures { result ≡ [] }
    {
        Stack {
            items: Vec::new(alloc),
        }
    }

    /// One more is open.
    pub(crate) fn push(&mut self, item: T) -> Result<(), Memory>
        ensures { OnOk result (self.new ≡ item ∷ self.old) }
    {
        self.items.push(item)?;
        Ok(())
    }

    /// Takes the innermost off; None exactly where nothing is open.
    pub(crate) fn pop(&mut self) -> Option<T>
        ensures { MatchOption result ((self.old ≡ []) × (self.new ≡ [])) (λ item. self.old ≡ item ∷ self.new) }
    {
        self.items.pop()
    }
}
