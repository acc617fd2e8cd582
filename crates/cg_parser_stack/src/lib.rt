//! Stage: reading. What is open where a text is read: a stack for each reader, as deep as parentheses lie in each other.
//! Role: part of `cg_parser`.
//! Promises: `Stack` is a list with the innermost first.
//! May cite: anything below it, of its stage and of those below; no crate above.
#![tactic(auto)]

ghost use Rattle.std.specs.Prelude.{◌≡◌, [], ◌∷◌, reverse, OnOk, MatchOption};
ghost use Rattle.cg_parser_stack.specs.Stacks.{none_open};

use cg_base::Memory;
use smallvec::SmallVec;
use std::alloc::Global;
use std::default::MadeWith;
use std::marker::Model;

/// A stack, which contracts see as the list of what lies on it, the innermost first. Up to 16 items take no memory of their own.
pub struct Stack<T> {
    items: SmallVec<T, 16>,
}

impl<T> Model for Stack<T> {
    ghost use Rattle.std.specs.Prelude.{List, reverse};

    ghost Value = { List T };

    ghost view = { λ stack. reverse stack.items.items };
}

impl<T: Drop> Drop for Stack<T> {
    fn drop(self) {
        let Stack { items } = self;
        drop(items);
    }
}

impl<T: MadeWith<Global> + Drop> Stack<T> {
    /// A stack with nothing on it. It takes no memory.
    pub fn new(alloc: Global) -> Stack<T>
        ensures { result ≡ [] }
    {
        Stack {
            items: SmallVec::new(alloc),
        }
    }

    /// Lays an item on top. Want of memory is its one refusal.
    pub fn push(&mut self, item: T) -> Result<(), Memory>
        ensures { OnOk result (self.new ≡ item ∷ self.old) }
    {
        self.items.push(item)?;
        Ok(())
    }

    /// Takes the item on top off; None exactly where there is none.
    pub fn pop(&mut self) -> Option<T>
        ensures { MatchOption result ((self.old ≡ []) × (self.new ≡ [])) (λ item. self.old ≡ item ∷ self.new) }
    {
        self.items.pop()
    }

    /// Whether nothing lies on it.
    pub fn is_empty(&self) -> bool
        ensures { result ≡ none_open self.now }
    {
        self.items.is_empty()
    }

    /// What lies on it, the outermost first.
    pub fn as_slice(&self) -> &[T]
        ensures { result.now ≡ reverse self.now }
    {
        self.items.as_slice()
    }
}
