//! Stage: heaps. The value that the argument of a heap file stands for, at a type.
//! Role: part of `cg_heaptext`.
//! Promises: `value_at` answers exactly, wherever a value stands.
//! May cite: anything below it, of its stage and of those below; no crate above.
//! docs/LANGUAGE.md, "Heap files", says what values are at which types.
#![tactic(auto)]

mod cells;
mod plain;
mod value;

pub use value::value_at;
