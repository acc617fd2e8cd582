//! Stage: heaps. The scalars of a written value of a heap file, at a type.
//! Role: part of `cg_heaptext`.
//! Promises: `scalars_at` and `slots_at` answer exactly, wherever a value or a cell of slots stands.
//! May cite: anything below it, of its stage and of those below; no crate above.
//! docs/LANGUAGE.md, "Heap files", says what values are at which types.
#![tactic(auto)]

mod alternative;
mod padding;
mod plain;
mod scalars;

pub use scalars::{scalars_at, slots_at};
