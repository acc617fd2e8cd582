//! Stage: heaps. Whether the argument of a heap file fits a type, which cells it reads, and which numbers pass their types.
//! Role: part of `cg_heaptext`.
//! Promises: `judge` answers H4, H6 and the part of H5 that is about types, exactly.
//! May cite: anything below it, of its stage and of those below; no crate above.
//! docs/LANGUAGE.md, "Heap files", says how a value is read, and what H4, H5 and H6 are.
#![tactic(auto)]

mod reading;
mod top;

pub use top::judge;
