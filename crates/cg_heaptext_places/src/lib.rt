//! Stage: heaps. The earliest of some places of a heap file.
//! Role: part of `cg_heaptext`.
//! Promises: `earlier` and `earliest` keep the earlier place, exactly.
//! May cite: anything below it, of its stage and of those below; no crate above.
//! docs/LANGUAGE.md, "Heap files", says which place of a fault is told.
#![tactic(auto)]

mod order;

pub use order::{earlier, earliest};
