//! Stage: heaps. Which addresses a heap file mentions that have no entry, or are out of range.
//! Role: part of `cg_heaptext`.
//! Promises: `judge_mentions` answers H3, and the part of H5 that is about addresses, exactly.
//! May cite: anything below it, of its stage and of those below; no crate above.
//! docs/LANGUAGE.md, "Heap files", says what H3 and H5 are.
#![tactic(auto)]

mod found;
mod pass;
mod scan;
mod step;

pub use found::Mentions;
pub use pass::judge_mentions;
