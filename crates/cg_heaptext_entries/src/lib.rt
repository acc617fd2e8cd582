//! Stage: heaps. Where the entries of a heap file and its argument stand.
//! Role: part of `cg_heaptext`.
//! Promises: `read_entries` answers exactly.
//! May cite: anything below it, of its stage and of those below; no crate above.
//! docs/LANGUAGE.md, "Heap files", says what is spelled.
#![tactic(auto)]

mod entry;
mod pass;
mod skip;

pub use entry::{EntryAt, Index, Numeral};
pub use pass::read_entries;
