//! Stage: heaps. Whether what stands in a tuple, a record or a cell is as many values, or has the names, that a type asks for.
//! Role: part of `cg_heaptext`.
//! Promises: `have_names` and `are_as_many` answer exactly; `most_of` is the greatest number of a word.
//! May cite: anything below it, of its stage and of those below; no crate above.
//! docs/LANGUAGE.md, "Heap files", says what a type asks for.
#![tactic(auto)]

mod parts;
mod words;

pub use parts::{are_as_many, have_names};
pub use words::most_of;
