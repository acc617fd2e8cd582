//! Stage: heaps. What the cells of a heap file hold.
//! Role: part of `cg_heaptext`.
//! Promises: `content_of` gives what a cell holds, and `place_cells` all cells with their addresses, exactly where they fit machine words.
//! May cite: anything below it, of its stage and of those below; no crate above.
//! docs/LANGUAGE.md, "Heap files", says what cells hold.
#![tactic(auto)]

mod content;
mod placing;

pub use content::{Content, content_of};
pub use placing::{Placed, Placing, place_cells};
