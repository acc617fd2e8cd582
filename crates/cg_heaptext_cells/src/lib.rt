//! Stage: heaps. What stands in one cell of a heap file, where no type is known.
//! Role: part of `cg_heaptext`.
//! Promises: `form`, `answers`, `elements` and `loose_slots` answer exactly, wherever a cell of theirs stands; `number` what digits spell.
//! May cite: anything below it, of its stage and of those below; no crate above.
//! docs/LANGUAGE.md, "Heap files", says what is spelled.
#![tactic(auto)]

mod allocator;
mod array;
mod cell;
mod list;
mod numbers;
mod pieces;
mod slots;

pub use allocator::answers;
pub use array::elements;
pub use cell::{CellForm, form};
pub use numbers::{Elements, number};
pub use slots::{Loose, loose_slots};
