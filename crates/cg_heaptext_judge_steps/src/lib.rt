//! Stage: heaps. What is met in one value of a heap file or in one cell at a type, without what stands in it.
//! Role: part of `cg_heaptext`.
//! Promises: each function notes or tells exactly what the definition says of the value or the cell.
//! May cite: anything below it, of its stage and of those below; no crate above.
//! docs/LANGUAGE.md, "Heap files", says what is met.
#![tactic(auto)]

mod array;
mod cell;
mod constant;
mod library;
mod mention;
mod plain;
mod record;
mod source;

pub use cell::{is_record, misfit_cell};
pub use constant::judge_constant;
pub use library::judge_library;
pub use mention::mentioned;
pub use plain::{judge_gone, judge_truth, judge_unit, judge_word, misfit};
pub use record::fits_record;
pub use source::Source;
