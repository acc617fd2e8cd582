//! Stage: heaps. The values of a heap file, each by where it begins.
//! Role: part of `cg_heaptext`.
//! Promises: `ValueAt` tells what a value is, exactly; `ValuesAt`, `FieldsAt` give what stands in it, one by one.
//! May cite: anything below it, of its stage and of those below; no crate above.
//! docs/LANGUAGE.md, "Heap files", says what is spelled.
#![tactic(auto)]

mod head;
mod layers;
mod list;
mod pass;
mod turn;

pub use head::{Head, ValueAt};
pub use list::{FieldAt, FieldsAt, ValuesAt, fields_of};
