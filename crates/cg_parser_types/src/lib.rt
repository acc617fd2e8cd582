//! Stage: reading. The reader of types, one symbol at a time.
//! Role: part of `cg_parser`.
//! Promises: `TypeReader` is the machine over types; laws: `types_are_read_exactly`, `whole_types_are_read_exactly`.
//! May cite: anything below it, of its stage and of those below; no crate above.
//! docs/LANGUAGE.md, "Types", says what is spelled. `specs/` has the grammar, and the reader that this one is.
#![tactic(auto)]

mod build;
mod built;
mod close;
mod end;
mod frame;
mod law;
mod lists;
mod mode;
mod reader;
mod start;
mod step;
mod taking;

pub use built::BuiltType;
pub use law::{types_are_read_exactly, whole_types_are_read_exactly};
pub use reader::{TypeEnd, TypeReader};
