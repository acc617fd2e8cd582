//! Stage: reading. The reader of patterns, one symbol at a time.
//! Role: part of `cg_parser`.
//! Promises: `PatternReader` is the machine over patterns; laws: `patterns_are_read_exactly`, `whole_patterns_are_read_exactly`.
//! May cite: anything below it, of its stage and of those below; no crate above.
//! docs/LANGUAGE.md, "Patterns", says what is spelled.
#![tactic(auto)]

mod build;
mod built;
mod frame;
mod law;
mod mode;
mod opener;
mod reader;
mod step;

pub use built::{BuiltPattern, PatternEnd};
pub use law::{patterns_are_read_exactly, whole_patterns_are_read_exactly};
pub use reader::PatternReader;
