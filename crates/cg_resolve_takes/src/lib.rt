//! Stage: names. The first field that is taken of a type that has none of its name.
//! Role: part of `cg_resolve`.
//! Promises: `check_takes` answers the first N5 in reading order, exactly.
//! May cite: anything below it, of its stage and of those below; no crate above.
//! No written type is built, since synonyms may double: of each synonym only the head of its body is kept.
#![tactic(auto)]

mod component;
mod exprs;
mod fault;
mod head;
mod known;
mod takes;
mod types;

pub use fault::TakeFault;
pub use takes::check_takes;
