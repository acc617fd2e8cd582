//! Stage: command. The lines that the commands print.
//! Role: part of `cg_driver`.
//! Promises: each line, to the byte: `usage`, the refusals, and what is said at status 0, of which `ran` has the seven lines of a run.
//! May cite: anything below it, of its stage and of those below; no crate above.
//! `specs/Lines.antt` has them (docs/LANGUAGE.md, "Commands").
#![tactic(auto)]

mod lines;
mod machined;

pub use lines::{
    abstract_reached, accepted, beyond, broken, built, fault, heap_refused, limit_name, no_entry,
    no_entry_type, ran, rechecked, step_limit, usage, wrong_byte, wrong_node,
};
pub use machined::Machined;
