//! Stage: C. Programs of the C subset with all names resolved: slots, functions and blocks by their numbers.
//! Role: part of `cg_cmachine`.
//! Promises: `Resolved` gives what each statement does with no look-up of a name, exactly; `Line`, `Position`, `Action`.
//! May cite: anything below it, of its stage and of those below; no crate above.
//! docs/LANGUAGE.md, "The C subset", says what a name leads to.
#![tactic(auto)]

mod code;
mod index;
mod line;
mod names;
mod queue;
mod resolve;
mod scope;
mod setting;

pub use code::{Head, Position, Resolved};
pub use line::{Action, Callee, Line, Right};
