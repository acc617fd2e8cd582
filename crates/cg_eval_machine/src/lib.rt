//! Stage: evaluation. The stack of the evaluator: its frames, what a value does to a frame, and calls.
//! Role: part of `cg_eval`.
//! Promises: `Machine`, `Frame`, `apply`, `descend` and `fields` go on with just what the definition says is still to come.
//! May cite: anything below it, of its stage and of those below; no crate above.
#![tactic(auto)]

mod calls;
mod frame;
mod halt;
mod machine;

pub use calls::apply;
pub use frame::Frame;
pub use halt::Halt;
pub use machine::{Focus, Machine, descend, fields};
