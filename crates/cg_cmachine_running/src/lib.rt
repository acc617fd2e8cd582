//! Stage: C. The state of the machine of the C subset, and its steps.
//! Role: part of `cg_cmachine`.
//! Promises: `step`, `land` and `back` go on with what is to come of a state (`Machine.said`), exactly; `begin`, `gather` enter functions.
//! May cite: anything below it, of its stage and of those below; no crate above.
//! What waits on the machine's stack stands for what is done once the statements at hand are done.
#![tactic(auto)]

mod calls;
mod machine;
mod running;
mod statements;

pub use calls::{begin, gather};
pub use machine::{Frame, Kont, Machine, Next, Run};
pub use running::{back, land, step};
