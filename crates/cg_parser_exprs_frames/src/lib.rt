//! Stage: reading. What is open where an expression is read, and how it is closed.
//! Role: part of `cg_parser_exprs`.
//! Promises: `Frame`, `Mode` and `Parts`; `close`, `fill` and `room` are what the machine does on frames.
//! May cite: anything below it, of its stage and of those below; no crate above.
#![tactic(auto)]

pub mod close;
pub mod frame;
pub mod levels;
pub mod readers;
pub mod room;
