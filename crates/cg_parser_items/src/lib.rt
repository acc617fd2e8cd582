//! Stage: reading. The beginnings of items, the type variables of signatures, and items added to those before them.
//! Role: part of `cg_parser`.
//! Promises: `Phase` is where among items the reader stands; what begins an item is a step of the machine, and what adds one too.
//! May cite: anything below it, of its stage and of those below; no crate above.
#![tactic(auto)]

pub mod add;
pub mod heads;
mod kinds;
pub mod phase;
pub mod vars;
