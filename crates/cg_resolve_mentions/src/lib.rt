//! Stage: names. Which items mention which through bodies.
//! Role: part of `cg_resolve`.
//! Promises: `mentions` gives the graph of mentions of a program, exactly as defined (`specs/Positions.antt`).
//! May cite: anything below it, of its stage and of those below; no crate above.
//! Its circles are at fault (docs/LANGUAGE.md, "Names", N3).
#![tactic(auto)]

mod exprs;
mod graph;
mod patterns;
mod positions;
mod types;

pub use graph::mentions;
