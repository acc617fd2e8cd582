//! Stage: C. The C of nodes, of their lowered parts.
//! Role: part of `cg_lower`.
//! Promises: `Lowering` and a call for each form (`called`, `choose`, `put` and so on) add just what the node adds (`specs/Grown.antt`).
//! May cite: anything below it, of its stage and of those below; no crate above.
//! docs/LANGUAGE.md, "The C of instances", says it in words.
#![tactic(auto)]

mod nodes;
mod parts;
mod place;
mod state;

pub use nodes::{
    called, cast, choose, filled, injected, operated_both, operated_once, put, read, read_at,
    tagged,
};
pub use parts::{alternative_place, field_at, word_of};
pub use place::Place;
pub use state::{Lowering, assign};
