//! Stage: evaluation. What evaluation does on values alone: literals, operators, positions of fields, turns of iterators.
//! Role: part of `cg_eval`.
//! Promises: `literal`, `operated`, `operated_both`, `position`, `first_turn`, `next_turn`, `asked`, `ended` and so on, each exactly.
//! May cite: anything below it, of its stage and of those below; no crate above.
//! docs/LANGUAGE.md, "Evaluation", says the lines.
#![tactic(auto)]

mod operators;
mod parts;
mod turns;

pub use operators::{literal, operated, operated_both, truth};
pub use parts::{alternative, position, variable};
pub use turns::{
    Turns, asked, carried, changed, ended, first_index, first_turn, is_iterator, next_turn,
    started, stops,
};
