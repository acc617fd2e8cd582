//! Stage: evaluation. The library on values, for the functions that take no function.
//! Role: public.
//! Promises: `lib_value` and `lib_cost`, exactly as defined.
//! May cite: anything of its stage and of those below; no crate above.
//! docs/LANGUAGE.md, "The library", says the lines.
#![tactic(auto)]

mod library;
mod made;

pub use library::{lib_cost, lib_value};
