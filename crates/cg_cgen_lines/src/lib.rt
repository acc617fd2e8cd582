//! Stage: C. Names, paths and statements that the C of operators, dispatch functions and iterators is written by.
//! Role: part of `cg_cgen`.
//! Promises: `numbered`, `array_name`, `path` and `arrow_path` give what is defined; `written` and its like the statements of `Line`s.
//! May cite: anything below it, of its stage and of those below; no crate above.
//! docs/LANGUAGE.md, "The C of instances", says it in words.
#![tactic(auto)]

mod lines;
mod names;
mod paths;
mod spots;

pub use lines::{Line, Right, chosen, repeated, repeated_before, written};
pub use names::{array_name, inner, numbered};
pub use paths::{Base, Step, arrow_path, path};
pub use spots::{Spot, operand};
