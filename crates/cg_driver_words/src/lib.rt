//! Stage: command. The words of the command line to the command that they call for, by `clap`.
//! Role: part of `cg_driver`.
//! Promises: `read_words`, exactly as defined by lists of words alone.
//! May cite: anything below it, of its stage and of those below; no crate above.
//! docs/LANGUAGE.md, "Commands", says which words call for which command.
#![tactic(auto)]

mod app;
mod command;
mod numbers;

pub use command::{Command, read_words};
