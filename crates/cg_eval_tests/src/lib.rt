//! Stage: tests. Tests of evaluation over a table of one abstract function.
//! Role: tests.
//! Promises: nothing: tests alone.
//! May cite: all crates; no crate but tests cites it.
#![tactic(auto)]

#[cfg(test)]
mod halving;
#[cfg(test)]
mod tables;
