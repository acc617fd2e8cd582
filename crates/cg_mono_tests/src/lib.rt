//! Stage: tests. Tests of lists of instances, and of their copies.
//! Role: tests.
//! Promises: nothing: tests alone.
//! May cite: all crates; no crate but tests cites it.
#![tactic(auto)]

#[cfg(test)]
mod copies;
