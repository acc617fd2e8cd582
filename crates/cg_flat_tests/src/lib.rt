//! Stage: tests. Tests of a store whose cells stand in one list of words.
//! Role: tests.
//! Promises: nothing: tests alone.
//! May cite: all crates; no crate but tests cites it.
#![tactic(auto)]

#[cfg(test)]
mod row;
