//! Stage: tests. Tests of stores, of values that are read out of them, of what they reach, and of the library on them.
//! Role: tests.
//! Promises: `agrees`: tests alone call it.
//! May cite: all crates; no crate but tests cites it.
#![tactic(auto)]

#[cfg(test)]
mod cells;
#[cfg(test)]
mod library;
mod random;
#[cfg(test)]
mod reach;
#[cfg(test)]
mod read;

pub use random::agrees;
