//! Stage: tests. Tests of values, of their texts, and of the library on them.
//! Role: tests.
//! Promises: nothing: tests alone.
//! May cite: all crates; no crate but tests cites it.
#![tactic(auto)]

#[cfg(test)]
mod library;
#[cfg(test)]
mod printing;
#[cfg(test)]
mod values;
