//! Stage: tests. Tests that cross crates and that a case cannot say: certificates, faults of the outside, want of memory.
//! Role: tests.
//! Promises: nothing: tests alone.
//! May cite: all crates; no crate but tests cites it.
//! An outside that fails at some calls, faults of C texts, and each call that takes memory once where there is plenty.
#![tactic(auto)]

#[cfg(test)]
mod calls;
#[cfg(test)]
mod certificates;
#[cfg(test)]
mod outside;
#[cfg(test)]
mod reading;
#[cfg(test)]
mod sources;
#[cfg(test)]
mod texts;
