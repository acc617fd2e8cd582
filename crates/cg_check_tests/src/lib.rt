//! Stage: tests. Sources, read up to their kernels and checked, for tests of what comes behind.
//! Role: tests.
//! Promises: `kernel_in`, `checked_source`: tests alone call them.
//! May cite: all crates; no crate but tests cites it.
#![tactic(auto)]

mod sources;

pub use sources::{Refused, checked_source, kernel_in};
