//! Stage: tests. Tests of the C machine: its layouts, values, built-ins and names, and runs of a program.
//! Role: tests.
//! Promises: nothing: tests alone.
//! May cite: all crates; no crate but tests cites it.
#![tactic(auto)]

#[cfg(test)]
mod builtins;
#[cfg(test)]
mod layout;
#[cfg(test)]
mod resolved;
#[cfg(test)]
mod runs;
#[cfg(test)]
mod values;
