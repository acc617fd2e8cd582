//! Stage: tests. Tests of the reader of heap files.
//! Role: tests.
//! Promises: nothing: tests alone.
//! May cite: all crates; no crate but tests cites it.
#![tactic(auto)]

#[cfg(test)]
mod cells;
#[cfg(test)]
mod entries;
#[cfg(test)]
mod heap;
#[cfg(test)]
mod index;
#[cfg(test)]
mod read;
#[cfg(test)]
mod scalars;
#[cfg(test)]
mod values;
