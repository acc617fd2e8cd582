//! Stage: tests. Tests of lowering: its tables, nodes and library, and sources, lowered and run by the steps of their C.
//! Role: tests.
//! Promises: nothing: tests alone.
//! May cite: all crates; no crate but tests cites it.
#![tactic(auto)]

#[cfg(test)]
mod calls;
#[cfg(test)]
mod cells;
#[cfg(test)]
mod library;
#[cfg(test)]
mod nodes;
#[cfg(test)]
mod operators;
#[cfg(test)]
mod places;
#[cfg(test)]
mod runs;
#[cfg(test)]
mod sources;
#[cfg(test)]
mod structs;
