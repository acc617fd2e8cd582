//! Stage: tests. Tests of orders of graphs, of the nodes of cores, and of sources that are made of a number.
//! Role: tests.
//! Promises: nothing: tests alone.
//! May cite: all crates; no crate but tests cites it.
#![tactic(auto)]

#[cfg(test)]
mod circles;
#[cfg(test)]
mod generated;
#[cfg(test)]
mod nodes;
#[cfg(test)]
mod orders;
