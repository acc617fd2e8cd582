//! Stage: instances. Types that share their parts, each once in a table.
//! Role: part of `cg_inst`.
//! Promises: `TypeTable` gives each type one place, and the type of a place.
//! May cite: anything below it, of its stage and of those below; no crate above.
//! Type arguments of instances can double with each call of a chain (docs/LANGUAGE.md, "Instances"): as trees they would have 2^i
//! nodes, in a table each call adds a few places.
#![tactic(auto)]

mod enter;
mod layers;
mod lists;
mod names;
mod rows;
mod table;
mod tree;

pub(crate) use layers::Layers;
pub(crate) use names::Names;
pub(crate) use rows::{Fact, Node, Rows};
pub use table::{TypeId, TypeTable};
