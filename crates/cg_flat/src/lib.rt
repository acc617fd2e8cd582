//! Stage: heaps. A store whose cells stand in one list of words.
//! Role: public.
//! Promises: `FlatStore`, of which each call tells words, spans and holes exactly.
//! May cite: anything of its stage and of those below; no crate above.
//! docs/LANGUAGE.md, "Flat stores", says which words stand for a cell, and where they stand.
#![tactic(auto)]

mod freed;
mod hole;
mod read;
mod room;
mod span;
mod store;
mod write;

pub use store::FlatStore;
