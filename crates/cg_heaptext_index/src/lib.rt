//! Stage: heaps. Which entry of a heap file has an address, and whether one has the address of an earlier one.
//! Role: part of `cg_heaptext`.
//! Promises: `addresses` answers H2 exactly, and `Addresses` finds the entry of each address.
//! May cite: anything below it, of its stage and of those below; no crate above.
//! docs/LANGUAGE.md, "Heap files", says what an address is, and what H2 is.
#![tactic(auto)]

mod fault;
mod map;
mod pass;

pub use fault::AddressFault;
pub use map::Addresses;
pub use pass::addresses;
