//! Stage: heaps. The cells of a heap file without faults can be put into a store.
//! Role: laws.
//! Promises: `texts_can_be_placed`.
//! May cite: definitions, laws and public crates below; no code above.
//! docs/LANGUAGE.md, "Heap files", says what they hold and which faults there are.
#![tactic(auto)]

mod law;

pub use law::texts_can_be_placed;
