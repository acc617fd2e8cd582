//! Stage: heaps. What a heap file without faults holds represents its value, and fits machine words.
//! Role: laws.
//! Promises: `texts_represent`, `texts_are_small`.
//! May cite: definitions, laws and public crates below; no code above.
//! docs/LANGUAGE.md, "Heap files", says what they hold and which faults there are.
#![tactic(auto)]

mod law;

pub use law::{texts_are_small, texts_represent};
