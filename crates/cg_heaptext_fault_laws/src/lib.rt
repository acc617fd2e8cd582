//! Stage: heaps. Bytes hold one thing at a type or have one first fault, on one line, and never both.
//! Role: laws.
//! Promises: `one_text`, `one_cut`, `cut_is_no_text`, `fault_is_no_text`, `one_fault`.
//! May cite: definitions, laws and public crates below; no code above.
//! docs/LANGUAGE.md, "Heap files", says what they hold and which faults there are.
#![tactic(auto)]

mod law;

pub use law::{cut_is_no_text, fault_is_no_text, one_cut, one_fault, one_text};
