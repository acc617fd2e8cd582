//! Stage: evaluation. Type soundness of evaluation.
//! Role: laws.
//! Promises: `calls_are_sound`, `functions_fit`.
//! May cite: definitions, laws and public crates below; no code above.
//! docs/LANGUAGE.md, "Evaluation", says it in words.
#![tactic(auto)]

mod law;

pub use law::{calls_are_sound, functions_fit};
