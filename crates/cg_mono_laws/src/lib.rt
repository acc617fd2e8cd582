//! Stage: evaluation. Evaluation over the copies of a list of instances gives what evaluation over the source gives.
//! Role: laws.
//! Promises: `evaluation_is_kept`.
//! May cite: definitions, laws and public crates below; no code above.
//! docs/LANGUAGE.md, "Instances", says it in words.
#![tactic(auto)]

pub mod law;
