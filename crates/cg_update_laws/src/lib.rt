//! Stage: update. What scalars that represent values are, form by form, and what iterators call.
//! Role: laws.
//! Promises: `iterators_call_sources`.
//! May cite: definitions, laws and public crates below; no code above.
//! docs/LANGUAGE.md, "Update semantics", says it in words.
#![tactic(auto)]

mod law;

pub use law::iterators_call_sources;
