//! Stage: command. What the type of an entry is.
//! Role: laws.
//! Promises: `entries_have_types`.
//! May cite: definitions, laws and public crates below; no code above.
//! docs/LANGUAGE.md, "Entries", says what an entry is.
#![tactic(auto)]

mod law;

pub use law::entries_have_types;
