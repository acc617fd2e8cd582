//! Stage: command. The generated source of a number spells the program of definitions, and is no longer than a source may be.
//! Role: laws.
//! Promises: `source_is_spelled`, `source_is_short`.
//! May cite: definitions, laws and public crates below; no code above.
//! docs/LANGUAGE.md, "Generator", says which text it is.
#![tactic(auto)]

mod law;

pub use law::{source_is_short, source_is_spelled};
