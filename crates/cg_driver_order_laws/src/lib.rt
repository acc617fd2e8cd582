//! Stage: command. Whatever calls are torn, files stand as the status of a call says.
//! Role: laws.
//! Promises: `build_is_in_order`, `torn_cogent`.
//! May cite: definitions, laws and public crates below; no code above.
//! docs/LANGUAGE.md, "Commands", says it in words.
#![tactic(auto)]

mod law;

pub use law::{build_is_in_order, torn_cogent};
