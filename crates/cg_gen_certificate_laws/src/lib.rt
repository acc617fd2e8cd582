//! Stage: command. The certificate that would be written of the generated kernel is within its limit.
//! Role: laws.
//! Promises: `certificate_is_short`.
//! May cite: definitions, laws and public crates below; no code above.
//! docs/LANGUAGE.md, "Generator", says which source it is, and "Limits" what the limit is.
#![tactic(auto)]

mod law;

pub use law::certificate_is_short;
