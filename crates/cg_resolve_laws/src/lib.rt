//! Stage: names. A shaped program without faults of names, in which nothing mentions itself, has a lawful kernel.
//! Role: laws.
//! Promises: `desugared_is_lawful`.
//! May cite: definitions, laws and public crates below; no code above.
#![tactic(auto)]

pub mod law;
