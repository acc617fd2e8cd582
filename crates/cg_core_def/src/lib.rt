//! Stage: ground. Lawful kernels: those that names resolve to, and that the checker is asked about.
//! Role: definitions.
//! Promises: definitions alone, `specs/Lawful.antt`.
//! May cite: definitions and plain data of crates below; no laws, and no code above.
#![tactic(auto)]
