//! Stage: command. What the source that is made of a number spells, what it is as a kernel, and what it gives.
//! Role: definitions.
//! Promises: definitions alone (`specs/Programs.antt`, `Kernels`, `Results`).
//! May cite: definitions and plain data of crates below; no laws, and no code above.
//! docs/LANGUAGE.md, "Generator", says it in words.
#![tactic(auto)]
