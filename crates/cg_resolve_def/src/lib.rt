//! Stage: names. What names mean: what is defined where, what a program becomes in a kernel, and its first fault.
//! Role: definitions.
//! Promises: definitions alone (`specs/Declared.antt`, `Faults`, `Mentions`, `Expand`, `Takes`, `Terms`, `Desugar`).
//! May cite: definitions and plain data of crates below; no laws, and no code above.
//! docs/LANGUAGE.md, "Names", says it in words.
#![tactic(auto)]
