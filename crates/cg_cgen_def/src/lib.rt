//! Stage: C. The C of operators, dispatch functions and iterators, as pure functions, and the names and places that they use.
//! Role: definitions.
//! Promises: definitions alone (`specs/Code.antt`, `Names`, `Places`, `Bodies`, `Dispatches`, `Loops`).
//! May cite: definitions and plain data of crates below; no laws, and no code above.
//! docs/LANGUAGE.md, "Operators in C" and "The C of instances", says it in words.
#![tactic(auto)]
