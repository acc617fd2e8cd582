//! Stage: C. The C of a list of instances, as a pure function.
//! Role: definitions.
//! Promises: definitions alone (`specs/Lowered.antt`, `CTypes`, `Structs`, `Functions`, `Dispatch`, `LibraryCode`, `IteratorCode`).
//! May cite: definitions and plain data of crates below; no laws, and no code above.
//! docs/LANGUAGE.md, "The C of instances", says it in words.
#![tactic(auto)]
