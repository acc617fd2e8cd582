//! Stage: heaps. How what is met in a heap file is judged, one by one.
//! Role: definitions.
//! Promises: definitions alone (`specs/Judging.antt`).
//! May cite: definitions and plain data of crates below; no laws, and no code above.
//! docs/LANGUAGE.md, "Heap files", says what is judged.
#![tactic(auto)]
