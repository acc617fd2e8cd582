//! Stage: update. Contexts in a heap, and what it means that an update represents what evaluation gives.
//! Role: definitions.
//! Promises: definitions alone (`specs/Contexts.antt`, `Refined`).
//! May cite: definitions and plain data of crates below; no laws, and no code above.
//! docs/LANGUAGE.md, "Parts of a heap", says it in words.
#![tactic(auto)]
