//! Stage: heaps. Which bytes are a heap file, what it holds at a type, and which fault comes first.
//! Role: definitions.
//! Promises: definitions alone (`specs/Tokens.antt`, `Trees`, `Grammar`, `Reading`, `HeapText`, `Placed`).
//! May cite: definitions and plain data of crates below; no laws, and no code above.
//! docs/LANGUAGE.md, "Heap files", says it in words.
#![tactic(auto)]
