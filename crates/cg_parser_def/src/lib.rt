//! Stage: reading. What the tokens and the bytes of a program spell, and the machine that reads items.
//! Role: definitions.
//! Promises: definitions alone (`specs/Grammar.antt`, `Machine`, `Bounded`, `Plain`, `Held`).
//! May cite: definitions and plain data of crates below; no laws, and no code above.
//! docs/LANGUAGE.md, "Grammar", says it in words.
#![tactic(auto)]
