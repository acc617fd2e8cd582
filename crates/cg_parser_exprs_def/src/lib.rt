//! Stage: reading. What the tokens of an expression spell, and the machine that reads them.
//! Role: definitions.
//! Promises: definitions alone (`specs/Grammar.antt`, `Bars`, `Machine`, `Held`, `Read`, `Unfinished`).
//! May cite: definitions and plain data of crates below; no laws, and no code above.
//! docs/LANGUAGE.md, "Expressions" and "Bars", says it in words.
#![tactic(auto)]
