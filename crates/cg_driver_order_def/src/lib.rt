//! Stage: command. How files stand after each status of a command that reads a file, judges, and writes two others.
//! Role: definitions.
//! Promises: definitions alone (`specs/Order.antt`).
//! May cite: definitions and plain data of crates below; no laws, and no code above.
//! docs/LANGUAGE.md, "Commands", says it in words.
#![tactic(auto)]
