//! Stage: evaluation. What evaluation gives on values, and at what cost.
//! Role: definitions.
//! Promises: definitions alone (`specs/Evaluation.antt`, `Foreigns`).
//! May cite: definitions and plain data of crates below; no laws, and no code above.
//! docs/LANGUAGE.md, "Evaluation", says it in words.
#![tactic(auto)]
