//! Stage: types. The checker as a pure function, one pass over each body, and what it keeps.
//! Role: definitions.
//! Promises: definitions alone (`specs/Pass.antt`, `NormalForm`, `Kept`, `Uses`).
//! May cite: definitions and plain data of crates below; no laws, and no code above.
#![tactic(auto)]
