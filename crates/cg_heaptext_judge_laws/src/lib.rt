//! Stage: heaps. What is judged of a heap file, one thing that is met after the other, is what is asked of all.
//! Role: laws.
//! Promises: `runs_judge`.
//! May cite: definitions, laws and public crates below; no code above.
//! docs/LANGUAGE.md, "Heap files", says what is asked.
#![tactic(auto)]

mod law;

pub use law::runs_judge;
