//! Stage: C. What programs of the C subset do, on heaps and over any table of abstract functions.
//! Role: definitions.
//! Promises: definitions alone (`specs/Layouts.antt`, `Operands`, `Targets`, `BuiltIns`, `Runs`).
//! May cite: definitions and plain data of crates below; no laws, and no code above.
//! docs/LANGUAGE.md, "The C subset", says it in words.
#![tactic(auto)]
