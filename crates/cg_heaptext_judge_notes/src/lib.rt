//! Stage: heaps. What is noted of what is met in a heap file, and whether it fits.
//! Role: part of `cg_heaptext`.
//! Promises: `Judged` and `note_number` note what the judgement of one thing says, exactly.
//! May cite: anything below it, of its stage and of those below; no crate above.
//! docs/LANGUAGE.md, "Heap files", says what is judged.
#![tactic(auto)]

mod fault;
mod notes;
mod number;
mod types;

pub use fault::JudgeFault;
pub use notes::{Judged, Mentioned};
pub use number::note_number;
