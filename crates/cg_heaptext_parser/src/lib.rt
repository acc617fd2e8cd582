//! Stage: heaps. Which bytes are the text of a heap file, or the first token that none goes on with.
//! Role: part of `cg_heaptext`.
//! Promises: `read_text` answers exactly; law: `one_heap`.
//! May cite: anything below it, of its stage and of those below; no crate above.
//! docs/LANGUAGE.md, "Heap files", says what is spelled.
#![tactic(auto)]

mod fault;
mod law;
mod phase;
mod read;
mod reading;
mod symbol;

pub use fault::TextFault;
pub use law::one_heap;
pub use read::read_text;
