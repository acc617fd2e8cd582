//! Stage: heaps. Heap files to the cells, the argument and the value that they hold, and the cells into stores.
//! Role: public.
//! Promises: `read_heap` answers exactly: what a heap file holds, or the first of H1 to H7 with its line.
//! May cite: anything of its stage and of those below; no crate above.
//! Promises also: `fill` puts the cells of a heap file into a store that holds none.
//! docs/LANGUAGE.md, "Heap files", says what they hold and which faults there are.
#![tactic(auto)]

mod fault;
mod filling;
mod reach;
mod read;
mod start;

pub use cg_heaptext_contents::Placed;
pub use fault::HeapFault;
pub use filling::fill;
pub use read::read_heap;
pub use start::Start;
