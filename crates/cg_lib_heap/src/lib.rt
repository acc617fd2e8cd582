//! Stage: heaps. The library on heaps, for the functions that take no function.
//! Role: public.
//! Promises: `lib_heap` gives exactly the defined scalars and store.
//! May cite: anything of its stage and of those below; no crate above.
//! docs/LANGUAGE.md, "The library", says the lines.
#![tactic(auto)]

mod allocate;
mod arrays;
mod library;
mod scalars;

pub use library::lib_heap;
