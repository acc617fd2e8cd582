//! Stage: C. The C of the functions of the library.
//! Role: part of `cg_lower`.
//! Promises: `library_body` and `iterator_body`, exactly as defined.
//! May cite: anything below it, of its stage and of those below; no crate above.
//! Each is a function of its own (docs/LANGUAGE.md, "The C of instances", library).
#![tactic(auto)]

mod body;
mod calls;
mod code;
mod fresh;
mod iterators;
mod types;

pub use body::library_body;
pub use iterators::iterator_body;
