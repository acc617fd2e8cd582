//! Stage: names. The kernel term of an expression.
//! Role: part of `cg_resolve`.
//! Promises: `body` gives the kernel body of a definition, exactly, where it is within the depth.
//! May cite: anything below it, of its stage and of those below; no crate above.
//! docs/LANGUAGE.md, "Desugaring", says what it is.
#![tactic(auto)]

mod definition;
mod terms;

pub use definition::body;
