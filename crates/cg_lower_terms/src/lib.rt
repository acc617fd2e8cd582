//! Stage: C. The C of terms.
//! Role: part of `cg_lower`.
//! Promises: `lower_term` gives the C of a term, of all forms, exactly as defined.
//! May cite: anything below it, of its stage and of those below; no crate above.
#![tactic(auto)]

mod calls;
mod terms;

pub use terms::lower_term;
