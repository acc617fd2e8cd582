//! Stage: names. What patterns and the alternatives of a match bind at a site.
//! Role: part of `cg_resolve`.
//! Promises: `bound_to`, `bind_later`, `bind_last`, `push_case`, `push_seen`, `close_with`, each exactly, or too deep exactly where it is.
//! May cite: anything below it, of its stage and of those below; no crate above.
//! docs/LANGUAGE.md, "Desugaring", says what they are.
#![tactic(auto)]

mod binders;
mod choices;

pub use binders::{bind_later, bound_to, push_seen};
pub use choices::{bind_last, close_with, push_case, under_choices};
