//! Stage: certificates. Contexts as marks leave them, and how a node of a certificate is reached.
//! Role: part of `cg_certcheck`.
//! Promises: `firsts`, `seconds`, `opened`, `drops_all`, `reach_leaf`, `reach_split`, `reach_record` and so on, each as the pass answers.
//! May cite: anything below it, of its stage and of those below; no crate above.
//! docs/LANGUAGE.md, "Certificates", says the rows.
#![tactic(auto)]

mod context;
mod reached;
mod source;
mod splits;
mod tests;

pub use context::{Entry, firsts, opened, opened_twice, present, seconds, type_at};
pub use reached::{
    Split, Strings, reach_leaf, reach_literal, reach_observed, reach_record, reach_split, test_leaf,
};
pub use source::{Cursor, Source};
pub use tests::{drops_all, ends_with, meets};
