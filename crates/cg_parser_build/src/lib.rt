//! Stage: reading. Expressions built bottom up, each with its depth, and none where that passes the limit.
//! Role: part of `cg_parser`.
//! Promises: `build`, `choices`, `lists` and `patterns` have a function for each form; `BuiltExpr` is what they build.
//! May cite: anything below it, of its stage and of those below; no crate above.
//! docs/LANGUAGE.md, "Limits", says the depth. Want of memory is the one refusal.
#![tactic(auto)]

pub mod build;
mod built;
pub mod choices;
pub mod lists;
pub mod patterns;

pub use built::{BuiltAlts, BuiltArgs, BuiltBinds, BuiltExpr, BuiltExprs, BuiltFields};
