//! Stage: names. Nodes of kernel terms, made of their parts, and what names mean that are no variables.
//! Role: part of `cg_resolve`.
//! Promises: `unary`, `application`, `condition` and so on, a call for each node, `function_term` and `written_arg`, each exactly.
//! May cite: anything below it, of its stage and of those below; no crate above.
//! docs/LANGUAGE.md, "Desugaring", says what they are.
#![tactic(auto)]

mod names;
mod nodes;

pub use names::{Names, function_term, written_arg};
pub use nodes::{
    annotated, application, binary, condition, constructed, formed, member, put, unary, unit_term,
    widened,
};
