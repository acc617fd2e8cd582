//! Stage: reading. In the types and patterns of an expression.
//! Role: part of `cg_parser_exprs`.
//! Promises: `in_args`, `in_sig`, `in_pattern` and `in_alt_pattern` are steps of the machine.
//! May cite: anything below it, of its stage and of those below; no crate above.
#![tactic(auto)]

pub mod inside;
