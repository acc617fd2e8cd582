//! Stage: reading. What ends an expression, and the fields and members behind it.
//! Role: part of `cg_parser_exprs`.
//! Promises: `on_end`, `on_in`, `on_and`, `on_then`, `after_dot`, `want_field` and `after_field` are steps of the machine.
//! May cite: anything below it, of its stage and of those below; no crate above.
#![tactic(auto)]

pub mod ends;
pub mod fields;
