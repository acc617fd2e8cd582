//! Stage: reading. Matches: to which of them a bar belongs, and the heads of alternatives.
//! Role: part of `cg_parser_exprs`.
//! Promises: `on_bar`, `want_alt`, `after_con` and `want_arrow` are steps of the machine.
//! May cite: anything below it, of its stage and of those below; no crate above.
#![tactic(auto)]

pub mod alternatives;
mod bars;
pub mod matches;
