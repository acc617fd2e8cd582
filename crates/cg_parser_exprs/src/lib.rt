//! Stage: reading. The reader of expressions, one symbol at a time, with the rule of bars.
//! Role: part of `cg_parser`.
//! Promises: `ExprReader` is, token by token, the machine over expressions up to the depth.
//! May cite: anything below it, of its stage and of those below; no crate above.
//! docs/LANGUAGE.md, "Expressions" and "Bars", says what is spelled. Types and patterns are read by readers of their own.
#![tactic(auto)]

mod behind;
mod reader;
mod step;

pub use cg_parser_exprs_laws::{keeps_to_depth, open_exactly, reads_exactly, stops_at_wrong_bars};
pub use reader::{ExprEnd, ExprReader};
