//! Stage: reading. Where an expression, an argument or an operand begins.
//! Role: part of `cg_parser_exprs`.
//! Promises: `start`, `on_argument`, `on_op` and `after_angle` are steps of the machine; `operator` tells signs.
//! May cite: anything below it, of its stage and of those below; no crate above.
#![tactic(auto)]

pub mod operands;
pub mod operators;
pub mod start;
