//! Stage: C. The C of operators, dispatch functions and iterators, and that the C of operators does what they do.
//! Role: public.
//! Promises: `op_stmts`, `dispatch` and `iterator` give the statements and functions, exactly; law: `operators_compute`.
//! May cite: anything of its stage and of those below; no crate above.
//! docs/LANGUAGE.md, "Operators in C" and "The C of instances", says them.
#![tactic(auto)]

mod arrays;
mod breaks;
mod copies;
mod iterators;
mod law;
mod locals;
mod loops;
mod ops;
mod switches;

pub use iterators::{IterTypes, iterator};
pub use law::operators_compute;
pub use ops::op_stmts;
pub use switches::{DispatchList, dispatch};
