//! Stage: command. What `run` asks of an entry: its type, and that no abstract function is reached from it.
//! Role: part of `cg_driver`.
//! Promises: `is_first_order` and `reaches_abstract`, exactly.
//! May cite: anything below it, of its stage and of those below; no crate above.
#![tactic(auto)]

mod mentions;
mod types;

pub use mentions::reaches_abstract;
pub use types::is_first_order;
