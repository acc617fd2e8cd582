//! Stage: evaluation. Evaluation: what a function gives on a value, without a heap, and at what cost.
//! Role: public.
//! Promises: `eval` and `eval_with`, exactly as defined; laws: `more_budget`, `fuel_is_free`.
//! May cite: anything of its stage and of those below; no crate above.
//! docs/LANGUAGE.md, "Evaluation", says it in words. Its callers know that a call is not stuck.
#![tactic(auto)]

mod asking;
mod evaluator;
mod fault;
mod law;
mod mentions;
mod nodes;

pub use evaluator::{eval, eval_with};
pub use fault::EvalFault;
pub use law::{fuel_is_free, more_budget};
