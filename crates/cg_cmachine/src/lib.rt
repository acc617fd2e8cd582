//! Stage: C. The machine of the C subset, on any store and over tables of abstract functions.
//! Role: public.
//! Promises: `run_c_with` and `run_c` run a function of a program, exactly as the definition says.
//! May cite: anything of its stage and of those below; no crate above.
//! Names are resolved before it runs, and loops, branches and calls go over a stack of its own (docs/LANGUAGE.md, "The C subset").
#![tactic(auto)]

mod abstracts;
mod answer;
mod going;

pub use answer::{Ran, run_c, run_c_with};
pub use cg_cmachine_values::RunFault;
