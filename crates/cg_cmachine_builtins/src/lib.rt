//! Stage: C. The functions that `cogent.h` declares, on a store.
//! Role: part of `cg_cmachine`.
//! Promises: `call`, `call_into` and `new_into`, exactly as defined; `named` tells which built-in a name is.
//! May cite: anything below it, of its stage and of those below; no crate above.
//! docs/LANGUAGE.md, "The C subset", built-ins.
#![tactic(auto)]

mod act;
mod built_in;
mod calls;
mod changes;
mod create;
mod judge;
mod names;
mod operands;
mod room;
mod widths;

pub use built_in::BuiltIn;
pub use calls::{call, call_into, new_into};
pub use changes::Changes;
pub use names::named;
