//! Stage: instances. One copy for each instance of a checked source.
//! Role: public.
//! Promises: `mono` gives of each instance its type and its core, exactly; `Mono`, `Copy`, `Body` and `specialise`.
//! May cite: anything of its stage and of those below; no crate above.
#![tactic(auto)]

mod build;
mod copies;
mod cores;

pub use build::mono;
pub use copies::{Body, Copy, Mono};
pub use cores::specialise;
