//! Stage: update. The update semantics: what instances do on a heap that is written in place.
//! Role: public.
//! Promises: no calls: definitions in `specs/` (`Updates`, `Machines`, `Turns`, `Calls`); laws: `more_budget`, `depth_is_free`.
//! May cite: anything of its stage and of those below; no crate above.
//! docs/LANGUAGE.md, "Update semantics", says it in words, over any table of abstract functions.
#![tactic(auto)]

mod law;

pub use law::{depth_is_free, more_budget};
