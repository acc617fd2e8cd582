//! Stage: instances. In which cores no type variable stands.
//! Role: part of `cg_mono`.
//! Promises: `is_closed` answers exactly; law: `closed_cores_stay`.
//! May cite: anything below it, of its stage and of those below; no crate above.
//! docs/LANGUAGE.md, "Instances", says what copies are.
#![tactic(auto)]

mod closed;
mod law;

pub use closed::is_closed;
pub use law::closed_cores_stay;
