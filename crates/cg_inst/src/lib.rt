//! Stage: instances. The list of instances of a checked source, and its limits.
//! Role: public.
//! Promises: `instances` gives exactly the defined list, or the first limit that it passes; `Instances` finds the place of an instance.
//! May cite: anything of its stage and of those below; no crate above.
//! docs/LANGUAGE.md, "Instances", says it in words.
#![tactic(auto)]

mod arguments;
mod fault;
mod found;
mod instance;
mod keys;
mod limits;
mod list;
mod make;
mod nodes;
mod search;
mod widths;

pub use fault::InstFault;
pub use instance::Instance;
pub use list::Instances;
pub use make::instances;
