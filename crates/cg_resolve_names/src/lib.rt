//! Stage: names. Names that are not defined where they stand, or twice, or with a wrong number of type arguments.
//! Role: part of `cg_resolve`.
//! Promises: `check_names` answers the first of N1, N2 and N4 in reading order, exactly; `Scope` is a list of names.
//! May cite: anything below it, of its stage and of those below; no crate above.
//! docs/LANGUAGE.md, "Names", says the rules.
#![tactic(auto)]

mod exprs;
mod fault;
mod items;
mod parts;
mod patterns;
mod scope;
mod types;

pub use fault::NamingFault;
pub use items::check_names;
pub use scope::Scope;
