//! Stage: names. Sites: terms that are open where the rest goes, with the scope there; and what is seen of patterns.
//! Role: part of `cg_resolve`.
//! Promises: `Site`, `new_site`, `variable`, `positions`, `under`, `inner_place`, `its_name`, `component`, each exactly.
//! May cite: anything below it, of its stage and of those below; no crate above.
//! docs/LANGUAGE.md, "Desugaring", says what a term is, and docs/ARCHITECTURE.md, "Names and the kernel", what a site is for.
#![tactic(auto)]

mod components;
mod fault;
mod frames;
mod patterns;
mod scopes;

pub use components::component;
pub use fault::TermFault;
pub use frames::{Frame, Site, new_site};
pub use patterns::{inner_place, its_name, under};
pub use scopes::{positions, variable, variable_term};

/// No term is deeper (docs/LANGUAGE.md, "Limits").
pub const TERM_LIMIT: usize = 512;
