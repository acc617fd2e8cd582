//! Stage: types. The typing rules of the whole language, what is kept of a checked source, and the nodes of a core.
//! Role: public.
//! Promises: `Checked`, `nodes_in`; laws: `checked_sources_hold`, `splits_lose_nothing`, `linear_goes_one_way`.
//! May cite: anything of its stage and of those below; no crate above.
//! `specs/Rules.antt` has a row for each form of term; docs/LANGUAGE.md, "Typing", says the rules in words.
#![tactic(auto)]

mod checked;
mod law;
mod nodes;

pub use checked::Checked;
pub use law::{checked_sources_hold, linear_goes_one_way, splits_lose_nothing};
pub use nodes::nodes_in;
