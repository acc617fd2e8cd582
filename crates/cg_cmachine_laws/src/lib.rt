//! Stage: C. Laws of runs of C: neither names nor the order of what is declared matter.
//! Role: laws.
//! Promises: `names_do_not_matter`, `order_does_not_matter`.
//! May cite: definitions, laws and public crates below; no code above.
#![tactic(auto)]

mod law;

pub use law::{names_do_not_matter, order_does_not_matter};
