//! Stage: command. The names of each generated program are in order, it keeps the limits, and its kernel is that of its functions.
//! Role: laws.
//! Promises: `names_are_in_order`, `kernel_is_made`, `limits_are_kept`, `entry_is_last`.
//! May cite: definitions, laws and public crates below; no code above.
//! docs/LANGUAGE.md, "Generator", says what it is.
#![tactic(auto)]

mod law;

pub use law::{entry_is_last, kernel_is_made, limits_are_kept, names_are_in_order};
