//! Stage: reading. The machine that reads expressions is exact for their grammar and for the rule of bars.
//! Role: laws.
//! Promises: `reads_exactly`, `open_exactly`, `keeps_to_depth`, `stops_at_wrong_bars`.
//! May cite: definitions, laws and public crates below; no code above.
#![tactic(auto)]

mod law;

pub use law::{keeps_to_depth, open_exactly, reads_exactly, stops_at_wrong_bars};
