//! Stage: names. What the grammar spells has the shape that desugaring takes for granted, and its faults in order.
//! Role: laws.
//! Promises: `spelled_is_shaped`, `spelled_faults_are_ordered`, `spelled_takes_grow`, `spelled_is_named`.
//! May cite: definitions, laws and public crates below; no code above.
#![tactic(auto)]

pub mod law;
