//! Stage: command. What the functions of the generated source give and cost, and what its heap file holds.
//! Role: laws.
//! Promises: `evaluation_gives`, `first_costs`, `steps_are_enough`, `heap_is_held`.
//! May cite: definitions, laws and public crates below; no code above.
//! docs/LANGUAGE.md, "Generator", says what the generated source is.
#![tactic(auto)]

mod law;

pub use law::{evaluation_gives, first_costs, heap_is_held, steps_are_enough};
