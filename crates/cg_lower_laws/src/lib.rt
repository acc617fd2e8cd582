//! Stage: C. The C of a list of instances does what the update semantics does.
//! Role: laws.
//! Promises: `lowering_simulates`, `library_is_simulated`, `dispatch_is_simulated`, `iterators_run`, `covered_are_declared`.
//! May cite: definitions, laws and public crates below; no code above.
//! Promises also: `lowering_is_printable`.
#![tactic(auto)]

mod law;

pub use law::{
    covered_are_declared, dispatch_is_simulated, iterators_run, library_is_simulated,
    lowering_is_printable, lowering_simulates,
};
