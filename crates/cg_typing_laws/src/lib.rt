//! Stage: types. Laws of derivations: type arguments for type variables, observed types, contexts with more entries.
//! Role: laws.
//! Promises: `substitution_keeps_derivations`, `instances_are_derived`, `derivations_are_weakened`, `entries_are_inserted`.
//! May cite: definitions, laws and public crates below; no code above.
//! Promises also: `checked_arguments_are_instance`, `substitutions_compose`, `bang_is_substituted` and `parts_are_observed`.
#![tactic(auto)]

mod law;

pub use law::{
    bang_is_substituted, checked_arguments_are_instance, derivations_are_weakened,
    entries_are_inserted, instances_are_derived, parts_are_observed, substitution_cases,
    substitution_keeps_derivations, substitutions_compose, weakening_cases,
};
