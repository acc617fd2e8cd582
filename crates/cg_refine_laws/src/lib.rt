//! Stage: update. Evaluation of instances is refined by their updates, on any heap that represents the argument.
//! Role: laws.
//! Promises: `instances_are_refined`, `iterators_are_refined`, `library_is_refined`, `known_functions_are_refined`.
//! May cite: definitions, laws and public crates below; no code above.
//! docs/LANGUAGE.md, "Parts of a heap", says it in words.
#![tactic(auto)]

mod law;

pub use law::{
    instances_are_refined, iterators_are_refined, known_functions_are_refined, library_is_refined,
};
