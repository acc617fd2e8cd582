//! Stage: command. The C of the instances of any source can be printed, and runs to what evaluation gives.
//! Role: laws.
//! Promises: `functions_stand`, `sources_print`, `sources_are_programs`, `none_are_linked`.
//! May cite: definitions, laws and public crates below; no code above.
//! Promises also: `sources_are_refined`, `links_exist`, `entries_are_sound`, `entries_run`.
//! docs/LANGUAGE.md, "The C of instances", says it in words.
#![tactic(auto)]

mod law;

pub use law::{
    entries_are_sound, entries_run, functions_stand, links_exist, none_are_linked,
    sources_are_programs, sources_are_refined, sources_print,
};
