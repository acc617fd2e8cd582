//! Stage: instances. Laws of lists of instances.
//! Role: laws.
//! Promises: `list_is_one`, `instances_are_apart`, `instances_are_good`, `instances_are_derived`, `instances_are_total`.
//! May cite: definitions, laws and public crates below; no code above.
//! docs/LANGUAGE.md, "Instances", says them in words.
#![tactic(auto)]

mod law;

pub use law::{
    instances_are_apart, instances_are_derived, instances_are_good, instances_are_total,
    list_is_one,
};
