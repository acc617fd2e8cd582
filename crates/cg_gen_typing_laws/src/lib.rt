//! Stage: command. The typing rules derive the kernel and the cores of a generated source, and its instances are within the limits.
//! Role: laws.
//! Promises: `cores_are_derived`, `kernel_is_accepted`, `types_are_small`, `instances_are_within`.
//! May cite: definitions, laws and public crates below; no code above.
//! docs/LANGUAGE.md, "Generator", says which source it is.
#![tactic(auto)]

mod law;

pub use law::{cores_are_derived, instances_are_within, kernel_is_accepted, types_are_small};
