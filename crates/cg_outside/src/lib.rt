//! Stage: ground. Files and an output, each call with what it leaves held and with a count of its faults.
//! Role: public.
//! Promises: the traits `Files` and `Sink`, whose faults have causes; `MemoryFiles`, `MemorySink`, `HonestFiles`, `HonestSink` keep them.
//! May cite: anything of its stage and of those below; no crate above.
//! Promises also: `TornFiles`, `TornSink` keep them.
//! docs/LANGUAGE.md, "The outside", says what each of them does.
#![tactic(auto)]

mod entries;
mod failures;
mod honest;
mod memory;
mod outside;
mod torn;

pub use failures::Failures;
pub use honest::{HonestFiles, HonestSink};
pub use memory::{MemoryFiles, MemorySink};
pub use outside::{FileFault, Files, Sink};
pub use torn::{TornFiles, TornSink};
