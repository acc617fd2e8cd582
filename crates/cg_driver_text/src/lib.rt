//! Stage: command. A function of a C text, run on a flat store.
//! Role: part of `cg_driver`.
//! Promises: `text_run`: the answer is that of the one program that the bytes spell, and a text that spells none is refused.
//! May cite: anything below it, of its stage and of those below; no crate above.
//! docs/LANGUAGE.md, "The C subset" and "Flat stores", says how a run goes, and where its cells stand.
#![tactic(auto)]

mod text;

pub use text::{TextFault, text_run};
