//! Stage: names. What written types become in a kernel, by a table of what synonyms are for.
//! Role: part of `cg_resolve`.
//! Promises: `written_type` gives a written type, expanded, exactly; `Synonyms` is the table.
//! May cite: anything below it, of its stage and of those below; no crate above.
//! docs/LANGUAGE.md, "Synonyms" and "Types", says what they mean.
#![tactic(auto)]

mod expand;
mod named;
mod order;
mod table;
mod take;

pub use expand::written_type;
pub use table::Synonyms;
