//! Stage: names. How wide and how large written types are, and so what the synonyms of a program are for.
//! Role: part of `cg_resolve`.
//! Promises: `is_too_wide`, `synonyms`, exactly as defined.
//! May cite: anything below it, of its stage and of those below; no crate above.
//! docs/LANGUAGE.md, "Synonyms" and "Limits", says what they mean.
#![tactic(auto)]

mod build;
mod measure;
mod named_size;
mod oversize;
mod size;
mod weigh;
mod wide;
mod wide_exprs;
mod wide_patterns;
mod wide_types;

pub use build::synonyms;
pub use oversize::Oversize;
pub use wide::is_too_wide;
