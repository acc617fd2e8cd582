//! Stage: types. What the parts of a body do with each variable, and the marks and derivations that follow.
//! Role: part of `cg_check`.
//! Promises: `no_uses`, `join`, `leave`, `mark`, `seen_places`, `marks_of_uses`, `leaf`, `two_parts`, `settle` and so on, each exactly.
//! May cite: anything below it, of its stage and of those below; no crate above.
//! docs/LANGUAGE.md, "Typing", says what they mean.
#![tactic(auto)]

mod derivs;
mod entry;
mod kept;
mod marks;
mod uses;

pub use derivs::{leaf, one_part, three_parts, two_parts};
pub use entry::Use;
pub use kept::settle;
pub use marks::{keep_new, kept_beside, kept_seen, marks_of_uses, marks_seen};
pub use uses::{NO_USE, join, join_seen, leave, mark, mark_but, no_uses, one_use, seen_places};
