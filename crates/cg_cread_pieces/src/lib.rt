//! Stage: C. The pieces of C texts: right sides, and statements up to their `;` or to the `{` behind a test.
//! Role: part of `cg_cread`.
//! Promises: `Right` and `Line`, each the machine that is defined.
//! May cite: anything below it, of its stage and of those below; no crate above.
//! docs/LANGUAGE.md, "The C text", says what is spelled.
#![tactic(auto)]

mod line;
mod right;

pub use line::{Line, Role, Test};
pub use right::{Cast, Right, Size, Slot, Spot};
