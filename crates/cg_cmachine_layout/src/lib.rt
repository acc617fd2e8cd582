//! Stage: C. Layouts of C types: how many slots they have, and where their parts stand.
//! Role: part of `cg_cmachine`.
//! Promises: `Structs` gives layouts and the parts that members lead to, exactly; `Kind`, `Shape`, `Part`.
//! May cite: anything below it, of its stage and of those below; no crate above.
//! docs/LANGUAGE.md, "The C subset", layouts.
#![tactic(auto)]

mod circles;
mod counted;
mod index;
mod kind;
mod shape;
mod sizes;
mod structs;

pub use kind::{Kind, Part};
pub use shape::Shape;
pub use structs::Structs;
