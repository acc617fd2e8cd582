//! Stage: C. Tables of lowering: structs by the types that they are for, instances and arrow types by where they stand.
//! Role: part of `cg_lower`.
//! Promises: `Structs` and `Places`, exactly; law: `is_table`, that each struct stands behind its members.
//! May cite: anything below it, of its stage and of those below; no crate above.
//! docs/LANGUAGE.md, "The C of instances", says what is looked up.
#![tactic(auto)]

mod adds;
mod declare;
mod hints;
mod host;
mod keys;
mod layer;
mod members;
mod places;
mod structs;
mod visit;
mod walks;

pub(crate) use host::Host;
pub(crate) use members::{Kind, Member, Row, Shape};
pub use places::Places;
pub use structs::Structs;
