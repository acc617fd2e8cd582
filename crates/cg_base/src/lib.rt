//! Stage: ground. Want of memory, kinds of bytes, numbers, places, names, lists, types, functions and limits.
//! Role: public.
//! Promises: `is_white`, `is_digit`, `literal`, `Place`, `Name`, `Items`, `Ty`, `copy_types`; the theorem on readers, `specs/Exact.antt`.
//! May cite: anything of its stage and of those below; no crate above.
//! docs/LANGUAGE.md, "Types of the kernel", says what the types stand for.
#![tactic(auto)]

mod bytes;
mod fun;
mod items;
mod kind;
mod limit;
mod memory;
mod name;
mod number;
mod place;
mod ty;

pub use bytes::{is_digit, is_white};
pub use fun::{Fun, Lib};
pub use items::Items;
pub use kind::{Bound, Kinds, Sigil, Word};
pub use limit::Limit;
pub use memory::Memory;
pub use name::Name;
pub use number::literal;
pub use place::Place;
pub use ty::{Part, Ty, copy_types};
