//! Stage: ground. Kinds, equality, bang, shape and substitution of types.
//! Role: public.
//! Promises: `kinds_of`, `same`, `same_types`, `bang`, `shape`, `subst`, exactly as defined.
//! May cite: anything of its stage and of those below; no crate above.
//! Promises also: laws, `bang_twice`, `bang_gives_kinds`, `subst_keeps_kinds`, `shape_twice`, `shape_of_bang`.
//! docs/LANGUAGE.md, "Kinds and bang" and "Layout", says what they mean.
#![tactic(auto)]

mod change;
mod equality;
mod kind;
pub mod law;
mod replace;

pub use change::{bang, shape};
pub use equality::{same, same_types};
pub use kind::kinds_of;
pub use replace::subst;
