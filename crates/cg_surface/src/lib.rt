//! Stage: reading. Surface programs: what a source spells, before names are resolved.
//! Role: public.
//! Promises: no calls: types alone (`Program`, `Item`, `SExpr`, `Pat`, `STy`), and in `specs/` what their values stand for.
//! May cite: anything of its stage and of those below; no crate above.
//! docs/LANGUAGE.md, "Grammar", says what is written.
#![tactic(auto)]

mod expr;
mod pattern;
mod program;
mod written;

pub use expr::{Alt, Bind, FExpr, SExpr, SForm};
pub use pattern::{FPat, Pat, PatForm};
pub use program::{Item, Program};
pub use written::{SAlt, SPart, STy, STyForm};
