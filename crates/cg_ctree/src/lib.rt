//! Stage: C. Programs of the C subset as trees, and which texts spell them.
//! Role: public.
//! Promises: the trees (`CProgram`, `CStmt`) and `Why`; `specs/Tokens.antt`, `specs/Spells.antt`; laws: `one_token`, `one_division`.
//! May cite: anything of its stage and of those below; no crate above.
//! docs/LANGUAGE.md, "The C subset" and "The C text", says it in words.
#![tactic(auto)]

mod law;
mod tree;
mod why;

pub use law::{one_division, one_token};
pub use tree::{CBody, CCase, CDecl, CFun, COp, COpnd, CPath, CProgram, CRhs, CStmt, CStruct, CTy};
pub use why::Why;
