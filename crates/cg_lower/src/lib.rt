//! Stage: C. The C program of a list of instances, and what that program needs: structs, arrow types, calls.
//! Role: public.
//! Promises: `lower`, `collect`, `calls` and `tags`, exactly; laws: `lowered_simulates`, `lowered_is_printable`.
//! May cite: anything of its stage and of those below; no crate above.
//! docs/LANGUAGE.md, "The C of instances", says it in words.
#![tactic(auto)]

mod function;
mod gather;
mod graph;
mod law;
mod nodes;
mod program;

pub use function::function_name;
pub use gather::{Collected, collect};
pub use graph::{calls, tags};
pub use law::{lowered_is_printable, lowered_simulates};
pub use program::lower;
