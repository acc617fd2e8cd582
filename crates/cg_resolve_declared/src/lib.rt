//! Stage: names. What a program declares, in tables by name, and what is declared beforehand.
//! Role: part of `cg_resolve`.
//! Promises: `Declarations`, `plain_type`, `library_function`, `is_variable`, exactly as defined.
//! May cite: anything below it, of its stage and of those below; no crate above.
//! docs/LANGUAGE.md, "Names", says what is declared.
#![tactic(auto)]

mod beforehand;
mod declarations;
mod functions;
mod keep;
mod types;

pub use beforehand::{
    LibraryFunction, Plain, arity_beforehand, is_variable, library_function, plain_type,
};
pub use declarations::{Declarations, Definition};
pub use functions::DeclaredFunction;
pub use keep::{Names, add, keep_first};
pub use types::DeclaredType;
