//! Stage: C. C texts to the program that they spell, or to the first token that no program goes on with.
//! Role: public.
//! Promises: `read_c` answers exactly; law: `one_program`.
//! May cite: anything of its stage and of those below; no crate above.
//! docs/LANGUAGE.md, "The C text", says what is spelled.
#![tactic(auto)]

mod block;
mod body;
mod fault;
mod file;
mod gap;
mod law;
mod read;

pub use fault::CFault;
pub use law::one_program;
pub use read::read_c;
