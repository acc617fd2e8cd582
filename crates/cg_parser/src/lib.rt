//! Stage: reading. Bytes to the program that they spell, or to the first place where no program goes on.
//! Role: public.
//! Promises: `parse` answers the program, the depth or S1 to S4, exactly; laws: `one_program`, `one_answer`.
//! May cite: anything of its stage and of those below; no crate above.
//! docs/LANGUAGE.md, "Grammar", says what is spelled. The parts of items are read by the readers of types, patterns and expressions.
#![tactic(auto)]

mod fault;
mod item;
mod law;
mod program;
mod readers;

pub use fault::ParseFault;
pub use law::{one_answer, one_program};
pub use program::parse;
