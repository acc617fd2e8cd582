//! Stage: C. Values of C programs: what stands in frames and cells, what is done with it, where it is written.
//! Role: part of `cg_cmachine`.
//! Promises: `judge`, `judge_all`, `write`, `give`, `is_of`, `compute`, `convert`, `flip`, `word_in`, `address_in`, each exactly.
//! May cite: anything below it, of its stage and of those below; no crate above.
//! A frame is one row of slots here, and a place in it is a number (docs/LANGUAGE.md, "The C subset").
#![tactic(auto)]

mod assign;
mod copied;
mod fault;
mod operate;
mod place;
mod read;
mod value;
mod words;

pub use assign::write;
pub use copied::Copied;
pub use fault::RunFault;
pub use operate::{compute, convert, flip};
pub use place::{Operand, Place};
pub use read::{has_room, judge, judge_all, read_local};
pub use value::{CValue, address_in, give, is_of, push_scalars, word_in};
pub use words::{fits, same};
