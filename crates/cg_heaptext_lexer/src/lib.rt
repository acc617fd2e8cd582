//! Stage: heaps. The tokens of a heap file, one by one, as slices of it.
//! Role: part of `cg_heaptext`.
//! Promises: `Lexer` gives the defined tokens in order, or what begins none; law: `one_stand`.
//! May cite: anything below it, of its stage and of those below; no crate above.
//! docs/LANGUAGE.md, "Heap files", says what they are.
#![tactic(auto)]

mod front;
mod law;
mod lexer;
mod token;

pub use law::one_stand;
pub use lexer::Lexer;
pub use token::{Token, TokenKind};
