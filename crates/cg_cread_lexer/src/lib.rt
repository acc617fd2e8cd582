//! Stage: C. The tokens of a C text, one by one, as slices of it.
//! Role: part of `cg_cread`.
//! Promises: `Lexer` gives the defined tokens in order, or what begins none; law: `one_stand`.
//! May cite: anything below it, of its stage and of those below; no crate above.
//! docs/LANGUAGE.md, "The C text", says what they are.
#![tactic(auto)]

mod bytes;
mod front;
mod gap;
mod law;
mod lexer;
mod token;

pub use law::one_stand;
pub use lexer::Lexer;
pub use token::{Token, TokenKind};
