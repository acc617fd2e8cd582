//! Stage: reading. The tokens of a source, one by one, as slices of it.
//! Role: public.
//! Promises: `Lexer` gives the defined tokens in order, or their first fault; laws: `one_token`, `one_division`, `one_fault`.
//! May cite: anything of its stage and of those below; no crate above.
//! docs/LANGUAGE.md, "Tokens", says what they are.
#![tactic(auto)]

mod bytes;
mod front;
mod gap;
mod law;
mod lexer;
mod number;
mod token;

pub use law::{one_division, one_fault, one_token};
pub use lexer::Lexer;
pub use token::{LexFault, Token, TokenKind};
