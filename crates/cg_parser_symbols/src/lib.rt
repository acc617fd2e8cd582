//! Stage: reading. What the grammar sees of a token.
//! Role: part of `cg_parser`.
//! Promises: `symbol_at` gives the symbol of a token, exactly; what the readers share is in `specs/`.
//! May cite: anything below it, of its stage and of those below; no crate above.
//! A symbol keeps the text of a token only where a tree keeps it (docs/LANGUAGE.md, "Grammar").
#![tactic(auto)]

mod symbol;

pub use symbol::{Symbol, symbol_at};
